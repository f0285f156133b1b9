// The calls for programs in C and Rust: numbers, byte slices and arrays of numbers alone.
#![tactic(auto)]

ghost use Rattle.std.specs.Prelude.{◌≡◌, ◌+◌, leb, length};
ghost use Rattle.model.specs.Bytes.{work_after};
ghost use Rattle.model.specs.Check.{check};
ghost use Rattle.model.specs.Gap.{one_task, task_set};
ghost use Rattle.model.specs.Limits.{work_room};
ghost use Rattle.exports.specs.Codes.{code_of, check_code, numbers_after, TracesAs, SolvesAs, RewritesAs, CombinesAs, ForthAs, BackAs, WidenedAs, ChecksAs};
ghost use Rattle.controller.specs.View.{Replays};
ghost use Rattle.refusals.specs.Numbers.{refusal_number};
ghost use Rattle.refusals.specs.Told.{result_by};

use gap::Group;
use refusals::Refusal;

// 65,536 and the number of a refusal.
fn refusal_code(r: Refusal) -> u64
    ensures { result ≡ 65536 + refusal_number r }
{
    65536 + r.number()
}

// The number of bytes written, or 65,536 and the number of the refusal.
fn code(answer: Result<usize, Refusal>) -> u64
    ensures { result ≡ code_of (result_by answer) }
{
    match answer {
        Ok(n) => n as u64,
        Err(r) => refusal_code(r),
    }
}

// The trace call: the number of bytes written, or 65,536 and the number of the refusal.
#[unsafe(no_mangle)]
pub extern "C" fn jovnetal_trace(plan: &[u8], labels: &[u8], out: &mut [u8]) -> u64
    ensures { TracesAs plan.now labels.now out.old out.new result }
{
    code(tracer::trace(plan, labels, out))
}

// The check call: 0 and the numbers p, q, N and K, or the number of the refusal and the numbers as they were.
#[unsafe(no_mangle)]
pub extern "C" fn jovnetal_check(
    plan: &[u8],
    certificate: &[u8],
    work: &mut [u8],
    numbers: &mut [u64; 4],
) -> u64
    ensures value { result ≡ check_code (check plan.now certificate.now (length work.old)) }
    ensures numbers_after { numbers.new ≡ numbers_after (check plan.now certificate.now (length work.old)) numbers.old }
    ensures work_after { work.new ≡ work_after (leb work_room (length work.old)) work.old }
{
    match checker::check(plan, certificate, work) {
        Ok(share) => {
            let p = share.fraction.p;
            let q = share.fraction.q;
            *numbers = [u64::from(p), u64::from(q), share.n as u64, share.k];
            0
        }
        Err(r) => r.number(),
    }
}

// The solve call: the number of bytes written and, beside them, the number of passes for their fraction; or 65,536 and the number of the
// refusal, and the passes as they were.
#[unsafe(no_mangle)]
pub extern "C" fn jovnetal_solve(
    plan: &[u8],
    work: &mut [u8],
    out: &mut [u8],
    passes: &mut [u64; 1],
) -> u64
    ensures { SolvesAs plan.now work.old work.new out.old out.new passes.old passes.new result }
{
    match solver::solve(plan, work, out) {
        Ok(solved) => {
            *passes = [solved.passes as u64];
            solved.bytes as u64
        }
        Err(r) => refusal_code(r),
    }
}

// The gap call: the number of bytes written, or 65,536 and the number of the refusal.
#[unsafe(no_mangle)]
pub extern "C" fn jovnetal_gap(plan: &[u8], task: u64, slots: u64, out: &mut [u8]) -> u64
    ensures { RewritesAs plan.now (one_task task) slots out.old out.new result }
{
    code(gap::rewrite(plan, Group::Task(task), slots, out))
}

// The gap call for a set of tasks: the number of bytes written, or 65,536 and the number of the refusal.
#[unsafe(no_mangle)]
pub extern "C" fn jovnetal_group_gap(plan: &[u8], set: u64, slots: u64, out: &mut [u8]) -> u64
    ensures { RewritesAs plan.now (task_set set) slots out.old out.new result }
{
    code(gap::rewrite(plan, Group::Set(set), slots, out))
}

// The combine call: the number of bytes written, or 65,536 and the number of the refusal.
#[unsafe(no_mangle)]
pub extern "C" fn jovnetal_combine(first: &[u8], second: &[u8], out: &mut [u8]) -> u64
    ensures { CombinesAs first.now second.now out.old out.new result }
{
    code(combine::rewrite(first, second, out))
}

// The forth call: the number of bytes written, or 65,536 and the number of the refusal.
#[unsafe(no_mangle)]
pub extern "C" fn jovnetal_forth(plan: &[u8], out: &mut [u8]) -> u64
    ensures { ForthAs plan.now out.old out.new result }
{
    code(convert::forth(plan, out))
}

// The back call: the number of bytes written, or 65,536 and the number of the refusal.
#[unsafe(no_mangle)]
pub extern "C" fn jovnetal_back(plan: &[u8], out: &mut [u8]) -> u64
    ensures { BackAs plan.now out.old out.new result }
{
    code(convert::back(plan, out))
}

// The widen call: the number of bytes written, or 65,536 and the number of the refusal.
#[unsafe(no_mangle)]
pub extern "C" fn jovnetal_widen(certificate: &[u8], out: &mut [u8]) -> u64
    ensures { WidenedAs certificate.now out.old out.new result }
{
    code(widen::widen(certificate, out))
}

// The register block's call: all writes from a fresh block on, each a byte's number and a value. It answers the refusal of the last one, 0
// for none, with the sixteen bytes as they then read; or the plan's fault, with the bytes as they were.
#[unsafe(no_mangle)]
pub extern "C" fn jovnetal_block(plan: &[u8], writes: &[u8], registers: &mut [u8; 16]) -> u64
    ensures { Replays plan.now writes.now registers.old registers.new result }
{
    match controller::replay(plan, writes, registers) {
        Ok(()) => 0,
        Err(r) => r.number(),
    }
}

// The cap call: 0 where the log keeps the cap, 1 where it does not, with the first slot that exceeds it; or 65,536 and the number of the
// refusal. Only 1 changes the slot.
#[unsafe(no_mangle)]
pub extern "C" fn jovnetal_cap(
    plan: &[u8],
    labels: &[u8],
    slots: u64,
    work: u64,
    slot: &mut [u64; 1],
) -> u64
    ensures { ChecksAs plan.now labels.now slots work slot.old slot.new result }
{
    match cap::check(plan, labels, slots, work) {
        Ok(None) => 0,
        Ok(Some(t)) => {
            *slot = [t];
            1
        }
        Err(r) => refusal_code(r),
    }
}
