// Cases of gaps, for one task and for a set: for each what the call tells and leaves.
ghost use Rattle.std.specs.Prelude.{◌≡◌, cond, List, ℕ, length};
ghost use Rattle.model.specs.Calls.{result_of, output_after};
ghost use Rattle.model.specs.Gap.{one_task, task_set, group_gap};
ghost use Rattle.model.specs.PlanBytes.{plan_bytes};
ghost use Rattle.answer_text.specs.Finish.{result_line};
ghost use Rattle.gap.specs.Groups.{group_of};

use gap::Group;
use std::fs::File;

// The group that a number names: a set, or a task. The contracts go by the flag, which the case's kind gives.
fn named(number: u64, set: bool) -> Group
    ensures { group_of result ≡ cond set (task_set number) (one_task number) }
{
    if set {
        return Group::Set(number);
    }
    Group::Task(number)
}

// Writes what the gap call tells and leaves to standard output, and answers the length of the line.
fn write_gap(plan: &[u8], number: u64, set: bool, slots: u64, out: &mut [u8]) -> usize
    ensures value { result ≡ length (result_line (result_of plan_bytes (group_gap plan.now (cond set (task_set number) (one_task number)) slots (length out.old)))) }
    ensures out_after { out.new ≡ output_after plan_bytes (group_gap plan.now (cond set (task_set number) (one_task number)) slots (length out.old)) out.old }
{
    let answer = gap::rewrite(plan, named(number, set), slots, out);
    records::write_result(answer, out)
}

// Reads a plan, a task or a set and a gap of eight bytes each, and an output, and writes what the call tells and leaves.
pub fn gap_case(file: &mut File, set: bool) -> usize
    ensures { (plan : List ℕ) × (number : ℕ) × (slots : ℕ) × (room : ℕ) × (result ≡ length (result_line (result_of plan_bytes (group_gap plan (cond set (task_set number) (one_task number)) slots room)))) }
{
    let mut plan = io::large_buffer();
    let mut numbers = [0u8; 16];
    let mut out = io::buffer();
    let p = records::read_next(file, &mut plan);
    records::read_next(file, &mut numbers);
    let n = records::read_next(file, &mut out);
    let number = words::read_u64(&numbers, 0);
    let slots = words::read_u64(&numbers, 8);
    write_gap(&plan[..p], number, set, slots, &mut out[..n])
}
