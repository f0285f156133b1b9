// The check of a certificate against a plan: the fraction and what it allows, or the refusal of the first fault.
#![tactic(auto)]

ghost use Rattle.std.specs.Prelude.{◌≡◌, ◌≤◌, length};
ghost use Rattle.model.specs.Edition.{long_reads};
ghost use Rattle.model.specs.Bytes.{Only};
ghost use Rattle.model.specs.Certificate.{read_certificate};
ghost use Rattle.model.specs.Check as model_check;
ghost use Rattle.model.specs.Limits.{work_room};
ghost use Rattle.model.specs.Plan as model;
ghost use Rattle.plan.specs.View.{plan_of};
ghost use Rattle.certificate.specs.View.{certificate_of, IsRead};
ghost use Rattle.policy.specs.View.{tasks_in};
ghost use Rattle.graph.specs.Outcomes.{NotesFree};
ghost use Rattle.graph.specs.View.{Planned};
ghost use Rattle.store.specs.Store.{store_bytes};
ghost use Rattle.discovery.specs.Discovery.{Holds, Held};
ghost use Rattle.checker.specs.Promise.{answer_of, Checks};

use certificate::Parts;
use fraction::Fraction;
use machine::Machine;
use node::Node;
use plan::Plan;
use potentials::Claim;
use refusals::Refusal;

// What is answered of an accepted certificate: the fraction, the number of nodes and the allowance K.
#[derive(Clone, Copy)]
pub struct Share {
    pub fraction: Fraction,
    pub n: usize,
    pub k: u64,
}

// The least work memory.
pub const WORK_ROOM: usize = Node::WORK_ROOM;

// The fraction, the count, the potentials and the cycle, each tried over the whole certificate before the next.
fn verdict(
    machine: &Machine,
    n: usize,
    s: &[u8],
    parts: Parts,
    notes: &mut [u32; graph::NOTE_ROOM],
    m: &[u8],
) -> Result<Share, Refusal>
    requires { Held machine.now.rules machine.now.next m.now n × IsRead long_reads s.now parts }
    ensures result_value { (P : model.Plan) → Planned P machine.now.rules machine.now.next → Holds P (tasks_in machine.now.rules) m.now n → answer_of result ≡ model_check.verdict P (certificate_of long_reads s.now parts) }
    ensures notes_free { NotesFree notes.old notes.new }
{
    if !parts.fraction.is_allowed() {
        return Err(Refusal::BadFraction);
    }
    if parts.count != n {
        return Err(Refusal::BadCount);
    }
    if !allowance::within_limits(s, parts) {
        return Err(Refusal::BadPotential);
    }
    let fraction = parts.fraction;
    if !potentials::edges_hold(Claim { fraction, n }, machine, s, notes, m) {
        return Err(Refusal::BadPotential);
    }
    if !cycle::holds(machine, s, parts, m, n) {
        return Err(Refusal::BadCycle);
    }
    let k = allowance::allowance(s, parts);
    Ok(Share { fraction, n, k })
}

// The certificate's form, then what it says.
fn check_certificate(
    machine: &Machine,
    n: usize,
    s: &[u8],
    notes: &mut [u32; graph::NOTE_ROOM],
    m: &[u8],
) -> Result<Share, Refusal>
    requires { Held machine.now.rules machine.now.next m.now n }
    ensures result_value { (P : model.Plan) → Planned P machine.now.rules machine.now.next → Holds P (tasks_in machine.now.rules) m.now n → answer_of result ≡ model_check.check_read P (read_certificate s.now) }
    ensures notes_free { NotesFree notes.old notes.new }
{
    let parts = certificate::read(s).ok_or(Refusal::BadForm)?;
    verdict(machine, n, s, parts, notes, m)
}

// The nodes of a sound plan, then the certificate.
fn check_plan(plan: Plan, s: &[u8], m: &mut [u8]) -> Result<Share, Refusal>
    requires { model.IsSound (plan_of plan) × (work_room ≤ length m.old) }
    ensures result_value { answer_of result ≡ model_check.check_plan (model.sound (plan_of plan)) s.now }
    ensures only { Only 0 store_bytes m.old m.new }
{
    let machine = Machine::of(plan);
    let mut notes = graph::note_space();
    let n = discovery::discover(&machine, &mut notes, m).ok_or(Refusal::TooManyNodes)?;
    check_certificate(&machine, n, s, &mut notes, m)
}

// The plan, then the certificate against it.
fn check_bytes(plan: &[u8], s: &[u8], m: &mut [u8]) -> Result<Share, Refusal>
    requires { work_room ≤ length m.old }
    ensures result_value { answer_of result ≡ model_check.check_plan (model.read_plan plan.now) s.now }
    ensures only { Only 0 store_bytes m.old m.new }
{
    let read = plan::read(plan)?;
    check_plan(read, s, m)
}

// Checks a certificate against a plan, for all bytes. The work memory is cleared.
pub fn check(plan: &[u8], certificate: &[u8], work: &mut [u8]) -> Result<Share, Refusal>
    ensures { Checks plan.now certificate.now work.old work.new result }
{
    if work.len() < WORK_ROOM {
        return Err(Refusal::ShortMemory);
    }
    let answer = check_bytes(plan, certificate, work);
    work.fill(0);
    answer
}
