// The solver: the certificate of a plan, or the refusal of the first fault.
#![tactic(auto)]

ghost use Rattle.std.specs.Prelude.{◌+◌, ◌≤◌, length, Ok};
ghost use Rattle.model.specs.Bytes.{Only};
ghost use Rattle.model.specs.Limits.{work_room, certificate_room};
ghost use Rattle.model.specs.Plan as model;
ghost use Rattle.model.specs.Solve.{solve_plan};
ghost use Rattle.plan.specs.View.{plan_of};
ghost use Rattle.policy.specs.View.{tasks_in};
ghost use Rattle.graph.specs.View.{Planned};
ghost use Rattle.discovery.specs.Discovery.{Holds, Held};
ghost use Rattle.links.specs.Links.{links_at, links_size, steps_size, links_end};
ghost use Rattle.solver.specs.Promise.{Writes, Does, Solves};

use machine::Machine;
use node::Node;
use plan::Plan;
use refusals::Refusal;

// So many bytes written, and the number of passes for their fraction, the last included.
#[derive(Clone, Copy, Debug, PartialEq, Eq)]
pub struct Solved {
    pub bytes: usize,
    pub passes: usize,
}

// The least work memory, and the most bytes of a certificate.
pub const WORK_ROOM: usize = Node::WORK_ROOM;

pub const CERTIFICATE_ROOM: usize = Node::CERTIFICATE_ROOM;

// The certificate of a plan whose n nodes are in the store: so many bytes are written, after so many passes.
fn solve_nodes(
    machine: &Machine,
    n: usize,
    notes: &mut [u32; graph::NOTE_ROOM],
    m: &mut [u8],
    out: &mut [u8],
) -> Solved
    requires { Held machine.now.rules machine.now.next m.old n × (links_end ≤ length m.old) × (certificate_room ≤ length out.old) }
    ensures writes { (P : model.Plan) → Planned P machine.now.rules machine.now.next → Holds P (tasks_in machine.now.rules) m.old n → Writes P out.old out.new (Ok result) }
    ensures only { Only links_at (links_size + steps_size) m.old m.new }
{
    let solution = solution::least(machine, n, notes, m);
    let bytes = writer::write(&machine.rules, n, solution, notes, m, out);
    Solved {
        bytes,
        passes: solution.passes,
    }
}

// The nodes of a sound plan, then its certificate.
fn solve_plan(plan: Plan, m: &mut [u8], out: &mut [u8]) -> Result<Solved, Refusal>
    requires { model.IsSound (plan_of plan) × (work_room ≤ length m.old) × (certificate_room ≤ length out.old) }
    ensures does { Does (solve_plan (model.sound (plan_of plan))) out.old out.new result }
    ensures only { Only 0 links_end m.old m.new }
{
    let machine = Machine::of(plan);
    let mut notes = graph::note_space();
    let Some(n) = discovery::discover(&machine, &mut notes, m) else {
        return Err(Refusal::TooManyNodes);
    };
    Ok(solve_nodes(&machine, n, &mut notes, m, out))
}

// The plan, then its certificate.
fn solve_bytes(plan: &[u8], m: &mut [u8], out: &mut [u8]) -> Result<Solved, Refusal>
    requires { (work_room ≤ length m.old) × (certificate_room ≤ length out.old) }
    ensures does { Does (solve_plan (model.read_plan plan.now)) out.old out.new result }
    ensures only { Only 0 links_end m.old m.new }
{
    let read = plan::read(plan)?;
    solve_plan(read, m, out)
}

// Writes the certificate of a plan, for all bytes. The work memory is cleared.
pub fn solve(plan: &[u8], work: &mut [u8], out: &mut [u8]) -> Result<Solved, Refusal>
    ensures { Solves plan.now work.old work.new out.old out.new result }
{
    if work.len() < WORK_ROOM {
        return Err(Refusal::ShortMemory);
    }
    if out.len() < CERTIFICATE_ROOM {
        return Err(Refusal::ShortMemory);
    }
    let answer = solve_bytes(plan, work, out);
    work.fill(0);
    answer
}
