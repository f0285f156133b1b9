// The trace call: what a policy does, slot by slot.
#![tactic(auto)]

ghost use Rattle.std.specs.Prelude.{◌≡◌, [], ◌+◌, ◌*◌, ◌≤◌, length};
ghost use Rattle.std.proofs.Math.Option.{none};
ghost use Rattle.model.specs.Bytes.{overwrite};
ghost use Rattle.model.specs.Limits.{trace_room};
ghost use Rattle.model.specs.Plan as model;
ghost use Rattle.model.specs.Schedule.{admits};
ghost use Rattle.model.specs.Trace as model_trace;
ghost use Rattle.model.specs.Trace.{row_size};
ghost use Rattle.plan.specs.View.{arcs_in, plan_of, StatesFit};
ghost use Rattle.policy.specs.View.{tasks_in};
ghost use Rattle.refusals.specs.Told.{Told};
ghost use Rattle.tracer.specs.Promise.{Traces};
ghost use Rattle.tracer.specs.Rows.{row_view};

use machine::Machine;
use node::Node;
use plan::Plan;
use refusals::Refusal;

// The most that a trace takes, and the most labels.
pub const TRACE_ROOM: usize = Node::TRACE_ROOM;

pub const MAX_LABELS: usize = Node::MAX_LABELS;

// Whether a plan with this table admits the labels.
fn admitted(next: &[u8; plan::PAIRS], labels: &[u8]) -> bool
    requires { StatesFit next.now }
    ensures { (P : model.Plan) → P.arcs ≡ arcs_in next.now → result ≡ admits P labels.now }
{
    let mut state = 0;
    for label in labels {
        let Some(to) = plan::next_state(next, state, *label) else {
            return false;
        };
        state = to;
    }
    true
}

// What a trace shows of a slot: the task that ran, the gain, and the task of the job that was displaced; 0 for none.
#[derive(Clone, Copy)]
pub struct Row {
    pub ran: u8,
    pub gain: u16,
    pub cut: u8,
}

// The bytes of a row.
pub const ROW_BYTES: usize = 4;

// Writes a row: the task that ran, the gain in two bytes, the task that was cut.
fn put_row(out: &mut [u8], at: usize, row: Row)
    requires { at + row_size ≤ length out.old }
    ensures { out.new ≡ overwrite out.old at (model_trace.row_bytes (row_view row)) }
{
    out[at] = row.ran;
    words::write_u16(out, at + 1, row.gain);
    out[at + 3] = row.cut;
}

// Writes the row of each label's slot.
fn write_slots(machine: &Machine, labels: &[u8], out: &mut [u8])
    requires { row_size * length labels.now ≤ length out.old }
    ensures { (P : model.Plan) → P.tasks ≡ tasks_in machine.now.rules → P.policy ≡ machine.now.rules.policy → out.new ≡ overwrite out.old 0 (model_trace.trace_bytes (model_trace.slots P none [] labels.now)) }
{
    let mut cells = policy::no_jobs();
    let mut ran = None;
    for (slot, label) in labels.iter().enumerate() {
        let done = policy::slot(&machine.rules, &cells, *label);
        let task = policy::task_number(done.ran);
        let cut = policy::displaced(&cells, ran, done.ran);
        let row = Row {
            ran: task,
            gain: done.gain,
            cut,
        };
        put_row(out, ROW_BYTES * slot, row);
        cells = done.cells;
        ran = done.ran;
    }
}

// The trace of a sound plan.
fn trace_plan(plan: Plan, labels: &[u8], out: &mut [u8]) -> Result<usize, Refusal>
    requires { model.IsSound (plan_of plan) × (trace_room ≤ length out.old) }
    ensures { Told model_trace.trace_bytes (model_trace.trace_run (plan_of plan) labels.now) out.old out.new result }
{
    let n = labels.len();
    if MAX_LABELS < n {
        return Err(Refusal::TooManyLabels);
    }
    if !admitted(&plan.next, labels) {
        return Err(Refusal::NotAdmitted);
    }
    let machine = Machine::of(plan);
    write_slots(&machine, labels, out);
    Ok(ROW_BYTES * n)
}

// The trace of the plan's policy over the labels, for all bytes.
pub fn trace(plan: &[u8], labels: &[u8], out: &mut [u8]) -> Result<usize, Refusal>
    ensures { Traces plan.now labels.now out.old out.new result }
{
    if out.len() < TRACE_ROOM {
        return Err(Refusal::ShortMemory);
    }
    let found = plan::read(plan)?;
    trace_plan(found, labels, out)
}
