// A plan with a minimum gap between the releases of a group of tasks: a set, or one task.
#![tactic(auto)]

ghost use Rattle.std.specs.Prelude.{◌≡◌, map, ◌≤◌, length};
ghost use Rattle.model.specs.Limits.{max_gap};
ghost use Rattle.model.specs.Edition.{plan_room};
ghost use Rattle.model.specs.Lists.{up_from};
ghost use Rattle.model.specs.PlanBytes.{plan_bytes};
ghost use Rattle.model.specs.Gap as model_gap;
ghost use Rattle.model.specs.Gap.{one_task, task_set, in_group};
ghost use Rattle.refusals.specs.Told.{Told};
ghost use Rattle.plan.specs.View.{pair_count, entry_of, plan_of};
ghost use Rattle.gap.specs.Automaton.{Fits, leads, pair_entry};
ghost use Rattle.gap.specs.Groups.{group_of, set_of};
ghost use Rattle.gap.specs.Promise.{Rewrites};

use node::Node;
use plan::{Plan, TaskList};
use refusals::Refusal;

// The longest gap has as many slots as an automaton has states.
const MAX_GAP: u64 = Node::MAX_STATES as u64;

const MAX_TASKS: u64 = Node::MAX_TASKS as u64;

// The tasks that share a gap: one by its number, or a set, written as a label is.
#[derive(Clone, Copy)]
pub enum Group {
    Task(u64),
    Set(u64),
}

// A set of a plan's tasks, written as a label is, and the slots from a release of one of them to the next.
#[derive(Clone, Copy)]
struct Gap {
    tasks: TaskList,
    set: u8,
    slots: u8,
}

// How many tasks of a set a label releases.
fn releases(set: u8, label: u8) -> u32
    ensures { result ≡ model_gap.releases (in_group (task_set set)) 8 label }
{
    let both = set & label;
    u32::count_ones(both as u32)
}

// The table's entry of a state for a label with so many releases: the next state and 1, or 0 where the label is not admitted. A state is the
// number of slots for which the set stays closed.
fn next_entry(slots: u8, state: u8, released: u32) -> u8
    requires { 1 ≤ slots }
    ensures { result ≡ entry_of (model_gap.gap_next slots state released) }
{
    if released == 0 {
        if state == 0 {
            return 1;
        }
        return state;
    }
    if 1 < released {
        return 0;
    }
    if state == 0 {
        return slots;
    }
    0
}

// The table's entry of a state and a label, 0 where the automaton lacks one of them.
fn entry(gap: Gap, state: u8, label: u8) -> u8
    requires { Fits gap }
    ensures { result ≡ entry_of (leads gap state label) }
{
    if gap.slots <= state {
        return 0;
    }
    if gap.tasks.labels() <= label as usize {
        return 0;
    }
    next_entry(gap.slots, state, releases(gap.set, label))
}

// The table of next states.
fn table(gap: Gap) -> [u8; plan::PAIRS]
    requires { Fits gap }
    ensures { result ≡ map (pair_entry gap) (up_from 0 pair_count) }
{
    // By a loop: what `array::from_fn` tells of an entry does not say that its closure still had this gap.
    let mut next = plan::empty_table();
    for k in 0..plan::PAIRS {
        next[k] = entry(gap, (k / plan::LABELS) as u8, (k % plan::LABELS) as u8);
    }
    next
}

// The plan with an automaton that keeps the gap in place of its own.
fn with_gap(plan: Plan, set: u8, slots: u8) -> Plan
    requires { (1 ≤ slots) × (slots ≤ max_gap) }
    ensures { plan_of result ≡ model_gap.gap_plan (plan_of plan) (in_group (task_set set)) slots }
{
    let tasks = plan.tasks;
    let next = table(Gap { tasks, set, slots });
    Plan {
        tasks,
        policy: plan.policy,
        states: slots,
        next,
    }
}

// Writes the plan with the gap, or refuses a gap that is none, no task, or a task that the plan lacks.
fn gap_in(plan: Plan, set: u64, slots: u64, out: &mut [u8]) -> Result<usize, Refusal>
    requires { plan_room ≤ length out.old }
    ensures { Told plan_bytes (model_gap.gap_in (plan_of plan) (task_set set) slots) out.old out.new result }
{
    if slots < 1 {
        return Err(Refusal::BadGap);
    }
    if MAX_GAP < slots {
        return Err(Refusal::BadGap);
    }
    if set < 1 {
        return Err(Refusal::BadGap);
    }
    let labels = plan.tasks.labels() as u64;
    if labels <= set {
        return Err(Refusal::BadGap);
    }
    let written = with_gap(plan, set as u8, slots as u8);
    Ok(plan_bytes::write(written, out))
}

// The same for the bytes of a plan: short output is refused first, then the plan's own faults.
fn rewrite_set(plan: &[u8], set: u64, slots: u64, out: &mut [u8]) -> Result<usize, Refusal>
    ensures { Told plan_bytes (model_gap.group_gap plan.now (task_set set) slots (length out.old)) out.old out.new result }
{
    if out.len() < plan_bytes::PLAN_ROOM {
        return Err(Refusal::ShortMemory);
    }
    let plan = plan::read(plan)?;
    gap_in(plan, set, slots, out)
}

// The set of one task; of a number that is no plan's task the empty set.
fn task_set(task: u64) -> u64
    ensures { result ≡ set_of (one_task task) }
{
    if task < 1 {
        return 0;
    }
    if MAX_TASKS < task {
        return 0;
    }
    1 << (task - 1)
}

// The set of a group's tasks.
fn set_of(group: Group) -> u64
    ensures { result ≡ set_of (group_of group) }
{
    match group {
        Group::Task(task) => task_set(task),
        Group::Set(set) => set,
    }
}

// Writes a plan's tasks and policy with an automaton that keeps a gap of so many slots between the releases of a group, for all bytes and
// numbers.
pub fn rewrite(plan: &[u8], group: Group, slots: u64, out: &mut [u8]) -> Result<usize, Refusal>
    ensures { Rewrites plan.now (group_of group) slots out.old out.new result }
{
    rewrite_set(plan, set_of(group), slots, out)
}
