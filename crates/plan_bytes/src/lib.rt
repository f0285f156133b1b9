// Plans written into lent bytes.
#![tactic(auto)]

ghost use Rattle.std.specs.Prelude.{◌≡◌, ◌+◌, ◌*◌, ◌≤◌, ◌<◌, [], ◌∷◌, length};
ghost use Rattle.model.specs.Bytes.{overwrite, Put};
ghost use Rattle.model.specs.Limits.{max_tasks};
ghost use Rattle.model.specs.Edition.{task_width, plan_room_in, plan_room};
ghost use Rattle.model.specs.Lists.{flat_map};
ghost use Rattle.model.specs.PlanBytes.{task_bytes, lock_bytes, arc_bytes, plan_bytes_in, plan_bytes};
ghost use Rattle.node.specs.Edition.{edition_of};
ghost use Rattle.plan.specs.View.{task_view, list_of, pair_count, arc_at, arcs_in, plan_of, Legible};
ghost use Rattle.plan_bytes.specs.Sizes.{arc_size};
ghost use Rattle.plan_bytes.specs.Locks.{LocksFit};

use node::{Edition, Node};
use plan::{Plan, Task, TaskList};

// The most bytes of a plan of the long-read edition.
pub const PLAN_ROOM: usize = Node::PLAN_ROOM;

// Writes four bytes, and gives the place after them.
fn write_four(out: &mut [u8], at: usize, bytes: [u8; 4]) -> usize
    requires { at + 4 ≤ length out.old }
    ensures { Put out.old out.new at bytes result }
{
    words::copy(&bytes, 0, out, at, 4);
    at + 4
}

// Writes a task; its value, of one byte or two, is written here alone.
fn write_task(out: &mut [u8], at: usize, t: Task, edition: Edition) -> usize
    requires { Legible edition × (at + task_width (edition_of edition) ≤ length out.old) }
    ensures { Put out.old out.new at (task_bytes (edition_of edition) (task_view t)) result }
{
    let high = (t.value / 256) as u8;
    let low = (t.value % 256) as u8;
    if edition.value_width == 1 {
        return write_four(out, at, [0x01, t.work, t.window, low]);
    }
    let end = write_four(out, at, [0x01, t.work, t.window, high]);
    out[end] = low;
    end + 1
}

// Writes a plan's tasks.
fn write_tasks(out: &mut [u8], tasks: &TaskList, edition: Edition) -> usize
    requires { (task_width (edition_of edition) * tasks.now.count ≤ length out.old) × Legible edition }
    ensures { Put out.old out.new 0 (flat_map (task_bytes (edition_of edition)) (list_of tasks.now)) result × (result ≤ task_width (edition_of edition) * tasks.now.count) }
{
    let mut end = 0;
    for task in tasks.as_slice() {
        end = write_task(out, end, *task, edition);
    }
    end
}

// Writes the lock of the task at i, if it is locked; its number is i + 1.
fn write_lock(out: &mut [u8], at: usize, i: usize, t: Task) -> usize
    requires { (i < max_tasks) × (at + length (lock_bytes (task_view t ∷ []) (i + 1)) ≤ length out.old) }
    ensures { Put out.old out.new at (lock_bytes (task_view t ∷ []) (i + 1)) result }
{
    if !t.locked {
        return at;
    }
    let number = (i + 1) as u8;
    out[at] = 0x09;
    let after = at + 1;
    out[after] = number;
    after + 1
}

// Writes the locks of a plan's tasks.
fn write_locks(out: &mut [u8], at: usize, tasks: &TaskList) -> usize
    requires { at + length (lock_bytes (list_of tasks.now) 1) ≤ length out.old }
    ensures { Put out.old out.new at (lock_bytes (list_of tasks.now) 1) result }
{
    let mut end = at;
    for (i, task) in tasks.as_slice().iter().enumerate() {
        end = write_lock(out, end, i, *task);
    }
    end
}

// Writes the arc of the pair k, if the table has one.
fn write_pair(out: &mut [u8], at: usize, k: usize, entry: u8) -> usize
    requires { (k < pair_count) × (at + arc_size ≤ length out.old) }
    ensures { Put out.old out.new at (flat_map arc_bytes (arc_at k entry)) result }
{
    if entry == 0 {
        return at;
    }
    let from = (k / plan::LABELS) as u8;
    let label = (k % plan::LABELS) as u8;
    write_four(out, at, [0x04, from, label, entry - 1])
}

// Writes the arcs of the table.
fn write_arcs(out: &mut [u8], at: usize, next: &[u8; plan::PAIRS]) -> usize
    requires { at + arc_size * pair_count ≤ length out.old }
    ensures { Put out.old out.new at (flat_map arc_bytes (arcs_in next.now)) result × (result ≤ at + arc_size * pair_count) }
{
    let mut end = at;
    for (k, &entry) in next.iter().enumerate() {
        end = write_pair(out, end, k, entry);
    }
    end
}

// Writes a plan's bytes in an edition, and gives their number.
pub fn write_in(plan: Plan, out: &mut [u8], edition: Edition) -> usize
    requires { Legible edition × LocksFit (edition_of edition) (plan_of plan).tasks × (plan_room_in (edition_of edition) ≤ length out.old) }
    ensures value { result ≡ length (plan_bytes_in (edition_of edition) (plan_of plan)) }
    ensures out_after { out.new ≡ overwrite out.old 0 (plan_bytes_in (edition_of edition) (plan_of plan)) }
{
    let head = write_tasks(out, &plan.tasks, edition);
    let locks = write_locks(out, head, &plan.tasks);
    let arcs = write_four(out, locks, [0x02, plan.policy, 0x03, plan.states]);
    let end = write_arcs(out, arcs, &plan.next);
    let size = end + 1;
    out[end] = 0x05;
    size
}

// Writes a plan's bytes in the long-read edition, and gives their number.
pub fn write(plan: Plan, out: &mut [u8]) -> usize
    requires { plan_room ≤ length out.old }
    ensures value { result ≡ length (plan_bytes (plan_of plan)) }
    ensures out_after { out.new ≡ overwrite out.old 0 (plan_bytes (plan_of plan)) }
{
    write_in(plan, out, Edition::long_reads())
}
