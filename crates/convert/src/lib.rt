// Plans written in another edition: forth, from the first edition to the long-read one, and back.
#![tactic(auto)]

ghost use Rattle.std.specs.Prelude.{◌≡◌, ◌≤◌, length};
ghost use Rattle.model.specs.Edition.{first_edition, plan_room_in};
ghost use Rattle.model.specs.Lists.{all};
ghost use Rattle.model.specs.PlanBytes.{plan_bytes_in};
ghost use Rattle.model.specs.Convert as model_convert;
ghost use Rattle.node.specs.Edition.{edition_of};
ghost use Rattle.plan.specs.View.{task_view, plan_of};
ghost use Rattle.refusals.specs.Told.{Told};
ghost use Rattle.convert.specs.Promise.{SendsForth, SendsBack};

use node::{Edition, Node};
use plan::{Plan, Task};
use refusals::Refusal;

// Whether an edition can say a task.
fn says(edition: Edition, task: Task) -> bool
    ensures { result ≡ model_convert.says (edition_of edition) (task_view task) }
{
    task.window <= edition.window && task.value <= edition.value && (!task.locked || edition.locks)
}

// Whether an edition can say all tasks of a plan.
fn says_all(edition: Edition, plan: &Plan) -> bool
    ensures { result ≡ all (model_convert.says (edition_of edition)) (plan_of plan.now).tasks }
{
    for task in plan.tasks.as_slice() {
        if !says(edition, *task) {
            return false;
        }
    }
    true
}

// Writes a plan in the first edition, or refuses what that can't say.
fn back_in(plan: Plan, out: &mut [u8]) -> Result<usize, Refusal>
    requires { plan_room_in first_edition ≤ length out.old }
    ensures { Told (plan_bytes_in first_edition) (model_convert.back_of (plan_of plan)) out.old out.new result }
{
    let first = Edition::first();
    if !says_all(first, &plan) {
        return Err(Refusal::NotInFirst);
    }
    Ok(plan_bytes::write_in(plan, out, first))
}

// Writes a plan of the first edition in the long-read edition, for all bytes.
pub fn forth(plan: &[u8], out: &mut [u8]) -> Result<usize, Refusal>
    ensures { SendsForth plan.now out.old out.new result }
{
    if out.len() < Node::PLAN_ROOM {
        return Err(Refusal::ShortMemory);
    }
    let plan = plan::read_in(Edition::first(), plan)?;
    Ok(plan_bytes::write(plan, out))
}

// Writes a plan of the long-read edition in the first, for all bytes.
pub fn back(plan: &[u8], out: &mut [u8]) -> Result<usize, Refusal>
    ensures { SendsBack plan.now out.old out.new result }
{
    if out.len() < Node::FIRST_PLAN_ROOM {
        return Err(Refusal::ShortMemory);
    }
    let plan = plan::read(plan)?;
    back_in(plan, out)
}
