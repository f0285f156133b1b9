// A plan, and its tasks.
ghost use Rattle.std.specs.Prelude.{◌≡◌, ℕ, ◌≤◌, length, get_or};
ghost use Rattle.model.specs.Limits.{max_tasks};
ghost use Rattle.plan.specs.Tasks.{empty_task};

use super::PAIRS;
use node::Node;

const MAX_TASKS: usize = Node::MAX_TASKS;

#[derive(Clone, Copy, PartialEq, Eq)]
pub struct Task {
    pub work: u8,
    pub window: u8,
    pub value: u16,
    pub locked: bool,
}

impl Task {
    // What stands past the tasks given.
    pub const NONE: Task = Task {
        work: 0,
        window: 0,
        value: 0,
        locked: false,
    };
}

// The first `count` tasks are given.
#[derive(Clone, Copy)]
pub struct TaskList {
    pub list: [Task; MAX_TASKS],
    pub count: usize,
    pub ghost room: { length list ≡ max_tasks },
    pub ghost fits: { count ≤ max_tasks },
}

impl TaskList {
    ghost use Rattle.std.specs.Prelude.{◌≡◌, ◌<◌, ◌^◌, ◌++◌, ◌∷◌, [], get_or, map};
    ghost use Rattle.model.specs.Limits.{max_tasks};
    ghost use Rattle.model.specs.Plan.{lock_at};
    ghost use Rattle.model.specs.Slot.{no_task};
    ghost use Rattle.plan.specs.Tasks.{task_view};
    ghost use Rattle.plan.specs.View.{list_of, Bare};

    // No task.
    pub fn none() -> TaskList
        ensures list { list_of result ≡ [] }
        ensures bare { Bare result }
    {
        TaskList {
            list: [Task::NONE; MAX_TASKS],
            count: 0,
        }
    }

    // One task more.
    pub fn with(self, task: Task) -> TaskList
        requires { self.count < max_tasks }
        ensures list { list_of result ≡ list_of self ++ task_view task ∷ [] }
        ensures bare { Bare self → Bare result }
    {
        let mut tasks = self;
        tasks.list[self.count] = task;
        tasks.count += 1;
        tasks
    }

    // The task at i, from 0, is locked.
    pub fn locked(self, i: usize) -> TaskList
        requires { i < self.count }
        ensures list { list_of result ≡ lock_at (list_of self) i }
        ensures bare { Bare self → Bare result }
    {
        let mut tasks = self;
        tasks.list[i].locked = true;
        tasks
    }

    // The task at i, from 0; one with no work and no window where it is not there.
    pub fn get(&self, i: usize) -> Task
        ensures { task_view result ≡ get_or (list_of self.now) i no_task }
    {
        if i < self.count {
            self.list[i]
        } else {
            Task::NONE
        }
    }

    // The tasks given.
    pub fn as_slice(&self) -> &[Task]
        ensures { map task_view result.now ≡ list_of self.now }
    {
        &self.list[..self.count]
    }

    // How many labels they have.
    pub fn labels(&self) -> usize
        ensures { result ≡ 2 ^ self.now.count }
    {
        1 << self.count
    }
}

// A sound plan: the tasks, the policy, the number of states, and for the state S and the label L, at 16 S + L, the next state and 1, or 0 where
// the label is not admitted. Nothing stands past the tasks. The policy is a number, since `plan_bytes::write_in` writes a plan with any.
#[derive(Clone, Copy)]
pub struct Plan {
    pub tasks: TaskList,
    pub policy: u8,
    pub states: u8,
    pub next: [u8; PAIRS],
    pub ghost spare: { (k : ℕ) → tasks.count ≤ k → get_or tasks.list k empty_task ≡ empty_task },
}
