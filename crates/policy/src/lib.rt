// One slot of a policy. A node's jobs are cells, oldest first, one to a task in each age: the cell of age a and
// task i is at (MAX_WINDOW - 1 - a) * MAX_TASKS + i - 1 and holds the work remaining, 0 for no job.
#![tactic(auto)]

ghost use Rattle.std.specs.Prelude.{◌≡◌, cond, [], ◌++◌, ◌<◌, eqb, ltb, get_or, map, replicate, IfSome};
ghost use Rattle.model.specs.Limits.{max_tasks};
ghost use Rattle.model.specs.Plan.{IsSound};
ghost use Rattle.plan.specs.View.{task_view, list_of, plan_of};
ghost use Rattle.policy.specs.View.{Tasks, StandsFor, cell_count, cell_number, slot_cells, task_at, left_in, left_table, hold_in, hold_table, Cells, Leaves, new_work, joined_cells, key_number, key_in, code_in, first_cell, held_cells, has_job, runnable_cells, worked_in, aged, tasks_in, Ruled, RulesOf, SlottedBelow, task_number, displaced_task};

use node::Node;
use plan::{Plan, Task, TaskList};

const MAX_TASKS: usize = Node::MAX_TASKS;

const MAX_WINDOW: usize = Node::MAX_WINDOW;

// Cells between slots, where no job has age 0, and during a slot, where the new jobs are the last.
pub const CELLS: usize = Node::CELLS;

pub const SLOT_CELLS: usize = MAX_TASKS * MAX_WINDOW;

// The cells of a row, which are of one age. What is cast to u8 here is a place, a task or a number of slots, all below 64; TryFrom would leave
// a refusal that never comes.
const ROW: u8 = MAX_TASKS as u8;

// The parts of a key are below these: a task, slots left or work, a cell.
const TASK_BASE: u32 = MAX_TASKS as u32 + 1;

const WINDOW_BASE: u32 = MAX_WINDOW as u32 + 1;

const PLACES: u32 = 64;

// The code of no job, above that of any job: a number, since the least code is then found without a branch.
const NO_CODE: u32 = 4294967295;

// The policies: earliest deadline first, shortest remaining time, first in first out, static priority.
#[derive(Clone, Copy, Debug, PartialEq, Eq)]
enum Policy {
    Edf,
    Srt,
    Fifo,
    Sp,
}

impl From<u8> for Policy {
    // The policy with a number: any but the first three is static priority.
    fn from(number: u8) -> Policy
        ensures { StandsFor number result }
    {
        match number {
            Node::EDF => Policy::Edf,
            Node::SRT => Policy::Srt,
            Node::FIFO => Policy::Fifo,
            _ => Policy::Sp,
        }
    }
}

// The tasks of a plan, and its policy as a number, since `slot` goes by any; and for a job in each cell the slots left, and the work below which its lock holds it, 0 without one.
#[derive(Clone, Copy)]
pub struct Rules {
    pub tasks: TaskList,
    pub policy: u8,
    pub left: [u8; SLOT_CELLS],
    pub hold: [u8; SLOT_CELLS],
}

// What a slot leaves: the cells, the cell in which a job ran during the slot, if one did, and the gain.
#[derive(Clone, Copy)]
pub struct Done {
    pub cells: [u8; CELLS],
    pub ran: Option<u8>,
    pub gain: u16,
}

// The task of a cell; one with no work and no window where it is not there.
fn task_in(tasks: &TaskList, k: usize) -> Task
    ensures { task_view result ≡ task_at (list_of tasks.now) k }
{
    tasks.get(k % MAX_TASKS)
}

// The slots left of a job in a cell.
fn left_in(tasks: &TaskList, k: usize) -> u8
    requires { k < slot_cells }
    ensures { result ≡ left_in (list_of tasks.now) k }
{
    let age = (MAX_WINDOW - (k / MAX_TASKS + 1)) as u8;
    task_in(tasks, k).window.saturating_sub(age)
}

// The slots left of a job in each cell.
fn left_table(tasks: &TaskList) -> [u8; SLOT_CELLS]
    ensures { result ≡ left_table (list_of tasks.now) }
{
    let mut left = [0u8; SLOT_CELLS];
    for k in 0..SLOT_CELLS {
        left[k] = left_in(tasks, k);
    }
    left
}

// The work below which a job in a cell is held: all of a locked task's, and none of another's.
fn hold_in(tasks: &TaskList, k: usize) -> u8
    ensures { result ≡ hold_in (list_of tasks.now) k }
{
    let task = task_in(tasks, k);
    if task.locked { task.work } else { 0 }
}

// The same for each cell.
fn hold_table(tasks: &TaskList) -> [u8; SLOT_CELLS]
    ensures { result ≡ hold_table (list_of tasks.now) }
{
    let mut hold = [0u8; SLOT_CELLS];
    for k in 0..SLOT_CELLS {
        hold[k] = hold_in(tasks, k);
    }
    hold
}

// The rules of a plan.
pub fn rules_of(plan: Plan) -> Rules
    requires { IsSound (plan_of plan) }
    ensures { RulesOf plan result }
{
    let tasks = plan.tasks;
    let left = left_table(&tasks);
    let hold = hold_table(&tasks);
    Rules {
        tasks,
        policy: plan.policy,
        left,
        hold,
    }
}

// The cells of no jobs.
pub fn no_jobs() -> [u8; CELLS]
    ensures { (ts : Tasks) → Leaves ts [] cell_count result }
{
    [0; CELLS]
}

// The work of a new job of the task at i, 0 where the label has none.
pub fn new_work(tasks: &[Task], label: u8, i: usize) -> u8
    requires { i < max_tasks }
    ensures { result ≡ new_work (map task_view tasks.now) label i }
{
    if (label >> i) % 2 == 0 {
        return 0;
    }
    if i < tasks.len() { tasks[i].work } else { 0 }
}

// The cells with room for new jobs.
fn widen(cells: &[u8; CELLS]) -> [u8; SLOT_CELLS]
    ensures { result ≡ cells.now ++ replicate max_tasks 0 }
{
    let mut wide = [0u8; SLOT_CELLS];
    wide[..CELLS].copy_from_slice(cells);
    wide
}

// 1. The label's new jobs join.
fn join(tasks: &TaskList, cells: &[u8; CELLS], label: u8) -> [u8; SLOT_CELLS]
    ensures { result ≡ joined_cells (list_of tasks.now) cells.now label }
{
    let given = tasks.as_slice();
    let mut joined = widen(cells);
    for i in 0..MAX_TASKS {
        joined[CELLS + i] = new_work(given, label, i);
    }
    joined
}

// The parts of a key as one number.
fn key(high: u8, task: u8, low: u8) -> u32
    ensures { result ≡ key_number high task low }
{
    (u32::from(high) * TASK_BASE + u32::from(task)) * WINDOW_BASE + u32::from(low)
}

// The key of a job by the policy: EDF, SRT, FIFO, else SP.
fn key_of(policy: u8, k: usize, work: u8, left: u8) -> u32
    requires { k < slot_cells }
    ensures { result ≡ key_in policy k work left }
{
    let task = (k % MAX_TASKS + 1) as u8;
    let age = (MAX_WINDOW - (k / MAX_TASKS + 1)) as u8;
    let released = MAX_WINDOW as u8 - age;
    match Policy::from(policy) {
        Policy::Edf => key(left, task, 0),
        Policy::Srt => key(work, task, left),
        Policy::Fifo => key(released, task, 0),
        Policy::Sp => key(0, task, left),
    }
}

// A job's key with its cell.
fn code_of(policy: u8, k: usize, work: u8, left: u8) -> u32
    requires { k < slot_cells }
    ensures { result ≡ code_in policy k work left }
{
    if work == 0 {
        return NO_CODE;
    }
    key_of(policy, k, work, left) * PLACES + k as u32
}

// 3. The cell of the first job by the policy's key, if there is a job.
fn choose(policy: u8, cells: &[u8; SLOT_CELLS], left: &[u8; SLOT_CELLS]) -> Option<u8>
    ensures cell { cell_number result ≡ first_cell policy cells.now left.now }
    ensures below { IfSome result (λ k. k < slot_cells) }
{
    let mut best = NO_CODE;
    for k in 0..SLOT_CELLS {
        best = best.min(code_of(policy, k, cells[k], left[k]));
    }
    if best == NO_CODE {
        return None;
    }
    Some((best % PLACES) as u8)
}

// The work of a job that is held, 0 of one that is not.
fn if_held(work: u8, hold: u8) -> u8
    ensures { result ≡ cond (ltb work hold) work 0 }
{
    if work < hold { work } else { 0 }
}

// The cells with the jobs that are held.
fn held_cells(cells: &[u8; SLOT_CELLS], hold: &[u8; SLOT_CELLS]) -> [u8; SLOT_CELLS]
    ensures { result ≡ held_cells cells.now hold.now }
{
    let mut held = [0u8; SLOT_CELLS];
    for k in 0..SLOT_CELLS {
        held[k] = if_held(cells[k], hold[k]);
    }
    held
}

// Whether a cell has a job: the most work is not 0. No branch waits for a cell.
fn has_job(cells: &[u8; SLOT_CELLS]) -> bool
    ensures { result ≡ has_job cells.now }
{
    let mut most = 0u8;
    for work in cells {
        most = most.max(*work);
    }
    0 < most
}

// The cells of the jobs of which the first by the policy's key runs: those that are held, if any is, or else all.
fn runnable(cells: &[u8; SLOT_CELLS], hold: &[u8; SLOT_CELLS]) -> [u8; SLOT_CELLS]
    ensures { result ≡ runnable_cells cells.now hold.now }
{
    let held = held_cells(cells, hold);
    if has_job(&held) { held } else { *cells }
}

// The job in a cell runs: its work falls by 1.
fn run(cells: [u8; SLOT_CELLS], at: usize) -> [u8; SLOT_CELLS]
    requires { (at < slot_cells) × (0 < get_or cells at 0) }
    ensures { result ≡ worked_in cells at }
{
    let mut after = cells;
    after[at] -= 1;
    after
}

// The work of a job that has a slot left after this one, 0 of one that has not.
fn if_staying(work: u8, left: u8) -> u8
    ensures { result ≡ cond (ltb 1 left) work 0 }
{
    if 1 < left { work } else { 0 }
}

// 4. Slots left falls by 1, and at 0 the job goes.
fn age(cells: &[u8; SLOT_CELLS], left: &[u8; SLOT_CELLS]) -> [u8; CELLS]
    ensures { result ≡ aged cells.now left.now }
{
    let mut older = [0u8; CELLS];
    for k in 0..CELLS {
        older[k] = if_staying(cells[MAX_TASKS + k], left[MAX_TASKS + k]);
    }
    older
}

// The gain where a job with so much work remaining runs.
fn gain_in(tasks: &TaskList, k: usize, work: u8) -> u16
    ensures { result ≡ cond (eqb work 1) (task_at (list_of tasks.now) k).value 0 }
{
    let task = task_in(tasks, k);
    let last = 1;
    if work == last { task.value } else { 0 }
}

// One slot with a label, from the cells that the slot before left: steps 1, 3 and 4.
pub fn slot(rules: &Rules, cells: &[u8; CELLS], label: u8) -> Done
    requires { Ruled rules.now × Cells (tasks_in rules.now) cell_count cells.now }
    ensures { SlottedBelow rules.now cells.now label result }
{
    let ready = join(&rules.tasks, cells, label);
    let pool = runnable(&ready, &rules.hold);
    // A copy, since behind the reference an entry is read only where there is a job, by a branch for each cell.
    let left = rules.left;
    let Some(at) = choose(rules.policy, &pool, &left) else {
        return Done {
            cells: age(&ready, &left),
            ran: None,
            gain: 0,
        };
    };
    let k = usize::from(at);
    let gain = gain_in(&rules.tasks, k, ready[k]);
    let after = run(ready, k);
    Done {
        cells: age(&after, &left),
        ran: Some(at),
        gain,
    }
}

// The number of the task whose job ran in a cell, 0 for none.
pub fn task_number(ran: Option<u8>) -> u8
    ensures { result ≡ task_number (cell_number ran) }
{
    match ran {
        Some(k) if k < SLOT_CELLS as u8 => k % ROW + 1,
        _ => 0,
    }
}

// The task of the job that a slot displaces, 0 for none, by the cells that it finds. A job that ran in the slot before, in the cell ran, is a
// row further up now, if it is still there; in the cell at one runs now.
pub fn displaced(cells: &[u8; CELLS], ran: Option<u8>, at: Option<u8>) -> u8
    ensures { result ≡ displaced_task cells.now (cell_number ran) (cell_number at) }
{
    let Some(before) = ran else {
        return 0;
    };
    if before < ROW || SLOT_CELLS as u8 <= before {
        return 0;
    }
    let up = before - ROW;
    if cells[usize::from(up)] == 0 || at == Some(up) {
        return 0;
    }
    task_number(Some(up))
}
