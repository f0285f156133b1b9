// Whether a run kept to its cap: the log of its labels, read whole or in parts, and the first slot in which the last slots release too
// much work.
#![tactic(auto)]

ghost use Rattle.std.specs.Prelude.{◌≡◌, true, List, [], ◌++◌, map, ℕ, ◌+◌, ◌-◌, ◌≤◌, length, get_or, drop, MatchResult};
ghost use Rattle.model.specs.Cap.{label_work, cap_in_range};
ghost use Rattle.model.specs.Limits.{max_cap_work};
ghost use Rattle.model.specs.Lists.{up_from};
ghost use Rattle.plan.specs.View.{label_count, list_of};
ghost use Rattle.cap.specs.View.{places, no_labels, CapOf, Room, Scans, Watched, Watching, Refuses, Feeds, Checks};

use node::Node;
use plan::TaskList;
use refusals::Refusal;

// The longest row of slots that a cap is for, and the most work that it allows.
const MAX_SLOTS: u64 = 64;

const MAX_WORK: u64 = 2560;

// How many of the last labels a window has.
const PLACES: usize = MAX_SLOTS as usize;

// A cap on the work of a plan's tasks: the work of each label, how many labels the tasks have, the slots in a row, and the most work in them.
#[derive(Clone, Copy)]
pub struct Cap {
    pub works: [u16; plan::LABELS],
    pub labels: usize,
    pub slots: usize,
    pub most: u32,
}

// After the labels of a log: how many they are, the work of the last slots that the cap is for, and the last labels, with empty ones before
// the first.
#[derive(Clone, Copy)]
pub struct Window {
    pub slots: u64,
    pub sum: u32,
    pub last: [u8; PLACES],
}

// What is told of a log: the first slot that exceeds the cap, or none while it is kept; or why there is no answer.
pub type Answer = Result<Option<u64>, Refusal>;

// The answer for a log so far, and its window, by which the log goes on while the answer is that the cap is kept.
#[derive(Clone, Copy)]
pub struct Watch {
    pub answer: Answer,
    pub window: Window,
}

// A cap, and what is known before the first label.
#[derive(Clone, Copy)]
pub struct Begun {
    pub cap: Cap,
    pub watch: Watch,
}

// The work that a label releases.
fn label_work(tasks: &TaskList, label: u8) -> u16
    ensures { result ≡ label_work (list_of tasks.now) label }
{
    let given = tasks.as_slice();
    let mut work = 0;
    for i in 0..Node::MAX_TASKS {
        work += u16::from(policy::new_work(given, label, i));
    }
    work
}

// The work of each label.
fn label_works(tasks: &TaskList) -> [u16; plan::LABELS]
    ensures { result ≡ map (label_work (list_of tasks.now)) (up_from 0 label_count) }
{
    // By a loop: what `array::from_fn` tells of an entry does not say that its closure still had these tasks.
    let mut works = [0; plan::LABELS];
    for l in 0..plan::LABELS {
        works[l] = label_work(tasks, l as u8);
    }
    works
}

// Whether a cap is of 1 to 64 slots and of at most 2,560 units of work.
fn in_range(slots: u64, work: u64) -> bool
    ensures { result ≡ cap_in_range slots work }
{
    1 <= slots && slots <= MAX_SLOTS && work <= MAX_WORK
}

impl Cap {
    // The cap of so many slots and so much work for a plan's tasks.
    fn of(tasks: &TaskList, slots: u64, work: u64) -> Cap
        requires { cap_in_range slots work ≡ true }
        ensures { CapOf (list_of tasks.now) slots work result }
    {
        let works = label_works(tasks);
        let row = slots as usize;
        let most = work as u32;
        Cap {
            works,
            labels: tasks.labels(),
            slots: row,
            most,
        }
    }

    // Goes through labels, up to the first slot that tells something. Not inlined: the loop then stands alike in every program, whatever is around it.
    #[inline(never)]
    fn scan(&self, window: &Window, labels: &[u8]) -> Watch
        requires { Room self.now window.now (length labels.now) }
        ensures { Scans self.now window.now labels.now result }
    {
        let mut sum = window.sum;
        for (i, &label) in labels.iter().enumerate() {
            let label = usize::from(label);
            if self.labels <= label {
                return Watch {
                    answer: Err(Refusal::NotAdmitted),
                    window: *window,
                };
            }
            let oldest = window.label_back(labels, i, self.slots);
            let next = moved(sum, self.works[label], self.works[oldest]);
            if self.most < next {
                let slot = window.slots + i as u64;
                return Watch {
                    answer: Ok(Some(slot)),
                    window: *window,
                };
            }
            sum = next;
        }
        let slots = window.slots + labels.len() as u64;
        let last = window.pushed(labels);
        Watch {
            answer: Ok(None),
            window: Window { slots, sum, last },
        }
    }
}

impl Window {
    // The window before the first label.
    fn none() -> Window
        ensures { result ≡ no_labels }
    {
        let last = [0u8; PLACES];
        Window {
            slots: 0,
            sum: 0,
            last,
        }
    }

    // The last labels, with more behind them.
    fn pushed(&self, labels: &[u8]) -> [u8; PLACES]
        ensures { result ≡ drop (length labels.now) (self.now.last ++ labels.now) }
    {
        let n = labels.len();
        let mut after = [0u8; PLACES];
        if PLACES <= n {
            after.copy_from_slice(&labels[n - PLACES..]);
            return after;
        }
        after[..PLACES - n].copy_from_slice(&self.last[n..]);
        after[PLACES - n..].copy_from_slice(labels);
        after
    }

    // The label so many slots back from the place i of more labels.
    fn label_back(&self, labels: &[u8], i: usize, back: usize) -> usize
        requires { (1 ≤ back) × (back ≤ places) × (i ≤ length labels.now) }
        ensures { result ≡ get_or (self.now.last ++ labels.now) (i + (places - back)) 0 }
    {
        if i < back {
            return usize::from(self.last[PLACES - back + i]);
        }
        usize::from(labels[i - back])
    }
}

// The sum with the work of a slot, and without that of the oldest one.
fn moved(sum: u32, work: u16, oldest: u16) -> u32
    requires { (oldest ≤ sum) × (sum ≤ max_cap_work) }
    ensures { result + oldest ≡ sum + work }
{
    sum + u32::from(work) - u32::from(oldest)
}

// Begins with a cap for the bytes of a plan, or refuses: the plan's own faults come first, and then a cap that is out of range.
pub fn begin(plan: &[u8], slots: u64, work: u64) -> Result<Begun, Refusal>
    ensures { MatchResult result (λ b. Watched plan.now slots work [] b.cap b.watch) (λ r. Refuses plan.now slots work r) }
{
    let found = plan::read(plan)?;
    if !in_range(slots, work) {
        return Err(Refusal::BadCap);
    }
    let cap = Cap::of(&found.tasks, slots, work);
    let window = Window::none();
    let watch = Watch {
        answer: Ok(None),
        window,
    };
    Ok(Begun { cap, watch })
}

// What is known of a log with more labels behind it; where an answer is told already, it stays.
pub fn feed(cap: Cap, before: Watch, labels: &[u8]) -> Watch
    requires { Watching cap before (length labels.now) }
    ensures { Feeds cap before labels.now result }
{
    match before.answer {
        Ok(None) => cap.scan(&before.window, labels),
        Ok(Some(_)) => before,
        Err(_) => before,
    }
}

// Whether the run of a log kept to a cap of so many slots and so much work, for all bytes and numbers.
pub fn check(plan: &[u8], labels: &[u8], slots: u64, work: u64) -> Answer
    ensures { Checks plan.now labels.now slots work result }
{
    let begun = begin(plan, slots, work)?;
    let watched = feed(begun.cap, begun.watch, labels);
    watched.answer
}
