// Cases of a log in parts: labels so many times over, and then others.
ghost use Rattle.std.specs.Prelude.{List, ◌++◌, ℕ, ◌*◌, ◌<◌, ◌^◌, length};
ghost use Rattle.cap.specs.View.{Watching, Feeds, Checks};
ghost use Rattle.cap_cases.specs.Kinds.{repeated};

use cap::{Answer, Cap, Watch};
use std::fs::File;

// What is known after labels so many times over.
fn feed_times(cap: Cap, before: Watch, labels: &[u8], times: u32) -> Watch
    requires { Watching cap before (times * length labels.now) }
    ensures { Feeds cap before (repeated times labels.now) result }
{
    let mut after = before;
    for _made in 0..times {
        after = cap::feed(cap, after, labels);
    }
    after
}

// Whether the run of a log kept to a cap, the log being labels so many times over and then others.
fn check_parts(
    plan: &[u8],
    slots: u64,
    work: u64,
    labels: &[u8],
    times: u32,
    others: &[u8],
) -> Answer
    requires { (length labels.now < 2 ^ 17) × (length others.now < 2 ^ 17) }
    ensures { Checks plan.now (repeated times labels.now ++ others.now) slots work result }
{
    let begun = cap::begin(plan, slots, work)?;
    let middle = feed_times(begun.cap, begun.watch, labels, times);
    let end = cap::feed(begun.cap, middle, others);
    end.answer
}

// Reads a plan, the slots and the work of a cap in eight bytes each, a number of times in four, and two lists of labels, and gives what is
// answered for the first so many times over and the second behind it.
pub fn parts_case(file: &mut File) -> Answer
    ensures { (plan labels : List ℕ) × (slots : ℕ) × (work : ℕ) × Checks plan labels slots work result }
{
    let mut plan = io::large_buffer();
    let mut numbers = [0u8; 20];
    let mut labels = io::large_buffer();
    let mut others = io::large_buffer();
    let p = records::read_next(file, &mut plan);
    records::read_next(file, &mut numbers);
    let n = records::read_next(file, &mut labels);
    let m = records::read_next(file, &mut others);
    let slots = words::read_u64(&numbers, 0);
    let work = words::read_u64(&numbers, 8);
    let times = words::read_u32(&numbers, 16);
    check_parts(&plan[..p], slots, work, &labels[..n], times, &others[..m])
}
