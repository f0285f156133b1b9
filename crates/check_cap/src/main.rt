// Writes whether the run of labels.bin kept to a cap for the plan of plan.bin, at most WORK units of work in any SLOTS slots in a row: the number
// of the first slot that exceeds it, `kept`, or `refused n`. The arguments are SLOTS and WORK; with others a line on standard error says so, and
// nothing is written. A file that cannot be opened reads as empty. What plan.bin holds past this buffer changes no answer (theory:
// long-plan). labels.bin may have any size: it is read in parts, which changes no answer (cap: feeds_parts), up to the one that tells it.
#![tactic(auto)]

ghost use Rattle.std.specs.Prelude.{◌≡◌, List, ℕ, ◌*◌, ◌≤◌, length};
ghost use Rattle.cap.specs.View.{Watching, Feeds, Checks};
ghost use Rattle.check_cap.specs.Commands.{goes_on, part_bytes, most_parts, command_is, Runs};

use cap::{Answer, Cap, Watch};
use host::STDERR;
use std::env::Env;
use std::fs::File;
use std::rt::Files;

// How many labels are read at a time.
const PART: usize = 65536;

// A proved loop has to end, and nothing says that a file does: no run uses up so many parts.
const MOST_PARTS: u64 = 281474976710655;

// What is known after a part of the log, and how many labels the part had.
#[derive(Clone, Copy)]
struct PartFed {
    watch: Watch,
    count: usize,
}

// Reads the next part of the log.
fn feed_part(log: &mut Option<File>, cap: Cap, before: Watch) -> PartFed
    requires { Watching cap before part_bytes }
    ensures { (labels : List ℕ) × (result.count ≡ length labels) × (length labels ≤ part_bytes) × Feeds cap before labels result.watch }
{
    let mut labels = io::large_buffer();
    let count = host::read_part(log, &mut labels);
    let watch = cap::feed(cap, before, &labels[..count]);
    PartFed { watch, count }
}

// Whether the log is read on: the part was full, and no answer is told yet, which no label behind would change.
fn goes_on(after: Watch, count: usize) -> bool
    ensures { result ≡ goes_on after.answer count }
{
    count == PART && matches!(after.answer, Ok(None))
}

// Reads the log to its end, or up to the part that tells the answer.
fn feed_parts(log: &mut Option<File>, cap: Cap, before: Watch) -> Watch
    requires { Watching cap before (most_parts * part_bytes) }
    ensures { (labels : List ℕ) × Feeds cap before labels result }
{
    let mut after = before;
    for _part in 0..MOST_PARTS {
        let fed = feed_part(log, cap, after);
        after = fed.watch;
        if !goes_on(after, fed.count) {
            return after;
        }
    }
    after
}

// Whether the run kept to a cap of so many slots and so much work.
fn check<R: Files<File = File>>(rt: &R, slots: u64, work: u64) -> Answer
    ensures { (plan labels : List ℕ) × Checks plan labels slots work result }
{
    let mut plan = io::large_buffer();
    let length = host::read_file(rt, "plan.bin", &mut plan);
    let begun = cap::begin(&plan[..length], slots, work)?;
    let mut labels = File::open(rt, "labels.bin").ok();
    let watch = feed_parts(&mut labels, begun.cap, begun.watch);
    watch.answer
}

// The slots and the work of the cap that the arguments ask for.
fn asked<E: Env>(rt: &E) -> Option<(u64, u64)>
    ensures { (arguments : List (List ℕ)) × (result ≡ command_is arguments) }
{
    if host::argument_count(rt, 4) != 3 {
        return None;
    }
    arguments::number_at(rt, 1).zip(arguments::number_at(rt, 2))
}

// Tells how the program is called, and that nothing was written to standard output.
fn usage() -> usize
    ensures { result ≡ 0 }
{
    io::write_all(STDERR, b"usage: check_cap SLOTS WORK (numbers)\n");
    0
}

// Checks the cap asked for, and answers the number of bytes written.
fn run<R: Files<File = File>>(rt: &R, asked: Option<(u64, u64)>) -> usize
    ensures { Runs asked result }
{
    match asked {
        Some((slots, work)) => cap_text::print(check(rt, slots, work)),
        None => usage(),
    }
}

fn main(rt: HostRuntime) {
    run(&rt, asked(&rt));
}
