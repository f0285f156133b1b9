// Cases of the cap call.
ghost use Rattle.std.specs.Prelude.{List, ℕ};
ghost use Rattle.cap.specs.View.{Checks};

use cap::Answer;
use std::fs::File;

// Whether the run of a log kept to a cap.
fn check_log(plan: &[u8], labels: &[u8], slots: u64, work: u64) -> Answer
    ensures { Checks plan.now labels.now slots work result }
{
    cap::check(plan, labels, slots, work)
}

// Reads a plan, the slots and the work of a cap in eight bytes each, and a log, and gives what the call answers.
pub fn call_case(file: &mut File) -> Answer
    ensures { (plan labels : List ℕ) × (slots : ℕ) × (work : ℕ) × Checks plan labels slots work result }
{
    let mut plan = io::large_buffer();
    let mut numbers = [0u8; 16];
    let mut labels = io::large_buffer();
    let p = records::read_next(file, &mut plan);
    records::read_next(file, &mut numbers);
    let n = records::read_next(file, &mut labels);
    let slots = words::read_u64(&numbers, 0);
    let work = words::read_u64(&numbers, 8);
    check_log(&plan[..p], &labels[..n], slots, work)
}
