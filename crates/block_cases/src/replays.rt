// Cases of the call without state: for each the number that it tells, and the sixteen bytes that it leaves.
ghost use Rattle.std.specs.Prelude.{List, ℕ};
ghost use Rattle.controller.specs.View.{Replays};

use host::STDOUT;
use std::fs::File;

// Writes what the call tells and leaves to standard output, and answers the number.
fn write_replay(plan: &[u8], writes: &[u8], out: &mut [u8; controller::BYTES]) -> u64
    ensures { Replays plan.now writes.now out.old out.new result }
{
    let n = controller::number_of(controller::replay(plan, writes, out));
    io::print_decimal(STDOUT, n);
    io::write_all(STDOUT, b"\n");
    io::write_all(STDOUT, out);
    n
}

// Reads a plan, writes and the bytes that are lent, and writes what the call tells and leaves.
pub fn replay_case(file: &mut File) -> u64
    ensures { (plan writes out out' : List ℕ) × Replays plan writes out out' result }
{
    let mut plan = io::large_buffer();
    let mut writes = io::large_buffer();
    let mut out = [0u8; controller::BYTES];
    let p = records::read_next(file, &mut plan);
    let w = records::read_next(file, &mut writes);
    records::read_next(file, &mut out);
    write_replay(&plan[..p], &writes[..w], &mut out)
}
