// Cases of the solve call: for each the line of the number of passes, or of the refusal, and whether the output begins as the case says. A
// case has a plan, the head of its certificate, none where the call refuses, and the bytes of work memory and of output that are lent.
ghost use Rattle.std.specs.Prelude.{List, ℕ};
ghost use Rattle.certificate_cases.specs.Heads.{Called};

use host::STDOUT;
use std::fs::File;

// Writes what the solve call tells and whether its output begins with the head, and answers the latter.
fn write_call(plan: &[u8], head: &[u8], work: &mut [u8], out: &mut [u8]) -> bool
    ensures { Called plan.now head.now work.old work.new out.old out.new result }
{
    let mut line = [0u8; 32];
    let n = solve_text::put_passes_in(&mut line, plan, work, out);
    io::write_all(STDOUT, &line[..n]);
    records::write_comparison(out, head)
}

// Reads a plan, a head and two numbers of eight bytes, and writes both lines.
pub fn call_case(file: &mut File) -> bool
    ensures { (plan head work work' out out' : List ℕ) × Called plan head work work' out out' result }
{
    let mut plan = io::large_buffer();
    let mut head = io::large_buffer();
    let mut numbers = [0u8; 16];
    let mut work = records::memory();
    let mut out = records::memory();
    let p = records::read_next(file, &mut plan);
    let h = records::read_next(file, &mut head);
    records::read_next(file, &mut numbers);
    let w = records::lent(words::read_u64(&numbers, 0), &work);
    let r = records::lent(words::read_u64(&numbers, 8), &out);
    write_call(&plan[..p], &head[..h], &mut work[..w], &mut out[..r])
}
