// Cases of passes: for each the line of their number, or of the refusal.
ghost use Rattle.std.specs.Prelude.{List, ℕ};
ghost use Rattle.certificate_cases.specs.Heads.{PassesLine};

use host::STDOUT;
use std::fs::File;

// Writes the line of the number of passes for a plan's fraction, and answers its length.
fn write_passes(plan: &[u8]) -> usize
    ensures { PassesLine plan.now result }
{
    let mut line = [0u8; 32];
    let n = solve_text::put_passes(&mut line, plan);
    io::write_all(STDOUT, &line[..n]);
    n
}

// Reads a plan, and writes the line of its number of passes.
pub fn passes_case(file: &mut File) -> usize
    ensures { (plan : List ℕ) × PassesLine plan result }
{
    let mut plan = io::large_buffer();
    let p = records::read_next(file, &mut plan);
    write_passes(&plan[..p])
}
