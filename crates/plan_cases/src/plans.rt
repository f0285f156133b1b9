// Cases of plans: for each a line, `sound` or that of its refusal.
ghost use Rattle.std.specs.Prelude.{◌≡◌, List, ℕ, ◌≤◌, length};
ghost use Rattle.io.specs.Counts.{IsPrefixLen};
ghost use Rattle.model.specs.Plan.{read_plan};
ghost use Rattle.model.specs.Bytes.{Put};
ghost use Rattle.plan_cases.specs.Lines.{plan_line};

use host::STDOUT;
use std::fs::File;

// Writes the line of a plan, and answers its length.
fn put_line(out: &mut [u8], s: &[u8]) -> usize
    requires { 29 ≤ length out.old }
    ensures put { Put out.old out.new 0 (plan_line (read_plan s.now)) result }
    ensures prefix_len { IsPrefixLen result out.new }
{
    match plan::read(s) {
        Ok(_) => text::put_bytes(out, 0, b"sound\n"),
        Err(f) => text::put_refusal(out, f.number()),
    }
}

// Writes the line of a plan to standard output, and answers its length.
fn write_line(plan: &[u8]) -> usize
    ensures { result ≡ length (plan_line (read_plan plan.now)) }
{
    let mut line = [0u8; 32];
    let n = put_line(&mut line, plan);
    io::write_all(STDOUT, &line[..n]);
    n
}

// Reads a plan and writes its line.
pub fn plan_case(file: &mut File) -> usize
    ensures { (plan : List ℕ) × (result ≡ length (plan_line (read_plan plan))) }
{
    let mut plan = io::large_buffer();
    let p = records::read_next(file, &mut plan);
    write_line(&plan[..p])
}
