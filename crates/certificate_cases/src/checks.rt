// Cases of checks: for each the line of the checking program.
ghost use Rattle.std.specs.Prelude.{◌≡◌, List, ℕ, length};
ghost use Rattle.model.specs.Check.{check};
ghost use Rattle.model.specs.Limits.{work_room};
ghost use Rattle.model.specs.Text.{check_text};

use host::STDOUT;
use std::fs::File;

// Writes the line of a certificate checked against a plan, and answers its length.
pub fn write_check(plan: &[u8], certificate: &[u8]) -> usize
    ensures { result ≡ length (check_text (check plan.now certificate.now work_room)) }
{
    let mut work = io::large_buffer();
    let mut line = check_text::line_room();
    let n = check_text::put_check(&mut line, plan, certificate, &mut work);
    io::write_all(STDOUT, &line[..n]);
    n
}

// Reads a plan and a certificate, and writes the line of the check.
pub fn check_case(file: &mut File) -> usize
    ensures { (plan : List ℕ) × (certificate : List ℕ) × (result ≡ length (check_text (check plan certificate work_room))) }
{
    let mut plan = io::large_buffer();
    let mut certificate = io::large_buffer();
    let p = records::read_next(file, &mut plan);
    let c = records::read_next(file, &mut certificate);
    write_check(&plan[..p], &certificate[..c])
}
