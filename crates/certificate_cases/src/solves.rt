// Cases of certificates that are written: for each two lines. The first is that of the check of the certificate, or of the
// refusal; the second says whether the certificate begins as the case says. A case has a plan and the head of its certificate,
// `11` and every `12`. Where the plan is refused there is no head.
ghost use Rattle.std.specs.Prelude.{List, ℕ};
ghost use Rattle.certificate_cases.specs.Heads.{Compared};

use super::checks;
use host::STDOUT;
use std::fs::File;

// The first byte of every certificate; the line of a refusal begins with another.
const FIRST: u8 = 0x11;

// Writes both lines of a plan and a head, and answers whether the certificate begins with the head.
fn write_solution(plan: &[u8], head: &[u8]) -> bool
    ensures { Compared plan.now head.now result }
{
    let mut certificate = io::large_buffer();
    let mut work = io::large_buffer();
    let n = solve_text::put_certificate(&mut certificate, plan, &mut work);
    if certificate[0] == FIRST {
        checks::write_check(plan, &certificate[..n]);
    } else {
        io::write_all(STDOUT, &certificate[..n]);
    }
    records::write_comparison(&certificate[..n], head)
}

// Reads a plan and a head, and writes both lines.
pub fn solve_case(file: &mut File) -> bool
    ensures { (plan : List ℕ) × (head : List ℕ) × Compared plan head result }
{
    let mut plan = io::large_buffer();
    let mut head = io::large_buffer();
    let p = records::read_next(file, &mut plan);
    let h = records::read_next(file, &mut head);
    write_solution(&plan[..p], &head[..h])
}
