// The certificate of a plan as a program writes it: its bytes, the line of the number of its passes, or that of a refusal.
#![tactic(auto)]

ghost use Rattle.std.specs.Prelude.{◌≡◌, ◌&&◌, ◌≤◌, leb, length};
ghost use Rattle.io.specs.Counts.{IsPrefixLen};
ghost use Rattle.model.specs.Bytes.{work_after};
ghost use Rattle.model.specs.Limits.{work_room, certificate_room};
ghost use Rattle.model.specs.Solve.{solve};
ghost use Rattle.solver.specs.Promise as solver;
ghost use Rattle.solver.specs.Promise.{Solves};
ghost use Rattle.solve_text.specs.Bytes.{in_bytes, in_passes, Puts};

// Writes the certificate of a plan, or the line of its refusal, and answers the number of bytes.
pub fn put_certificate(out: &mut [u8], plan: &[u8], work: &mut [u8]) -> usize
    requires { certificate_room ≤ length out.old }
    ensures puts { Puts in_bytes (solve plan.now (length work.old) (length out.old)) out.old out.new result }
    ensures prefix_len { IsPrefixLen result out.new }
    ensures work_after { work.new ≡ work_after (leb work_room (length work.old) && leb certificate_room (length out.old)) work.old }
{
    match solver::solve(plan, work, out) {
        Err(refusal) => text::put_refusal(out, refusal.number()),
        Ok(solved) => solved.bytes,
    }
}

// Writes the line of the number of passes that the solve call tells with this memory lent, or of its refusal, and answers the number of bytes.
pub fn put_passes_in(line: &mut [u8], plan: &[u8], work: &mut [u8], out: &mut [u8]) -> usize
    requires { 29 ≤ length line.old }
    ensures puts { Puts in_passes (solve plan.now (length work.old) (length out.old)) line.old line.new result }
    ensures prefix_len { IsPrefixLen result line.new }
    ensures solves { (a : solver.Answer) × Solves plan.now work.old work.new out.old out.new a }
{
    match solver::solve(plan, work, out) {
        Err(refusal) => text::put_refusal(line, refusal.number()),
        Ok(solved) => text::put_number_line(line, 0, solved.passes as u64),
    }
}

// Writes the line of the number of passes for a plan's fraction, or of its refusal, and answers the number of bytes.
pub fn put_passes(line: &mut [u8], plan: &[u8]) -> usize
    requires { 29 ≤ length line.old }
    ensures puts { Puts in_passes (solve plan.now work_room certificate_room) line.old line.new result }
    ensures prefix_len { IsPrefixLen result line.new }
{
    let mut certificate = io::large_buffer();
    let mut work = io::large_buffer();
    put_passes_in(line, plan, &mut work, &mut certificate)
}
