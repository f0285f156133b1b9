// The answer of a call that writes bytes, as a program writes it: those bytes, or the line of the refusal; and the line of what the call tells.
#![tactic(auto)]

ghost use Rattle.std.specs.Prelude.{◌≡◌, ◌≤◌, length};
ghost use Rattle.io.specs.Counts.{IsPrefixLen};
ghost use Rattle.model.specs.Bytes.{Put};
ghost use Rattle.refusals.specs.Told.{result_by};
ghost use Rattle.answer_text.specs.Finish.{Finishes, Printable, refusal_room, result_line};

use host::STDOUT;
use refusals::Refusal;

// Writes the line of a refusal in front, where a call has written nothing, and answers the number of bytes that stand there.
fn finish(answer: Result<usize, Refusal>, out: &mut [u8]) -> usize
    requires { refusal_room ≤ length out.old }
    ensures { Finishes answer out.old out.new result }
{
    match answer {
        Err(r) => text::put_refusal(out, r.number()),
        Ok(n) => n,
    }
}

// Writes the answer to standard output, and answers the number of bytes.
pub fn print(answer: Result<usize, Refusal>, out: &mut [u8]) -> usize
    requires { Printable answer out.old }
    ensures { Finishes answer out.old out.new result }
{
    let n = finish(answer, out);
    io::write_all(STDOUT, &out[..n]);
    n
}

// Writes the line of what a call tells, the number of bytes that it wrote or its refusal, and gives the line's length.
fn put_line(out: &mut [u8], answer: Result<usize, Refusal>) -> usize
    requires { refusal_room ≤ length out.old }
    ensures put { Put out.old out.new 0 (result_line (result_by answer)) result }
    ensures prefix_len { IsPrefixLen result out.new }
{
    match answer {
        Err(r) => text::put_refusal(out, r.number()),
        Ok(n) => text::put_number_line(out, 0, n as u64),
    }
}

// Writes that line to standard output, and answers its length.
pub fn print_line(answer: Result<usize, Refusal>) -> usize
    ensures { result ≡ length (result_line (result_by answer)) }
{
    let mut line = [0u8; 32];
    let n = put_line(&mut line, answer);
    io::write_all(STDOUT, &line[..n]);
    n
}
