// The line of what is answered for a log that is held against a cap.
#![tactic(auto)]

ghost use Rattle.std.specs.Prelude.{◌≡◌, ◌≤◌, length};
ghost use Rattle.io.specs.Counts.{IsPrefixLen};
ghost use Rattle.model.specs.Bytes.{Put};
ghost use Rattle.model.specs.Text.{cap_text, number_line};
ghost use Rattle.cap.specs.View.{answer_of};
ghost use Rattle.cap_text.specs.Line.{line_room};

use cap::Answer;
use host::STDOUT;

// Writes the line of a slot in front, and gives its length.
fn put_slot(out: &mut [u8], slot: u64) -> usize
    requires { line_room ≤ length out.old }
    ensures { Put out.old out.new 0 (number_line slot) result }
{
    text::put_number_line(out, 0, slot)
}

// Writes the line of an answer in front, and gives its length.
fn put_line(out: &mut [u8], answer: Answer) -> usize
    requires { line_room ≤ length out.old }
    ensures put { Put out.old out.new 0 (cap_text (answer_of answer)) result }
    ensures prefix_len { IsPrefixLen result out.new }
{
    match answer {
        Err(r) => text::put_refusal(out, r.number()),
        Ok(Some(t)) => put_slot(out, t),
        Ok(None) => text::put_bytes(out, 0, b"kept\n"),
    }
}

// Writes that line to standard output, and answers its length.
pub fn print(answer: Answer) -> usize
    ensures { result ≡ length (cap_text (answer_of answer)) }
{
    let mut line = [0u8; 32];
    let n = put_line(&mut line, answer);
    io::write_all(STDOUT, &line[..n]);
    n
}
