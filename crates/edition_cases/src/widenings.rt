// Cases of certificates that are widened: for each the line of what the call tells, and whether the output begins as the case says. A case
// has a certificate of the first edition, the bytes that it becomes, none where the call refuses, and the bytes of output that are lent.
ghost use Rattle.std.specs.Prelude.{List, ℕ};
ghost use Rattle.edition_cases.specs.Widened.{WidensAs};

use std::fs::File;

// Writes what the widen call tells and whether its output begins with these bytes, and answers the latter.
fn write_widened(certificate: &[u8], bytes: &[u8], out: &mut [u8]) -> bool
    ensures { WidensAs certificate.now bytes.now out.old out.new result }
{
    let answer = widen::widen(certificate, out);
    answer_text::print_line(answer);
    records::write_comparison(out, bytes)
}

// Reads a certificate, bytes and a number of eight bytes, and writes both lines.
pub fn widen_case(file: &mut File) -> bool
    ensures { (certificate bytes out out' : List ℕ) × WidensAs certificate bytes out out' result }
{
    let mut certificate = io::large_buffer();
    let mut bytes = io::large_buffer();
    let mut numbers = [0u8; 8];
    let mut out = records::memory();
    let c = records::read_next(file, &mut certificate);
    let b = records::read_next(file, &mut bytes);
    records::read_next(file, &mut numbers);
    let n = records::lent(words::read_u64(&numbers, 0), &out);
    write_widened(&certificate[..c], &bytes[..b], &mut out[..n])
}
