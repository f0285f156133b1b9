// Reads cert.bin, a certificate of the first edition, and writes its bytes in the long-read edition, each mask in two bytes, or `refused 6`. A
// file that cannot be opened reads as empty. What it holds past this buffer changes no answer (theory: long-certificate_in).
#![tactic(auto)]

ghost use Rattle.std.specs.Prelude.{◌≡◌, List, ℕ, ◌≤◌, length};
ghost use Rattle.model.specs.Bytes.{Put};
ghost use Rattle.model.specs.Certificate.{certificate_bytes};
ghost use Rattle.model.specs.Convert.{widened};
ghost use Rattle.model.specs.Text.{writing_text};
ghost use Rattle.answer_text.specs.Finish.{refusal_room};

use std::fs::File;
use std::rt::Files;

// Writes the widened certificate from the output's first byte on and to standard output, and answers the number of bytes.
fn write_widened(certificate: &[u8], out: &mut [u8]) -> usize
    requires { refusal_room ≤ length out.old }
    ensures { Put out.old out.new 0 (writing_text certificate_bytes (widened certificate.now (length out.old))) result }
{
    let answer = widen::widen(certificate, out);
    answer_text::print(answer, out)
}

// Reads the certificate and writes it widened.
fn widen_file<R: Files<File = File>>(rt: &R) -> usize
    ensures { (certificate out out' : List ℕ) × (65536 ≡ length out) × Put out out' 0 (writing_text certificate_bytes (widened certificate (length out))) result }
{
    let mut certificate = io::large_buffer();
    let mut out = io::large_buffer();
    let length = host::read_file(rt, "cert.bin", &mut certificate);
    write_widened(&certificate[..length], &mut out)
}

fn main(rt: HostRuntime) {
    widen_file(&rt);
}
