// Reads plan.bin, and writes the bytes of its certificate, or `refused n`. A file that cannot be opened reads as empty. What
// it holds past this buffer changes no answer (theory: long-plan).
#![tactic(auto)]

use host::STDOUT;

fn main(rt: HostRuntime) {
    let mut plan = io::large_buffer();
    let mut certificate = io::large_buffer();
    let mut work = io::large_buffer();
    let length = host::read_file(&rt, "plan.bin", &mut plan);
    let n = solve_text::put_certificate(&mut certificate, &plan[..length], &mut work);
    io::write_all(STDOUT, &certificate[..n]);
}
