// Reads plan.bin, and writes the number of passes by which the solver finds the potentials of its certificate, or `refused n`. A file that
// cannot be opened reads as empty. What it holds past this buffer changes no answer (theory: long-plan).
#![tactic(auto)]

use host::STDOUT;

fn main(rt: HostRuntime) {
    let mut plan = io::large_buffer();
    let mut line = [0u8; 32];
    let length = host::read_file(&rt, "plan.bin", &mut plan);
    let n = solve_text::put_passes(&mut line, &plan[..length]);
    io::write_all(STDOUT, &line[..n]);
}
