// Reads plan.bin and cert.bin, and writes the line of the check: `p q N K m`, or `refused n`. A file that cannot be
// opened reads as empty. What a file holds past these buffers changes no answer (theory: long-plan, long-certificate).
#![tactic(auto)]

use host::STDOUT;

fn main(rt: HostRuntime) {
    let mut plan = io::large_buffer();
    let mut certificate = io::large_buffer();
    let mut work = io::large_buffer();
    let mut line = check_text::line_room();
    let plan_length = host::read_file(&rt, "plan.bin", &mut plan);
    let length = host::read_file(&rt, "cert.bin", &mut certificate);
    let n = check_text::put_check(
        &mut line,
        &plan[..plan_length],
        &certificate[..length],
        &mut work,
    );
    io::write_all(STDOUT, &line[..n]);
}
