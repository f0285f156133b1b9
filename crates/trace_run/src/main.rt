// Reads plan.bin and labels.bin, one byte a label, and writes what the plan's policy does, slot by slot. A file that
// cannot be opened reads as empty. What a file holds past these buffers changes no answer (theory: long-plan,
// long-labels).
#![tactic(auto)]

use host::STDOUT;

fn main(rt: HostRuntime) {
    let mut plan = io::large_buffer();
    let mut labels = io::large_buffer();
    let mut text = trace_text::text_room();
    let plan_length = host::read_file(&rt, "plan.bin", &mut plan);
    let label_count = host::read_file(&rt, "labels.bin", &mut labels);
    let n = trace_text::put_trace(&mut text, &plan[..plan_length], &labels[..label_count]);
    io::write_all(STDOUT, &text[..n]);
}
