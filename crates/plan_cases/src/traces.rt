// Cases of traces: for each what the tracing program writes; and cases of the trace call: for each the line of what it tells, and whether the
// output begins as the case says.
ghost use Rattle.std.specs.Prelude.{◌≡◌, List, ℕ, length};
ghost use Rattle.model.specs.Limits.{trace_room};
ghost use Rattle.model.specs.Text.{trace_text};
ghost use Rattle.model.specs.Trace.{trace};
ghost use Rattle.plan_cases.specs.Traced.{TracedAs};

use host::STDOUT;
use std::fs::File;

// Writes the text of a trace, and answers its length.
fn write_trace(plan: &[u8], labels: &[u8]) -> usize
    ensures { result ≡ length (trace_text labels.now (trace plan.now labels.now trace_room)) }
{
    let mut text = trace_text::text_room();
    let n = trace_text::put_trace(&mut text, plan, labels);
    io::write_all(STDOUT, &text[..n]);
    n
}

// Reads a plan and its labels, and writes the text of the trace.
pub fn trace_case(file: &mut File) -> usize
    ensures { (plan : List ℕ) × (labels : List ℕ) × (result ≡ length (trace_text labels (trace plan labels trace_room))) }
{
    let mut plan = io::large_buffer();
    let mut labels = io::large_buffer();
    let p = records::read_next(file, &mut plan);
    let l = records::read_next(file, &mut labels);
    write_trace(&plan[..p], &labels[..l])
}

// Writes what the trace call tells and whether its output begins with these bytes, and answers the latter.
fn write_traced(plan: &[u8], labels: &[u8], bytes: &[u8], out: &mut [u8]) -> bool
    ensures { TracedAs plan.now labels.now bytes.now out.old out.new result }
{
    let answer = tracer::trace(plan, labels, out);
    answer_text::print_line(answer);
    records::write_comparison(out, bytes)
}

// Reads a plan, its labels, bytes, none where the call refuses, and a number of eight bytes, so many of which are lent, and writes both lines.
pub fn trace_call_case(file: &mut File) -> bool
    ensures { (plan labels bytes out out' : List ℕ) × TracedAs plan labels bytes out out' result }
{
    let mut plan = io::large_buffer();
    let mut labels = io::large_buffer();
    let mut bytes = io::large_buffer();
    let mut numbers = [0u8; 8];
    let mut out = records::memory();
    let p = records::read_next(file, &mut plan);
    let l = records::read_next(file, &mut labels);
    let b = records::read_next(file, &mut bytes);
    records::read_next(file, &mut numbers);
    let n = records::lent(words::read_u64(&numbers, 0), &out);
    write_traced(&plan[..p], &labels[..l], &bytes[..b], &mut out[..n])
}
