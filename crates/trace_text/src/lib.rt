// The trace as text: the table of a plan's policy over labels, or the line of a refusal.
#![tactic(auto)]

ghost use Rattle.std.specs.Prelude.{◌≡◌, ◌++◌, ◌+◌, ◌*◌, ◌≤◌, length};
ghost use Rattle.io.specs.Counts.{IsPrefixLen};
ghost use Rattle.model.specs.Limits.{max_labels, trace_room};
ghost use Rattle.model.specs.Text.{trace_header, trace_line, trace_text};
ghost use Rattle.model.specs.Trace as model_trace;
ghost use Rattle.model.specs.Trace.{row_size};
ghost use Rattle.model.specs.Bytes.{Put};
ghost use Rattle.tracer.specs.Rows.{row_view};
ghost use Rattle.trace_text.specs.Rows.{line_room, text_room, row_in, row_lines};

use node::Node;
use tracer::{ROW_BYTES, Row};

// The most bytes of a line, and of a text with its header.
const LINE_ROOM: usize = 23;

const TEXT_ROOM: usize = 24 + LINE_ROOM * Node::MAX_LABELS;

// The row at a place of a trace's bytes.
fn read_row(rows: &[u8], at: usize) -> Row
    requires { at + row_size ≤ length rows.now }
    ensures { row_view result ≡ row_in rows.now at }
{
    let ran = rows[at];
    let gain = words::read_u16(rows, at + 1);
    let cut = rows[at + 3];
    Row { ran, gain, cut }
}

// Writes the line of a slot, its number, the label and what the trace shows, and answers the place after it.
fn put_line(out: &mut [u8], at: usize, slot: usize, label: u8, row: Row) -> usize
    requires { at + length (trace_line slot label (row_view row)) ≤ length out.old }
    ensures { Put out.old out.new at (trace_line slot label (row_view row)) result }
{
    // The casts widen and stand in the proof as the numbers themselves; each From would be a result with a name of its own.
    let a = text::put_three_fields(out, at, slot as u64, label as u64, row.ran as u64);
    let b = text::put_field(out, a, row.gain as u64);
    text::put_number_line(out, b, row.cut as u64)
}

// Writes the line of each label from a place on, and answers the place after them.
fn put_rows(out: &mut [u8], at: usize, labels: &[u8], rows: &[u8]) -> usize
    requires { (length labels.now ≤ max_labels) × (row_size * length labels.now ≤ length rows.now) × (at + line_room * length labels.now ≤ length out.old) }
    ensures { Put out.old out.new at (row_lines 0 labels.now rows.now) result }
{
    let mut end = at;
    for (i, label) in labels.iter().enumerate() {
        let row = read_row(rows, ROW_BYTES * i);
        end = put_line(out, end, i, *label, row);
    }
    end
}

// Room for the bytes of a trace.
fn rows_room() -> [u8; tracer::TRACE_ROOM]
    ensures { trace_room ≡ length result }
{
    [0; tracer::TRACE_ROOM]
}

// Room for the text of a trace.
pub fn text_room() -> [u8; TEXT_ROOM]
    ensures { text_room ≡ length result }
{
    [0; TEXT_ROOM]
}

// Writes the lines of the labels under the header.
fn put_table(out: &mut [u8], labels: &[u8], rows: &[u8]) -> usize
    requires { (length labels.now ≤ max_labels) × (row_size * length labels.now ≤ length rows.now) × (text_room ≤ length out.old) }
    ensures put { Put out.old out.new 0 (trace_header ++ row_lines 0 labels.now rows.now) result }
    ensures upper_bound { result ≤ text_room }
{
    let at = text::put_bytes(out, 0, b"slot label run gain cut\n");
    put_rows(out, at, labels, rows)
}

// Writes the trace of a plan's policy over labels, or the line of a refusal.
pub fn put_trace(out: &mut [u8], plan: &[u8], labels: &[u8]) -> usize
    requires { text_room ≤ length out.old }
    ensures put { Put out.old out.new 0 (trace_text labels.now (model_trace.trace plan.now labels.now trace_room)) result }
    ensures prefix_len { IsPrefixLen result out.new }
{
    let mut rows = rows_room();
    match tracer::trace(plan, labels, &mut rows) {
        Err(r) => text::put_refusal(out, r.number()),
        Ok(_) => put_table(out, labels, &rows),
    }
}
