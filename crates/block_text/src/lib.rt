// The text of writes to the register block: a line for each, its refusal or 0 and the sixteen bytes as they then read.
#![tactic(auto)]

ghost use Rattle.std.specs.Prelude.{◌≡◌, ◌+◌, ◌*◌, ◌/◌, ◌≤◌, length};
ghost use Rattle.model.specs.Bytes.{Put};
ghost use Rattle.model.specs.Controller.{after_writes, writes_in};
ghost use Rattle.model.specs.Text.{field, number_line, numbers_line};
ghost use Rattle.policy.specs.View.{tasks_in};
ghost use Rattle.controller.specs.Block.{Ready, block_of};
ghost use Rattle.controller.specs.View.{Becomes};
ghost use Rattle.block_text.specs.Lines.{line_room, part_bytes, text_room, Lined};

use controller::Block;
use host::STDOUT;
use machine::Machine;

// The most bytes of a line.
pub const LINE_ROOM: usize = 67;

// How many bytes of writes are read at a time; an even number, so that no write is torn.
pub const PART: usize = 2048;

// The last of the bytes that a line shows.
const LAST: usize = controller::BYTES - 1;

const TEXT_ROOM: usize = LINE_ROOM * (PART / 2);

// The block after writes, and the place after their lines.
#[derive(Clone, Copy)]
pub struct Lines {
    pub block: Block,
    pub end: usize,
}

// Writes a byte as a number and a space.
fn put_byte(out: &mut [u8], at: usize, byte: u8) -> usize
    requires { at + length (field byte) ≤ length out.old }
    ensures { Put out.old out.new at (field byte) result }
{
    text::put_field(out, at, u64::from(byte))
}

// Writes a byte as a number that ends its line.
fn put_last_byte(out: &mut [u8], at: usize, byte: u8) -> usize
    requires { at + length (number_line byte) ≤ length out.old }
    ensures { Put out.old out.new at (number_line byte) result }
{
    text::put_number_line(out, at, u64::from(byte))
}

// Writes the line of a write at a place, its refusal or 0 and the sixteen bytes, and answers the place after it.
pub fn put_line(out: &mut [u8], at: usize, refusal: u64, bytes: [u8; controller::BYTES]) -> usize
    requires { at + length (numbers_line refusal bytes) ≤ length out.old }
    ensures { Put out.old out.new at (numbers_line refusal bytes) result }
{
    let mut end = text::put_field(out, at, refusal);
    for i in 0..LAST {
        end = put_byte(out, end, bytes[i]);
    }
    put_last_byte(out, end, bytes[LAST])
}

// Writes the lines of writes from a block on, and answers the block after them and the place after the lines.
pub fn put_lines(out: &mut [u8], machine: &Machine, block: Block, writes: &[u8]) -> Lines
    requires { Ready machine.now.rules block × (line_room * (length writes.now / 2) ≤ length out.old) }
    ensures { Lined out.old out.new machine.now.rules machine.now.next block writes.now result }
{
    let mut after = block;
    let mut end = 0;
    for i in 0..writes.len() / 2 {
        let byte = u64::from(writes[2 * i]);
        let told = controller::step(machine, &mut after, byte, writes[2 * i + 1]);
        let refusal = controller::number_of(told);
        let bytes = controller::registers(after);
        end = put_line(out, end, refusal, bytes);
    }
    Lines { block: after, end }
}

// Room for a part of the writes.
pub fn part_room() -> [u8; PART]
    ensures { part_bytes ≡ length result }
{
    [0; PART]
}

// Room for the text of a part.
pub fn text_room() -> [u8; TEXT_ROOM]
    ensures { text_room ≡ length result }
{
    [0; TEXT_ROOM]
}

// Writes the lines of a part to standard output, and answers the block after its writes.
pub fn print_lines(machine: &Machine, block: Block, writes: &[u8]) -> Block
    requires { Ready machine.now.rules block × (length writes.now ≤ part_bytes) }
    ensures { Becomes machine.now.rules machine.now.next (λ P. after_writes P (block_of (tasks_in machine.now.rules) block) (writes_in writes.now)) result }
{
    let mut text = text_room();
    let lines = put_lines(&mut text, machine, block, writes);
    io::write_all(STDOUT, &text[..lines.end]);
    lines.block
}
