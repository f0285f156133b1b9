// Cases of scripts: a block is set up from a plan, and each item of the script writes to it. For each item the line of its last write is
// written, the refusal and the registers; for a plan with a fault that of the refusal.
ghost use Rattle.std.specs.Prelude.{◌≡◌, List, [], ℕ, ◌<◌};
ghost use Rattle.model.specs.Controller.{Write, replay_number};
ghost use Rattle.model.specs.Plan.{read_plan};
ghost use Rattle.controller.specs.View.{refusal_of_result};
ghost use Rattle.block_cases.specs.Script.{item_count, item_total, first_writes, Scripted, Moved};

use controller::Controller;
use host::STDOUT;
use refusals::Refusal;
use std::fs::File;

// The bytes of an item before its writes, and of a write.
const HEAD: usize = 5;

const WRITE: usize = 9;

// How many writes an item has.
fn item_count(item: &[u8]) -> usize
    ensures value { result ≡ item_count item.now }
    ensures upper_bound { result < 256 }
{
    if item.len() < HEAD {
        return 0;
    }
    usize::from(item[HEAD - 1])
}

// How many writes are made: those of the item, so many times over; none where it is too short.
fn item_total(item: &[u8], count: usize) -> usize
    requires { (count ≡ item_count item.now) × (count < 256) }
    ensures { result ≡ item_total item.now }
{
    if item.len() < HEAD + WRITE * count {
        return 0;
    }
    // No From goes from u32 to usize, and this cast widens.
    words::read_u32(item, 0) as usize * count
}

// Makes the writes of an item, and tells whether the last one is refused.
fn run_item(controller: &mut Controller, item: &[u8]) -> Result<(), Refusal>
    ensures { Scripted controller.old (first_writes item.now (item_total item.now)) controller.new (refusal_of_result result) }
{
    let count = item_count(item);
    let total = item_total(item, count);
    let mut told = Ok(());
    for k in 0..total {
        let at = HEAD + WRITE * (k % count);
        let byte = words::read_u64(item, at);
        told = controller::write(controller, byte, item[at + 8]);
    }
    told
}

// Makes the writes of an item, and writes the line of the last one.
fn write_item(controller: &mut Controller, item: &[u8])
    ensures { Moved controller.old (first_writes item.now (item_total item.now)) controller.new }
{
    let told = run_item(controller, item);
    let bytes = controller::registers(controller.block);
    let mut line = [0u8; block_text::LINE_ROOM];
    let n = block_text::put_line(&mut line, 0, controller::number_of(told), bytes);
    io::write_all(STDOUT, &line[..n]);
}

// Reads so many items, and writes the line of each.
fn write_items(file: &mut File, controller: &mut Controller, count: u16)
    ensures { (ws : List Write) × Moved controller.old ws controller.new }
{
    for _ in 0..count {
        let mut item = io::buffer();
        let n = records::read_next(file, &mut item);
        write_item(controller, &item[..n]);
    }
}

// Reads a plan, a number of items in two bytes and the items, and writes their lines, or that of the plan's refusal. It answers the number of
// that, 0 for none.
pub fn block_case(file: &mut File) -> u64
    ensures { (plan : List ℕ) × (result ≡ replay_number (read_plan plan) []) }
{
    let mut plan = io::large_buffer();
    let mut count = [0u8; 2];
    let p = records::read_next(file, &mut plan);
    records::read_next(file, &mut count);
    match controller::set_up(&plan[..p]) {
        Err(f) => {
            answer_text::print_line(Err(Refusal::Plan(f)));
            f.number()
        }
        Ok(controller) => {
            let mut part = controller;
            write_items(file, &mut part, words::read_u16(&count, 0));
            0
        }
    }
}
