// Reads plan.bin and writes.bin, two bytes a write, the number of a register byte and a value, and writes a line for each write: its
// refusal or 0, then the sixteen registers. A plan with a fault gets the line `refused n`. A file that cannot be opened reads as empty. What
// plan.bin holds past this buffer changes no answer (theory: long-plan). writes.bin may have any size: it is read in parts, which changes no
// line (block_text: lines_parts). A last byte that has no value is no write.
#![tactic(auto)]

ghost use Rattle.std.specs.Prelude.{◌≡◌, List, ℕ, length};
ghost use Rattle.model.specs.Controller.{after_writes, writes_in};
ghost use Rattle.policy.specs.View.{tasks_in};
ghost use Rattle.controller.specs.Block.{Ready, block_of};
ghost use Rattle.controller.specs.View.{Becomes};

use controller::Block;
use machine::Machine;
use refusals::Refusal;
use std::fs::File;

// Reads the next part of the writes, makes them and writes their lines, and answers how many bytes the part had.
fn run_part(file: &mut Option<File>, machine: &Machine, block: &mut Block) -> usize
    requires { Ready machine.now.rules block.old }
    ensures { (writes : List ℕ) × (result ≡ length writes) × Becomes machine.now.rules machine.now.next (λ P. after_writes P (block_of (tasks_in machine.now.rules) block.old) (writes_in writes)) block.new }
{
    let mut writes = block_text::part_room();
    let count = host::read_part(file, &mut writes);
    *block = block_text::print_lines(machine, *block, &writes[..count]);
    count
}

// Goes on while a part was full. A proved loop has to end, and nothing says that a file does: it takes a number of parts that no file has.
fn run_parts(file: &mut Option<File>, machine: &Machine, block: &mut Block)
    requires { Ready machine.now.rules block.old }
    ensures { (writes : List ℕ) × Becomes machine.now.rules machine.now.next (λ P. after_writes P (block_of (tasks_in machine.now.rules) block.old) (writes_in writes)) block.new }
{
    for _ in 0..u64::MAX {
        let count = run_part(file, machine, block);
        if count != block_text::PART {
            return;
        }
    }
}

fn main(rt: HostRuntime) {
    let mut plan = io::large_buffer();
    let length = host::read_file(&rt, "plan.bin", &mut plan);
    match controller::set_up(&plan[..length]) {
        Err(f) => {
            answer_text::print_line(Err(Refusal::Plan(f)));
        }
        Ok(controller) => {
            let mut writes = File::open(&rt, "writes.bin").ok();
            let mut block = controller.block;
            run_parts(&mut writes, &controller.machine, &mut block);
        }
    }
}
