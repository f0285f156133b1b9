// The controller's register block: a model of the part for firmware tests. It is set up from a plan and changed by register writes.
#![tactic(auto)]

mod part; // part.rt: the block, and the part that holds it

ghost use Rattle.std.specs.Prelude.{◌≡◌, [], nat_lt, MatchResult};
ghost use Rattle.model.specs.Controller as model;
ghost use Rattle.model.specs.Controller.{writes_in};
ghost use Rattle.model.specs.Lists.{one};
ghost use Rattle.model.specs.Options.{option_of};
ghost use Rattle.model.specs.Plan as model_plan;
ghost use Rattle.model.specs.Plan.{IsSound, next_in};
ghost use Rattle.model.specs.Refusals.{bad_write};
ghost use Rattle.plan.specs.View.{plan_of};
ghost use Rattle.policy.specs.View.{tasks_in, Tasks};
ghost use Rattle.refusals.specs.declared.Refusal.TheVariants.{BadWrite};
ghost use Rattle.controller.specs.Block.{Ready, block_of};
ghost use Rattle.controller.specs.View.{write_of, action_view, Becomes, Steps, refusal_of_result, Writes, fresh_block, PartOf, block_in, After, SetsUp, Replays};

use machine::Machine;
pub use part::{Block, Controller};
use plan::{Fault, Plan};
use refusals::Refusal;

// The bytes that may be written, and the value that runs a slot.
const LABEL: u64 = 0;

const RUN: u64 = 1;

const MASK: u64 = 3;

const GO: u8 = 1;

// All bytes.
pub const BYTES: usize = 16;

// Status: a job finished; the label was not admitted.
const FINISHED: u8 = 1;

const NOT_ADMITTED: u8 = 2;

// What a write asks: that a label stands in byte 0, that a slot runs with it, or that a mask stands in byte 3.
#[derive(Clone, Copy, Debug, PartialEq, Eq)]
pub enum Action {
    Label(u8),
    Run,
    Mask(u8),
}

impl Action {
    // What a value written to a byte asks; any other write is refused.
    pub fn of(byte: u64, value: u8) -> Result<Action, Refusal>
        ensures { MatchResult result (λ w. action_view w ≡ write_of byte value) (λ r. (r ≡ BadWrite) × (model.refusal_of (write_of byte value) ≡ bad_write)) }
    {
        match byte {
            LABEL => Ok(Action::Label(value)),
            RUN => {
                if value == GO {
                    Ok(Action::Run)
                } else {
                    Err(Refusal::BadWrite)
                }
            }
            MASK => Ok(Action::Mask(value)),
            _ => Err(Refusal::BadWrite),
        }
    }
}

// The status after a slot with this gain: a job that is done has gained its value, which is not 0.
fn status_of(gain: u16) -> u8
    ensures { result ≡ one (nat_lt 0 gain) }
{
    if 0 < gain {
        return FINISHED;
    }
    0
}

// The block after one slot with its label, if that is admitted; it is cleared either way.
fn run_slot(machine: &Machine, block: Block) -> Block
    requires { Ready machine.now.rules block }
    ensures { Becomes machine.now.rules machine.now.next (λ P. model.ran_to P (block_of (tasks_in machine.now.rules) block) (next_in P.arcs block.state block.label)) result }
{
    let cells = block.cells;
    let Some(state) = machine.next(block.state, block.label) else {
        return Block {
            label: 0,
            status: NOT_ADMITTED,
            mask: block.mask,
            ran: 0,
            gain: block.gain,
            cells,
            state: block.state,
        };
    };
    let done = policy::slot(&machine.rules, &cells, block.label);
    let older = done.cells;
    let status = status_of(done.gain);
    let ran = policy::task_number(done.ran);
    let gain = std::num::wrapping_add_u32(block.gain, u32::from(done.gain));
    Block {
        label: 0,
        status,
        mask: block.mask,
        ran,
        gain,
        cells: older,
        state,
    }
}

// The block after what a write asks.
fn make(machine: &Machine, block: Block, action: Action) -> Block
    requires { Ready machine.now.rules block }
    ensures { Becomes machine.now.rules machine.now.next (λ P. model.after_write P (block_of (tasks_in machine.now.rules) block) (action_view action)) result }
{
    let mut after = block;
    match action {
        Action::Label(label) => {
            after.label = label;
            after
        }
        Action::Mask(mask) => {
            after.mask = mask;
            after
        }
        Action::Run => run_slot(machine, block),
    }
}

// Makes a write to a block that is lent, which a refusal leaves as it was.
pub fn step(machine: &Machine, block: &mut Block, byte: u64, value: u8) -> Result<(), Refusal>
    requires { Ready machine.now.rules block.old }
    ensures { Steps machine.now.rules machine.now.next block.old (write_of byte value) block.new (refusal_of_result result) }
{
    let action = Action::of(byte, value)?;
    *block = make(machine, *block, action);
    Ok(())
}

// Whether a write is taken, or its refusal.
pub fn refusal_of(byte: u64, value: u8) -> Result<(), Refusal>
    ensures { refusal_of_result result ≡ model.refusal_of (write_of byte value) }
{
    Action::of(byte, value)?;
    Ok(())
}

// The number of a write's refusal, 0 for none, as C and the texts have it.
pub fn number_of(told: Result<(), Refusal>) -> u64
    ensures { result ≡ refusal_of_result told }
{
    match told {
        Ok(()) => 0,
        Err(r) => r.number(),
    }
}

// A write to the block of a part that is lent.
pub fn write(controller: &mut Controller, byte: u64, value: u8) -> Result<(), Refusal>
    ensures { Writes controller.old (write_of byte value) controller.new (refusal_of_result result) }
{
    let mut block = controller.block;
    let told = step(&controller.machine, &mut block, byte, value);
    controller.block = block;
    told
}

// Byte 5: 1 where status and mask share a set bit, else 0.
fn interrupt(status: u8, mask: u8) -> u8
    ensures { result ≡ model.interrupt_of status mask }
{
    if status & mask == 0 {
        return 0;
    }
    1
}

// The sixteen bytes as they read.
pub fn registers(block: Block) -> [u8; BYTES]
    ensures { (ts : Tasks) → result ≡ model.registers (block_of ts block) }
{
    let irq = interrupt(block.status, block.mask);
    let [highest, high, low, lowest] = block.gain.to_be_bytes();
    [
        block.label,
        0,
        block.status,
        block.mask,
        block.ran,
        irq,
        0,
        0,
        highest,
        high,
        low,
        lowest,
        0,
        0,
        0,
        0,
    ]
}

// What a byte reads; 0 past the last.
pub fn read(block: Block, byte: u64) -> u8
    ensures { (ts : Tasks) → result ≡ model.read_byte (block_of ts block) byte }
{
    let bytes = registers(block);
    // No From goes from u64 to usize, and this cast keeps the number: both have 64 bits.
    let at = byte as usize;
    if BYTES <= at {
        return 0;
    }
    bytes[at]
}

// All zero, with no jobs, in state 0.
fn fresh() -> Block
    ensures { result ≡ fresh_block }
{
    let cells = [0u8; policy::CELLS];
    Block {
        label: 0,
        status: 0,
        mask: 0,
        ran: 0,
        gain: 0,
        cells,
        state: 0,
    }
}

// The part of a sound plan, with a fresh block.
fn part_of(plan: Plan) -> Controller
    requires { IsSound (plan_of plan) }
    ensures { After (plan_of plan) [] result }
{
    let machine = Machine::of(plan);
    let block = fresh();
    Controller { machine, block }
}

// Sets a part up from a plan, or tells the plan's fault.
pub fn set_up(plan: &[u8]) -> Result<Controller, Fault>
    ensures { SetsUp plan.now result }
{
    let found = plan::read(plan)?;
    Ok(part_of(found))
}

// The block after writes, each a byte's number and a value.
pub fn run_writes(machine: &Machine, block: Block, writes: &[u8]) -> Block
    requires { Ready machine.now.rules block }
    ensures { Becomes machine.now.rules machine.now.next (λ P. model.after_writes P (block_of (tasks_in machine.now.rules) block) (writes_in writes.now)) result }
{
    let mut after = block;
    for i in 0..writes.len() / 2 {
        let byte = u64::from(writes[2 * i]);
        let _ = step(machine, &mut after, byte, writes[2 * i + 1]);
    }
    after
}

// The refusal of the last of the writes, if that is refused.
pub fn last_refusal(writes: &[u8]) -> Result<(), Refusal>
    ensures { refusal_of_result result ≡ model.last_refusal (writes_in writes.now) }
{
    let n = writes.len();
    if n < 2 {
        return Ok(());
    }
    let at = n - n % 2 - 2;
    let byte = u64::from(writes[at]);
    refusal_of(byte, writes[at + 1])
}

// The registers of a part after writes.
fn registers_after(controller: &Controller, writes: &[u8]) -> [u8; BYTES]
    ensures { (P : model_plan.Plan) → PartOf P controller.now.machine.rules controller.now.machine.next → result ≡ model.registers (model.after_writes P (block_in controller.now) (writes_in writes.now)) }
{
    let block = run_writes(&controller.machine, controller.block, writes);
    registers(block)
}

// The writes from a fresh block on, and the sixteen bytes as they then read. It answers the plan's fault, with the bytes as they were, or
// the refusal of the last write.
pub fn replay(plan: &[u8], writes: &[u8], out: &mut [u8; BYTES]) -> Result<(), Refusal>
    ensures { Replays plan.now writes.now out.old out.new (refusal_of_result result) }
{
    let controller = set_up(plan)?;
    *out = registers_after(&controller, writes);
    last_refusal(writes)
}
