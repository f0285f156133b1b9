// The part: what writes change, and the plan that it goes by.
ghost use Rattle.controller.specs.Block.{Ready};

use machine::Machine;

// What writes change: the registers, and what no byte shows, the cells of the policy's jobs and the automaton's state.
#[derive(Clone, Copy)]
pub struct Block {
    pub label: u8,
    pub status: u8,
    pub mask: u8,
    pub ran: u8,
    pub gain: u32,
    pub cells: [u8; policy::CELLS],
    pub state: u8,
}

// The part: its plan as a machine, and its block, from which a slot can be run.
#[derive(Clone, Copy)]
pub struct Controller {
    pub machine: Machine,
    pub block: Block,
    pub ghost ready: { Ready machine.rules block },
}
