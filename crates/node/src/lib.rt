// A node of the graph, with the limits and the policies' numbers as its constants, and the editions: each number stands here alone.
#![tactic(auto)]

ghost use Rattle.std.specs.Prelude.{◌≡◌};
ghost use Rattle.model.specs.Edition as model;
ghost use Rattle.node.specs.Start.{start_node};
ghost use Rattle.node.specs.Edition.{edition_of};

// The cells of the policy's jobs, the pattern of taken slots, and the automaton's state.
#[derive(Clone, Copy)]
pub struct Node {
    pub cells: [u8; Node::CELLS],
    pub taken: u16,
    pub state: u8,
}

impl Node {
    // A plan's tasks, the longest window, the largest value and the states.
    pub const MAX_TASKS: usize = 4;

    pub const MAX_WINDOW: usize = 10;

    pub const MAX_VALUE: u16 = 65535;

    pub const MAX_STATES: usize = 16;

    // The cells of a node: one for a task in each age from 1 on.
    pub const CELLS: usize = Node::MAX_TASKS * (Node::MAX_WINDOW - 1);

    // The patterns of taken slots between slots.
    pub const PATTERNS: usize = 1 << (Node::MAX_WINDOW - 1);

    // The nodes of a graph, and the steps of a certificate's cycle.
    pub const MAX_NODES: usize = 1024;

    pub const MAX_STEPS: usize = 1024;

    // A certificate's fraction and potentials.
    pub const MAX_P: u32 = 67107840;

    pub const MAX_Q: u32 = 268431360;

    pub const MAX_POTENTIAL: i64 = 72057594037927936;

    // The labels of a trace.
    pub const MAX_LABELS: usize = 4096;

    // The least work memory, and the most bytes of a trace, of a certificate and of a plan, in the long-read edition and in the first.
    pub const WORK_ROOM: usize = 65536;

    pub const TRACE_ROOM: usize = 16384;

    pub const CERTIFICATE_ROOM: usize = 19471;

    pub const PLAN_ROOM: usize = 1057;

    pub const FIRST_PLAN_ROOM: usize = 1045;

    // The policies.
    pub const EDF: u8 = 1;

    pub const SRT: u8 = 2;

    pub const FIFO: u8 = 3;

    pub const SP: u8 = 4;

    // The start node: no jobs, no taken slot, state 0.
    pub fn start() -> Node
        ensures { result ≡ start_node }
    {
        let cells = [0u8; Node::CELLS];
        Node {
            cells,
            taken: 0,
            state: 0,
        }
    }
}

// An edition of plan and certificate bytes: the longest window, the largest value, the bytes of a value and those of a mask, and whether
// it has locks.
#[derive(Clone, Copy)]
pub struct Edition {
    pub window: u8,
    pub value: u16,
    pub value_width: usize,
    pub mask_width: usize,
    pub locks: bool,
}

impl Edition {
    // The bytes of a mask in the long-read edition.
    pub const MASK_WIDTH: usize = 2;

    // The first edition.
    pub fn first() -> Edition
        ensures { edition_of result ≡ model.first_edition }
    {
        Edition {
            window: 8,
            value: 255,
            value_width: 1,
            mask_width: 1,
            locks: false,
        }
    }

    // The long-read edition.
    pub fn long_reads() -> Edition
        ensures { edition_of result ≡ model.long_reads }
    {
        Edition {
            window: Node::MAX_WINDOW as u8,
            value: Node::MAX_VALUE,
            value_width: 2,
            mask_width: Edition::MASK_WIDTH,
            locks: true,
        }
    }
}
