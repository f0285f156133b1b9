// The nodes of a plan's graph, discovered in order and kept in the node store.
#![tactic(auto)]

ghost use Rattle.std.specs.Prelude.{◌≡◌, length, [], ◌∷◌, ◌^◌, ◌<◌, ◌≤◌};
ghost use Rattle.std.proofs.Math.Option.{some};
ghost use Rattle.model.specs.Graph.{edges_to, nodes};
ghost use Rattle.model.specs.Limits.{max_states};
ghost use Rattle.model.specs.Masks.{mask_count};
ghost use Rattle.model.specs.Plan.{Plan};
ghost use Rattle.policy.specs.View.{cell_count, Cells, tasks_in};
ghost use Rattle.graph.specs.Outcomes.{NotesFree};
ghost use Rattle.graph.specs.Label.{order_in, Readable};
ghost use Rattle.graph.specs.View.{node_of, Planned, Planning};
ghost use Rattle.store.specs.Store.{store_bytes};
ghost use Rattle.discovery.specs.Discovery.{row_of, node_in, Stored, Adds, nodes_with, Holding, Explored, edges_by, edges_below, Known, Begun, Discovers};

use machine::Machine;
use node::Node;

// Where the pattern and the state stand in a row, behind the cells.
const TAKEN: usize = policy::CELLS;

const STATE: usize = TAKEN + 2;

// Where edges leave: a node with its number, and their label.
#[derive(Clone, Copy)]
pub struct Source {
    pub number: usize,
    pub node: Node,
    pub label: u8,
}

// A node as a row.
pub fn row_of(node: &Node) -> [u8; store::ROW_BYTES]
    ensures { result ≡ row_of node.now }
{
    let mut row = [0u8; store::ROW_BYTES];
    words::copy(&node.cells, 0, &mut row, 0, policy::CELLS);
    words::write_u16(&mut row, TAKEN, node.taken);
    row[STATE] = node.state;
    row
}

// The node of a row.
pub fn node_of(row: &[u8; store::ROW_BYTES]) -> Node
    ensures { result ≡ node_in row.now }
{
    let mut cells = [0u8; policy::CELLS];
    words::copy(row, 0, &mut cells, 0, policy::CELLS);
    let taken = words::read_u16(row, TAKEN);
    Node {
        cells,
        taken,
        state: row[STATE],
    }
}

// A node joins the n in the store unless it is among them. The number of nodes then, if there are not too many.
fn add_node(m: &mut [u8], n: usize, node: Node) -> Option<usize>
    requires { Stored m.old n }
    ensures { Adds node.cells (λ ts. node_of ts node ∷ []) m.old n m.new result }
{
    let place = store::find_or_append(m, n, &row_of(&node))?;
    Some(place.count)
}

// For each pattern in the notes a node with these cells and this state joins those in the store. The number of nodes then, if there are not
// too many.
fn add_outcomes(
    m: &mut [u8],
    n: usize,
    notes: &[u32; graph::NOTE_ROOM],
    count: usize,
    cells: [u8; policy::CELLS],
    state: u8,
) -> Option<usize>
    requires { Stored m.old n × Readable notes.now count }
    ensures { Adds cells (nodes_with cells state (order_in notes.now count)) m.old n m.new result }
{
    let mut known = n;
    for k in 0..count {
        let taken = graph::noted_pattern(notes, count, k);
        let node = Node {
            cells,
            taken,
            state,
        };
        known = add_node(m, known, node)?;
    }
    Some(known)
}

// The nodes that a label leads to from a node, in this state, join those in the store. The number of nodes then, if there are not too many.
fn explore_label(
    machine: &Machine,
    node: &Node,
    label: u8,
    state: u8,
    notes: &mut [u32; graph::NOTE_ROOM],
    m: &mut [u8],
    n: usize,
) -> Option<usize>
    requires node { Cells (tasks_in machine.now.rules) cell_count node.now.cells × (node.now.taken < mask_count) }
    requires holding { Holding (tasks_in machine.now.rules) m.old n }
    ensures explored { Explored machine.now.rules (λ P. edges_to P (node_of (tasks_in machine.now.rules) node.now) label (some state)) m.old n m.new result }
    ensures notes_free { NotesFree notes.old notes.new }
{
    let noted = graph::reach(&machine.rules, node, label, None, notes);
    let done = noted.done;
    let cells = done.cells;
    add_outcomes(m, n, notes, noted.count, cells, state)
}

// The nodes that a label leads to from a node, if it is admitted, join those in the store. The number of nodes then, if there are not too many.
fn follow_label(
    machine: &Machine,
    node: &Node,
    label: u8,
    notes: &mut [u32; graph::NOTE_ROOM],
    m: &mut [u8],
    n: usize,
) -> Option<usize>
    requires node { Cells (tasks_in machine.now.rules) cell_count node.now.cells × (node.now.state < max_states) × (node.now.taken < mask_count) }
    requires holding { Holding (tasks_in machine.now.rules) m.old n }
    ensures explored { Explored machine.now.rules (edges_by machine.now.next (node_of (tasks_in machine.now.rules) node.now) label) m.old n m.new result }
    ensures notes_free { NotesFree notes.old notes.new }
{
    let Some(to) = machine.next(node.state, label) else {
        return Some(n);
    };
    explore_label(machine, node, label, to, notes, m, n)
}

// The nodes that edges lead to from a node, labels upward, join those in the store. The number of nodes then, if there are not too many.
fn explore_node(
    machine: &Machine,
    node: &Node,
    notes: &mut [u32; graph::NOTE_ROOM],
    m: &mut [u8],
    n: usize,
) -> Option<usize>
    requires node { Cells (tasks_in machine.now.rules) cell_count node.now.cells × (node.now.state < max_states) × (node.now.taken < mask_count) }
    requires holding { Holding (tasks_in machine.now.rules) m.old n }
    ensures explored { Explored machine.now.rules (edges_below machine.now.next (node_of (tasks_in machine.now.rules) node.now) (2 ^ machine.now.rules.tasks.count)) m.old n m.new result }
    ensures notes_free { NotesFree notes.old notes.new }
{
    let labels = machine.rules.tasks.labels();
    let mut known = n;
    for label in 0..labels as u8 {
        known = follow_label(machine, node, label, notes, m, known)?;
    }
    Some(known)
}

// Explores the nodes in the store by number, from the start node on. The number of nodes then, if there are not too many.
fn explore_all(
    machine: &Machine,
    notes: &mut [u32; graph::NOTE_ROOM],
    m: &mut [u8],
    n: usize,
) -> Option<usize>
    requires { Planning machine.now.rules machine.now.next × Begun machine.now.rules m.old n }
    ensures known { (P : Plan) → Planned P machine.now.rules machine.now.next → Known (tasks_in machine.now.rules) (nodes P) m.old m.new result }
    ensures notes_free { NotesFree notes.old notes.new }
{
    let mut known = n;
    let mut k = 0;
    // Counted by hand: the queue grows while it is walked.
    while k < known {
        let node = node_of(&store::row(m, k));
        known = explore_node(machine, &node, notes, m, known)?;
        k += 1;
    }
    Some(known)
}

// Discovers the nodes of a sound plan's machine, into the store: how many there are, if there are not too many.
pub fn discover(
    machine: &Machine,
    notes: &mut [u32; graph::NOTE_ROOM],
    m: &mut [u8],
) -> Option<usize>
    requires planning { Planning machine.now.rules machine.now.next }
    requires room { store_bytes ≤ length m.old }
    ensures discovers { Discovers machine.now.rules machine.now.next m.old m.new result }
    ensures notes_free { NotesFree notes.old notes.new }
{
    store::clear_index(m);
    let first = add_node(m, 0, Node::start())?;
    explore_all(machine, notes, m, first)
}
