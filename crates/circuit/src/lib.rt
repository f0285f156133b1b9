// A cycle of steps in lent memory: the gains of its best edges, and its steps in a certificate.
#![tactic(auto)]

ghost use Rattle.std.specs.Prelude.{◌≡◌, List, ℕ, ◌+◌, ◌*◌, ◌≤◌, ◌<◌, length};
ghost use Rattle.model.specs.Graph as model;
ghost use Rattle.model.specs.Limits.{max_steps};
ghost use Rattle.model.specs.Plan.{Plan};
ghost use Rattle.model.specs.Walk as walk_model;
ghost use Rattle.certificate.specs.View.{step_size};
ghost use Rattle.policy.specs.View.{Ruled};
ghost use Rattle.store.specs.Store.{max_rows, store_bytes, row_at};
ghost use Rattle.discovery.specs.Discovery.{node_in};
ghost use Rattle.links.specs.Links.{links_end, taken_in};
ghost use Rattle.circuit.specs.Circuit.{Linked, Linking, StandsFor, node_after, Turns, Turning, Writes};

use node::Node;
use policy::Rules;

// A best edge of a label between two nodes: both gains, and the masks, packed.
#[derive(Clone, Copy)]
struct BestEdge {
    label: u8,
    kept: u32,
    ideal: u32,
    masks: u64,
}

// The sums of both gains.
#[derive(Clone, Copy)]
pub struct Sums {
    pub kept: u32,
    pub ideal: u32,
}

// The node with a number.
fn node_at(m: &[u8], u: usize) -> Node
    requires { (u < max_rows) × (store_bytes ≤ length m.now) }
    ensures { result ≡ node_in (row_at m.now u) }
{
    discovery::node_of(&store::row(m, u))
}

// A best edge of a label from one node to another, by the outcome noted for the other's pattern.
fn best_edge(
    rules: &Rules,
    from: usize,
    label: u8,
    to: usize,
    notes: &mut [u32; graph::NOTE_ROOM],
    m: &[u8],
) -> BestEdge
    requires ruled { Ruled rules.now }
    requires linking { Linking rules.now m.now from label to }
    ensures { (P : Plan) (next : List ℕ) (n : ℕ) (e : model.Edge) → Linked P rules.now next m.now n from label to e → StandsFor P from label to result }
{
    let node = node_at(m, from);
    let target = node_at(m, to);
    let wanted = target.taken;
    let noted = graph::reach(rules, &node, label, Some(wanted), notes);
    let ideal = graph::best_score(notes, wanted as usize) - 1;
    let masks = graph::best_masks(notes, rules.tasks.count);
    BestEdge {
        label,
        kept: u32::from(noted.done.gain),
        ideal,
        masks,
    }
}

// The node after the step i of k: the next step's, and after the last one the first step's.
fn next_node(m: &[u8], k: usize, i: usize) -> usize
    requires { (i < k) × (k ≤ max_steps) × (links_end ≤ length m.now) }
    ensures { result ≡ node_after m.now k i }
{
    if i + 1 == k {
        return links::step_at(m, 0).node;
    }
    links::step_at(m, i + 1).node
}

// A best edge of the step i of k.
fn step_edge(
    rules: &Rules,
    k: usize,
    i: usize,
    notes: &mut [u32; graph::NOTE_ROOM],
    m: &[u8],
) -> BestEdge
    requires ruled { Ruled rules.now }
    requires turning { Turning rules.now m.now k × (i < k) }
    ensures { (P : Plan) (next : List ℕ) (n v : ℕ) (es : List model.Edge) → Turns P rules.now next m.now n k v es → StandsFor P (taken_in m.now i).node (taken_in m.now i).label (node_after m.now k i) result }
{
    let step = links::step_at(m, i);
    let to = next_node(m, k, i);
    best_edge(rules, step.node, step.label, to, notes, m)
}

// The gains of a cycle of k steps.
pub fn gains(rules: &Rules, k: usize, notes: &mut [u32; graph::NOTE_ROOM], m: &[u8]) -> Sums
    requires ruled { Ruled rules.now }
    requires turning { Turning rules.now m.now k }
    ensures { (P : Plan) (next : List ℕ) (n v : ℕ) (es : List model.Edge) → Turns P rules.now next m.now n k v es → (result.kept ≡ walk_model.kept es) × (result.ideal ≡ walk_model.ideal es) }
{
    let mut kept = 0;
    let mut ideal = 0;
    for i in 0..k {
        let edge = step_edge(rules, k, i, notes, m);
        kept += edge.kept;
        ideal += edge.ideal;
    }
    Sums { kept, ideal }
}

// Writes the steps of a cycle of k steps from the place `at` on.
pub fn write_steps(
    rules: &Rules,
    k: usize,
    notes: &mut [u32; graph::NOTE_ROOM],
    m: &[u8],
    out: &mut [u8],
    at: usize,
)
    requires ruled { Ruled rules.now }
    requires turning { Turning rules.now m.now k × (at + step_size * k ≤ length out.old) }
    ensures { (P : Plan) (next : List ℕ) (n v : ℕ) (es : List model.Edge) → Turns P rules.now next m.now n k v es → Writes P m.now k v out.old at out.new }
{
    for i in 0..k {
        let edge = step_edge(rules, k, i, notes, m);
        certificate_bytes::write_step(out, at + certificate::STEP_SIZE * i, edge.label, edge.masks);
    }
}
