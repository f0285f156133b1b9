// The potentials of a certificate, tested against every edge of the graph.
#![tactic(auto)]

ghost use Rattle.std.specs.Prelude.{◌≡◌, ◌*◌, ◌<◌, ◌≤◌, pos};
ghost use Rattle.std.proofs.Math.Option.{some};
ghost use Rattle.std.specs.Int.Signed.{le_z};
ghost use Rattle.model.specs.Certificate.{Certificate, read_certificate};
ghost use Rattle.model.specs.Check.{edge_ok, edges_ok_from};
ghost use Rattle.model.specs.Graph.{edges, edges_at, nodes};
ghost use Rattle.model.specs.Limits.{max_q};
ghost use Rattle.model.specs.Lists.{all};
ghost use Rattle.model.specs.Plan.{Plan};
ghost use Rattle.policy.specs.View.{tasks_in};
ghost use Rattle.graph.specs.Outcomes.{NotesFree};
ghost use Rattle.graph.specs.Label.{order_in};
ghost use Rattle.graph.specs.View.{node_of};
ghost use Rattle.store.specs.Store.{row_at};
ghost use Rattle.discovery.specs.Discovery.{node_in};
ghost use Rattle.potentials.specs.Potentials.{Test, Testing, potential_of, Findable, Numbered, pattern_ok, Charged};

use discovery::Source;
use fraction::Fraction;
use graph::Noted;
use machine::Machine;
use node::Node;

// The fraction of a certificate, and the number of nodes.
#[derive(Clone, Copy)]
pub struct Claim {
    pub fraction: Fraction,
    pub n: usize,
}

// A gain at a price.
pub fn times(price: u32, gain: u32) -> i64
    requires { price ≤ max_q }
    ensures { result ≡ pos (price * gain) }
{
    (u64::from(price) * u64::from(gain)) as i64
}

// Whether the potential of a node is at most a bound.
fn target_holds(n: usize, s: &[u8], m: &[u8], to: &Node, bound: i64) -> bool
    requires { Findable s.now m.now n to.now }
    ensures { (c : Certificate) → read_certificate s.now ≡ some c → result ≡ le_z (potential_of c.potentials m.now n to.now) bound }
{
    let row = discovery::row_of(to);
    let v = store::find(m, n, &row).unwrap();
    certificate::potential(s, v) <= bound
}

// Whether the inequality holds on the noted outcomes, each a noted pattern with the policy's cells and the automaton's state: `high` is
// the potential of the edges' node with the policy's weight.
fn outcomes_hold(
    claim: Claim,
    s: &[u8],
    notes: &[u32; graph::NOTE_ROOM],
    m: &[u8],
    noted: &Noted,
    state: u8,
    high: i64,
) -> bool
    requires { Charged claim s.now notes.now m.now noted.now.count noted.now.done.cells state high }
    ensures { (c : Certificate) → read_certificate s.now ≡ some c → result ≡ all (pattern_ok claim c.potentials notes.now noted.now.count m.now noted.now.done.cells state high) (order_in notes.now noted.now.count) }
{
    let cells = noted.done.cells;
    for k in 0..noted.count {
        let taken = graph::noted_pattern(notes, noted.count, k);
        let gain = graph::best_score(notes, usize::from(taken)) - 1;
        let bound = high - times(claim.fraction.p, gain);
        let to = Node {
            cells,
            taken,
            state,
        };
        if !target_holds(claim.n, s, m, &to, bound) {
            return false;
        }
    }
    true
}

// Whether the inequality holds on the edges of a label from a node.
fn label_holds(
    claim: Claim,
    machine: &Machine,
    s: &[u8],
    from: Source,
    notes: &mut [u32; graph::NOTE_ROOM],
    m: &[u8],
) -> bool
    requires { Testing machine.now.rules machine.now.next m.now s.now claim × Numbered m.now claim.n from.number from.node }
    ensures value { (P : Plan) (c : Certificate) → Test P c machine.now.rules machine.now.next m.now s.now claim → result ≡ all (edge_ok (nodes P) claim.fraction.p claim.fraction.q c.potentials from.number) (edges_at P (node_of (tasks_in machine.now.rules) from.node) from.label) }
    ensures notes_free { NotesFree notes.old notes.new }
{
    let node = from.node;
    let Some(state) = machine.next(node.state, from.label) else {
        return true;
    };
    let noted = graph::reach(&machine.rules, &node, from.label, None, notes);
    let weight = times(claim.fraction.q, u32::from(noted.done.gain));
    let high = certificate::potential(s, from.number) + weight;
    outcomes_hold(claim, s, notes, m, &noted, state, high)
}

// Whether the inequality holds on the edges from the node in the row u, labels upward.
fn node_holds(
    claim: Claim,
    machine: &Machine,
    s: &[u8],
    u: usize,
    notes: &mut [u32; graph::NOTE_ROOM],
    m: &[u8],
) -> bool
    requires { Testing machine.now.rules machine.now.next m.now s.now claim × (u < claim.n) }
    ensures value { (P : Plan) (c : Certificate) → Test P c machine.now.rules machine.now.next m.now s.now claim → result ≡ all (edge_ok (nodes P) claim.fraction.p claim.fraction.q c.potentials u) (edges P (node_of (tasks_in machine.now.rules) (node_in (row_at m.now u)))) }
    ensures notes_free { NotesFree notes.old notes.new }
{
    let row = store::row(m, u);
    let node = discovery::node_of(&row);
    let labels = machine.rules.tasks.labels() as u8;
    for label in 0..labels {
        let from = Source {
            number: u,
            node,
            label,
        };
        if !label_holds(claim, machine, s, from, notes, m) {
            return false;
        }
    }
    true
}

// Whether the inequality holds on every edge, nodes by number.
pub fn edges_hold(
    claim: Claim,
    machine: &Machine,
    s: &[u8],
    notes: &mut [u32; graph::NOTE_ROOM],
    m: &[u8],
) -> bool
    requires { Testing machine.now.rules machine.now.next m.now s.now claim }
    ensures value { (P : Plan) (c : Certificate) → Test P c machine.now.rules machine.now.next m.now s.now claim → result ≡ edges_ok_from P (nodes P) claim.fraction.p claim.fraction.q c.potentials 0 (nodes P) }
    ensures notes_free { NotesFree notes.old notes.new }
{
    for u in 0..claim.n {
        if !node_holds(claim, machine, s, u, notes, m) {
            return false;
        }
    }
    true
}
