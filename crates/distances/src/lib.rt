// The search for the distances of a plan's nodes at a fraction: passes over the edges, until none gives a smaller distance or a cycle is
// found that costs less than 0.
#![tactic(auto)]

ghost use Rattle.std.specs.Prelude.{◌≡◌, true, not, ◌||◌, ◌<◌};
ghost use Rattle.std.specs.Int.Signed.{lt_z};
ghost use Rattle.model.specs.Plan.{Plan};
ghost use Rattle.potentials.specs.Potentials.{Numbered};
ghost use Rattle.links.specs.Links.{is_known, is_waiting, state_in};
ghost use Rattle.distances.specs.Distances.{Priced, Pricing, Sought, Seeking, Offer, Offered, Relaxes, high_of, Offers, Offering, RelaxesOne, RelaxesAll, RelaxesLabel, RelaxesNode, Passes, one_more, Settles};

use discovery::Source;
use links::{Link, Mark};
use machine::Machine;
use node::Node;
use potentials::Claim;

// Where a label leads from a numbered node: so many noted patterns, each with the policy's cells and gain and the automaton's state.
#[derive(Clone, Copy)]
struct Outcomes {
    number: usize,
    label: u8,
    count: usize,
    cells: [u8; policy::CELLS],
    state: u8,
    kept: u32,
}

// Whether a distance is smaller than that of a link, or the first.
fn is_shorter(link: Link, z: i64) -> bool
    ensures { result ≡ (not (is_known link.mark) || lt_z z link.distance) }
{
    link.mark == Mark::Unknown || z < link.distance
}

// Whether the edges of a node are still to be tried, by its mark.
fn waits(mark: Mark) -> bool
    ensures { result ≡ is_waiting mark }
{
    mark == Mark::Waiting
}

// What trying edges answers, here and below: whether a distance has moved, or the steps of a cycle that was found.

// Tries the edge of a label from u to v, by which v is at the distance z.
fn relax(m: &mut [u8], u: usize, label: u8, v: usize, z: i64) -> Result<bool, usize>
    requires { Offered m.old u label v z }
    ensures { (P : Plan) (claim : Claim) → Offer P claim m.old u label v z → Relaxes P claim u v z m.old m.new result }
{
    if !is_shorter(links::link_to(m, v), z) {
        return Ok(false);
    }
    if let Some(j) = links::way_up(m, u, v) {
        links::put_cycle(m, u, label, j);
        return Err(j + 1);
    }
    links::put_link(
        m,
        v,
        Link {
            distance: z,
            parent: u,
            label,
            mark: Mark::Waiting,
        },
    );
    Ok(true)
}

// Tries the k-th noted outcome of a label: `high` is the distance of the node it leaves, with the policy's weight.
fn relax_outcome(
    claim: Claim,
    out: Outcomes,
    high: i64,
    k: usize,
    notes: &[u32; graph::NOTE_ROOM],
    m: &mut [u8],
) -> Result<bool, usize>
    requires { Offering claim m.old notes.now out × (k < out.count) × (high ≡ high_of claim m.old out) }
    ensures { (P : Plan) → Offers P claim m.old notes.now out → RelaxesOne P claim out k notes.now m.old m.new result }
{
    let taken = graph::noted_pattern(notes, out.count, k);
    let gain = graph::best_score(notes, taken as usize) - 1;
    let z = high - potentials::times(claim.fraction.p, gain);
    let cells = out.cells;
    let node = Node {
        cells,
        taken,
        state: out.state,
    };
    let v = store::find(m, claim.n, &discovery::row_of(&node)).unwrap();
    relax(m, out.number, out.label, v, z)
}

// Tries the noted outcomes of a label.
fn relax_outcomes(
    claim: Claim,
    out: &Outcomes,
    notes: &[u32; graph::NOTE_ROOM],
    m: &mut [u8],
) -> Result<bool, usize>
    requires { Offering claim m.old notes.now out.now }
    ensures { (P : Plan) → Offers P claim m.old notes.now out.now → RelaxesAll P claim out.now notes.now m.old m.new result }
{
    let from = links::link_to(m, out.number);
    let high = from.distance + potentials::times(claim.fraction.q, out.kept);
    let mut moved = false;
    for k in 0..out.count {
        moved |= relax_outcome(claim, *out, high, k, notes, m)?;
    }
    Ok(moved)
}

// Tries the edges of a label from the source.
fn relax_label(
    claim: Claim,
    machine: &Machine,
    source: &Source,
    notes: &mut [u32; graph::NOTE_ROOM],
    m: &mut [u8],
) -> Result<bool, usize>
    requires { Seeking machine.now.rules machine.now.next m.old claim × Numbered m.old claim.n source.now.number source.now.node × ((state_in m.old).known source.now.number ≡ true) }
    ensures { (P : Plan) → Sought P machine.now.rules machine.now.next m.old claim → RelaxesLabel P claim source.now.number source.now.label m.old m.new result }
{
    let Some(state) = machine.next(source.node.state, source.label) else {
        return Ok(false);
    };
    let noted = graph::reach(&machine.rules, &source.node, source.label, None, notes);
    let done = noted.done;
    let cells = done.cells;
    let out = Outcomes {
        number: source.number,
        label: source.label,
        count: noted.count,
        cells,
        state,
        kept: u32::from(done.gain),
    };
    relax_outcomes(claim, &out, notes, m)
}

// Tries the edges of the node numbered u, labels upward, if it waits.
fn relax_node(
    claim: Claim,
    machine: &Machine,
    u: usize,
    notes: &mut [u32; graph::NOTE_ROOM],
    m: &mut [u8],
) -> Result<bool, usize>
    requires { Seeking machine.now.rules machine.now.next m.old claim × (u < claim.n) }
    ensures { (P : Plan) → Sought P machine.now.rules machine.now.next m.old claim → RelaxesNode P claim u m.old m.new result }
{
    if !waits(links::link_to(m, u).mark) {
        return Ok(false);
    }
    let node = discovery::node_of(&store::row(m, u));
    let mut moved = false;
    for label in 0..machine.rules.tasks.labels() as u8 {
        let source = Source {
            number: u,
            node,
            label,
        };
        moved |= relax_label(claim, machine, &source, notes, m)?;
    }
    links::set_mark(m, u, Mark::Tried);
    Ok(moved)
}

// Tries the edges of every node that waits, nodes by number.
fn pass(
    claim: Claim,
    machine: &Machine,
    notes: &mut [u32; graph::NOTE_ROOM],
    m: &mut [u8],
) -> Result<bool, usize>
    requires { Seeking machine.now.rules machine.now.next m.old claim }
    ensures { (P : Plan) → Sought P machine.now.rules machine.now.next m.old claim → Passes P claim m.old m.new result }
{
    let mut moved = false;
    for u in 0..claim.n {
        moved |= relax_node(claim, machine, u, notes, m)?;
    }
    Ok(moved)
}

// One pass more, counted as far as a plan may have nodes: a search that comes to rest has no more passes than nodes.
fn counted(passes: usize) -> usize
    ensures { result ≡ one_more passes }
{
    if passes < Node::MAX_NODES {
        passes + 1
    } else {
        passes
    }
}

// Finds the distances of all nodes, and gives the number of passes; or the steps of a cycle that costs less than 0.
pub fn settle(
    claim: Claim,
    machine: &Machine,
    notes: &mut [u32; graph::NOTE_ROOM],
    m: &mut [u8],
) -> Result<usize, usize>
    requires { Pricing machine.now.rules machine.now.next m.old claim }
    ensures { (P : Plan) → Priced P machine.now.rules machine.now.next m.old claim → Settles P claim m.old m.new result }
{
    links::begin(m);
    let mut passes = 1;
    // No `for`: passes go on until none moves a distance.
    while pass(claim, machine, notes, m)? {
        passes = counted(passes);
    }
    Ok(passes)
}
