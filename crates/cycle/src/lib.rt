// The cycle of a certificate: its steps followed as edges of the graph.
#![tactic(auto)]

ghost use Rattle.std.specs.Prelude.{◌≡◌, ◌&&◌, ◌*◌, ◌<◌, eqb, ltb};
ghost use Rattle.model.specs.Edition.{long_reads};
ghost use Rattle.model.specs.Check.{cycle_ok};
ghost use Rattle.model.specs.Graph.{nodes};
ghost use Rattle.model.specs.Limits.{max_states};
ghost use Rattle.model.specs.Masks.{mask_count};
ghost use Rattle.model.specs.Plan.{Plan};
ghost use Rattle.plan.specs.View.{TableFits};
ghost use Rattle.certificate.specs.View.{certificate_of, IsRead};
ghost use Rattle.policy.specs.View.{cell_count, Cells, tasks_in};
ghost use Rattle.graph.specs.View.{Planned};
ghost use Rattle.discovery.specs.Discovery.{Holds, Held};
ghost use Rattle.cycle.specs.Cycle.{Followed};

use certificate::Parts;
use fraction::Fraction;
use machine::Machine;
use node::Node;

// Where steps lead, and the sums of both gains.
#[derive(Clone, Copy)]
struct Walked {
    at: Node,
    kept: u32,
    ideal: u32,
}

// Where the steps of a certificate lead from a node, if they are edges.
fn follow(machine: &Machine, s: &[u8], parts: Parts, from: Node) -> Option<Walked>
    requires read { IsRead long_reads s.now parts }
    requires table { TableFits machine.now.next machine.now.rules.tasks.count }
    requires cells { Cells (tasks_in machine.now.rules) cell_count from.cells × (from.state < max_states) × (from.taken < mask_count) }
    ensures { Followed machine.now.next machine.now.rules (certificate_of long_reads s.now parts).steps from result }
{
    let mut at = from;
    let mut kept = 0;
    let mut ideal = 0;
    for j in 0..parts.steps {
        let label = certificate::step_label(s, parts, j);
        let masks = certificate::step_masks(s, parts, j);
        let edge = graph::edge_by(machine, &at, label, masks)?;
        at = edge.to;
        kept += u32::from(edge.kept);
        ideal += edge.ideal;
    }
    Some(Walked { at, kept, ideal })
}

// Whether the sums of a cycle are in the ratio p/q, the clairvoyant's above 0.
fn is_tight(fraction: Fraction, kept: u32, ideal: u32) -> bool
    ensures { result ≡ (ltb 0 ideal && eqb (fraction.p * ideal) (fraction.q * kept)) }
{
    0 < ideal && u64::from(fraction.p) * u64::from(ideal) == u64::from(fraction.q) * u64::from(kept)
}

// Whether the steps are edges from the named node back to it, in the ratio of the fraction.
pub fn holds(machine: &Machine, s: &[u8], parts: Parts, m: &[u8], n: usize) -> bool
    requires { Held machine.now.rules machine.now.next m.now n × IsRead long_reads s.now parts }
    ensures { (P : Plan) → Planned P machine.now.rules machine.now.next → Holds P (tasks_in machine.now.rules) m.now n → result ≡ cycle_ok P (nodes P) (certificate_of long_reads s.now parts) }
{
    if parts.fraction.q == 0 {
        return true;
    }
    if n <= parts.node {
        return false;
    }
    let row = store::row(m, parts.node);
    let from = discovery::node_of(&row);
    let Some(walked) = follow(machine, s, parts, from) else {
        return false;
    };
    let end = discovery::row_of(&walked.at);
    store::same_row(m, parts.node, &end) && is_tight(parts.fraction, walked.kept, walked.ideal)
}
