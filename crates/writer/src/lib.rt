// A certificate written from what the solver has found in lent memory.
#![tactic(auto)]

ghost use Rattle.std.specs.Prelude.{◌≡◌, List, ℕ, ◌+◌, ◌*◌, ◌≤◌, ◌<◌, length};
ghost use Rattle.model.specs.Bytes.{overwrite};
ghost use Rattle.model.specs.Graph.{Edge};
ghost use Rattle.model.specs.Limits.{max_nodes, certificate_room};
ghost use Rattle.model.specs.Plan.{Plan};
ghost use Rattle.certificate.specs.View.{head_size, potential_size, cycle_size, step_size};
ghost use Rattle.policy.specs.View.{Ruled};
ghost use Rattle.links.specs.Links.{links_end};
ghost use Rattle.circuit.specs.Circuit.{Turns, Turning};
ghost use Rattle.solution.specs.Solution.{Solving};
ghost use Rattle.writer.specs.Writer.{distances_in, potentials_bytes, WritesCycle, Writable, Written};

use policy::Rules;
use solution::Solution;

// Writes the distances of the first n nodes as potentials.
fn write_potentials(n: usize, m: &[u8], out: &mut [u8])
    requires { (n ≤ max_nodes) × (links_end ≤ length m.now) × (head_size + potential_size * n ≤ length out.old) }
    ensures { out.new ≡ overwrite out.old head_size (potentials_bytes (distances_in m.now n)) }
{
    for i in 0..n {
        let link = links::link_to(m, i);
        certificate_bytes::write_potential(out, i, link.distance);
    }
}

// Writes the node and the steps of a cycle of k steps from the place `at` on, and gives the place after them.
fn write_cycle(
    rules: &Rules,
    k: usize,
    notes: &mut [u32; graph::NOTE_ROOM],
    m: &[u8],
    out: &mut [u8],
    at: usize,
) -> usize
    requires ruled { Ruled rules.now }
    requires turning { Turning rules.now m.now k × (0 < k) × (at + cycle_size + step_size * k ≤ length out.old) }
    ensures value { result ≡ at + cycle_size + step_size * k }
    ensures writes_cycle { (P : Plan) (next : List ℕ) (n v : ℕ) (es : List Edge) → Turns P rules.now next m.now n k v es → WritesCycle P m.now k v out.old at out.new }
{
    let first = links::step_at(m, 0);
    certificate_bytes::write_cycle_head(out, at, first.node as u16);
    let from = at + certificate::CYCLE_SIZE;
    circuit::write_steps(rules, k, notes, m, out, from);
    from + certificate::STEP_SIZE * k
}

// Writes the certificate of a solution, and gives the number of its bytes.
pub fn write(
    rules: &Rules,
    n: usize,
    solution: Solution,
    notes: &mut [u32; graph::NOTE_ROOM],
    m: &[u8],
    out: &mut [u8],
) -> usize
    requires ruled { Ruled rules.now }
    requires writable { Writable rules.now m.now n solution × (links_end ≤ length m.now) × (certificate_room ≤ length out.old) }
    ensures { (P : Plan) (next : List ℕ) → Solving P rules.now next m.now n solution → Written P solution.passes out.old out.new result }
{
    certificate_bytes::write_head(out, solution.fraction, n as u16);
    write_potentials(n, m, out);
    let at = certificate::HEAD_SIZE + certificate::POTENTIAL_SIZE * n;
    let q = solution.fraction.q;
    if q == 0 {
        certificate_bytes::write_end(out, at);
        return at + 1;
    }
    let end = write_cycle(rules, solution.steps, notes, m, out, at);
    certificate_bytes::write_end(out, end);
    end + 1
}
