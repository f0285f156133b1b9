// The smallest fraction of a plan, by cycles that cost less than 0 until there is none.
#![tactic(auto)]

ghost use Rattle.std.specs.Prelude.{List, ℕ, ◌+◌, ◌≤◌, length};
ghost use Rattle.model.specs.Plan.{Plan};
ghost use Rattle.policy.specs.View.{tasks_in};
ghost use Rattle.graph.specs.View.{Planned};
ghost use Rattle.discovery.specs.Discovery.{Holds, Held};
ghost use Rattle.model.specs.Bytes.{Only};
ghost use Rattle.links.specs.Links.{links_at, links_size, steps_size, links_end};
ghost use Rattle.solution.specs.Solution.{Circling, Circled, Lowers, Solving};

use fraction::Fraction;
use machine::Machine;
use potentials::Claim;

// A fraction, the steps of the cycle that attains it, 0 for 1/0, and the number of passes for it. No `Option` for the steps: `Solving` says
// of 1/0 that they are 0.
#[derive(Clone, Copy, Debug, PartialEq, Eq)]
pub struct Solution {
    pub fraction: Fraction,
    pub steps: usize,
    pub passes: usize,
}

// The fraction that the cycle of so many steps attains.
fn attained(
    machine: &Machine,
    steps: usize,
    notes: &mut [u32; graph::NOTE_ROOM],
    m: &[u8],
) -> Fraction
    requires { Circled machine.now.rules m.now steps × (links_end ≤ length m.now) }
    ensures { (P : Plan) (next : List ℕ) (claim : Claim) → Circling P machine.now.rules next m.now claim steps → Lowers P claim m.now steps result }
{
    let sums = circuit::gains(&machine.rules, steps, notes, m);
    Fraction::lowest(sums.kept, sums.ideal)
}

// The smallest fraction of the plan whose n nodes are in the store, from 1/0 down.
pub fn least(
    machine: &Machine,
    n: usize,
    notes: &mut [u32; graph::NOTE_ROOM],
    m: &mut [u8],
) -> Solution
    requires { Held machine.now.rules machine.now.next m.old n × (links_end ≤ length m.old) }
    ensures solving { (P : Plan) → Planned P machine.now.rules machine.now.next → Holds P (tasks_in machine.now.rules) m.old n → Solving P machine.now.rules machine.now.next m.new n result }
    ensures only { Only links_at (links_size + steps_size) m.old m.new }
{
    let mut fraction = Fraction { p: 1, q: 0 };
    let mut steps = 0;
    // No `for`: each cycle lowers the fraction, until none is found.
    loop {
        match distances::settle(Claim { fraction, n }, machine, notes, m) {
            Ok(passes) => {
                return Solution {
                    fraction,
                    steps,
                    passes,
                };
            }
            Err(found) => {
                fraction = attained(machine, found, notes, m);
                steps = found;
            }
        }
    }
}
