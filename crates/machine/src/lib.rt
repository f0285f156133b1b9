// A plan as its slots go: the policy's rules, and the automaton's table of next states.
#![tactic(auto)]

ghost use Rattle.plan.specs.View.{StatesFit};
ghost use Rattle.policy.specs.View.{Ruled};

use plan::Plan;
use policy::Rules;

// The rules are a plan's, and the table leads to states.
#[derive(Clone, Copy)]
pub struct Machine {
    pub rules: Rules,
    pub next: [u8; plan::PAIRS],
    pub ghost ruled: { Ruled rules },
    pub ghost states: { StatesFit next },
}

impl Machine {
    ghost use Rattle.std.specs.Prelude.{◌≡◌, ◌<◌};
    ghost use Rattle.model.specs.Limits.{max_states};
    ghost use Rattle.model.specs.Options.{option_of};
    ghost use Rattle.model.specs.Plan.{IsSound, next_in};
    ghost use Rattle.plan.specs.View.{arcs_in, plan_of};
    ghost use Rattle.machine.specs.Machine.{MachineOf};

    // The machine of a plan.
    pub fn of(plan: Plan) -> Machine
        requires { IsSound (plan_of plan) }
        ensures { MachineOf plan result }
    {
        let next = plan.next;
        let rules = policy::rules_of(plan);
        Machine { rules, next }
    }

    // The state that a label leads to, if it is admitted.
    pub fn next(&self, state: u8, label: u8) -> Option<u8>
        requires { state < max_states }
        ensures { option_of result ≡ next_in (arcs_in self.now.next) state label }
    {
        plan::next_state(&self.next, state, label)
    }
}
