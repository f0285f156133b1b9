// Two plans over the same tasks as one that admits what both admit.
#![tactic(auto)]

ghost use Rattle.std.specs.Prelude.{◌≡◌, ◌≤◌, ◌<◌, length, replicate};
ghost use Rattle.model.specs.Limits.{max_tasks};
ghost use Rattle.model.specs.Edition.{plan_room};
ghost use Rattle.model.specs.Lists.{same_by};
ghost use Rattle.model.specs.Discovery.{add};
ghost use Rattle.model.specs.PlanBytes.{plan_bytes};
ghost use Rattle.model.specs.Combine.{same_pair, same_task, combine_in};
ghost use Rattle.refusals.specs.Told.{Told};
ghost use Rattle.plan.specs.View.{list_of, plan_of, StatesFit};
ghost use Rattle.combine.specs.Pairs.{state_pairs, pair_at, pair_in, pairs_in, pair_leads, Numbering, PairsKnown, LabelFollowed, PairExplored, IsProduct};
ghost use Rattle.combine.specs.Promise.{Combines};

use node::Node;
use plan::{Fault, Plan, TaskList};
use refusals::Refusal;

const MAX_STATES: usize = Node::MAX_STATES;

const STATES: u8 = MAX_STATES as u8;

// A state S of the first automaton and a state T of the second are the pair 16 S + T.
const STATE_PAIRS: usize = MAX_STATES * MAX_STATES;

// Whether two plans have the same tasks.
fn same_tasks(first: &TaskList, second: &TaskList) -> bool
    ensures { result ≡ same_by same_task (list_of first.now) (list_of second.now) }
{
    first.as_slice() == second.as_slice()
}

// The pair that a label leads to from a pair, if both automata admit the label.
fn lead(first: &[u8; plan::PAIRS], second: &[u8; plan::PAIRS], pair: u8, label: u8) -> Option<u8>
    requires { StatesFit first.now × StatesFit second.now }
    ensures { pair_in result ≡ pair_leads first.now second.now (pair_at pair) label }
{
    let s = plan::next_state(first, pair / STATES, label)?;
    let t = plan::next_state(second, pair % STATES, label)?;
    Some(STATES * s + t)
}

// A pair joins the n that are known unless it is among them. The number of pairs then, unless they are too many.
fn join(
    order: &mut [u8; MAX_STATES],
    numbers: &mut [u8; STATE_PAIRS],
    n: usize,
    pair: u8,
) -> Option<usize>
    requires { Numbering order.old numbers.old n }
    ensures { PairsKnown (add same_pair (pairs_in order.old n) (pair_at pair)) order.new numbers.new result }
{
    let at = pair as usize;
    if numbers[at] != 0 {
        return Some(n);
    }
    if n == MAX_STATES {
        return None;
    }
    order[n] = pair;
    let known = n + 1;
    numbers[at] = known as u8;
    Some(known)
}

// The number of pairs known, and the table's entry of a pair and a label: the number of the pair that it leads to and 1, or 0.
#[derive(Clone, Copy)]
struct Step {
    known: usize,
    entry: u8,
}

// Follows a label from a pair. The pair that it leads to, if any, joins the n that are known, unless they are too many then.
fn follow(
    first: &[u8; plan::PAIRS],
    second: &[u8; plan::PAIRS],
    pair: u8,
    label: u8,
    order: &mut [u8; MAX_STATES],
    numbers: &mut [u8; STATE_PAIRS],
    n: usize,
) -> Option<Step>
    requires { StatesFit first.now × StatesFit second.now × Numbering order.old numbers.old n }
    ensures { LabelFollowed first.now second.now (pair_at pair) label (pairs_in order.old n) order.new numbers.new result }
{
    let Some(to) = lead(first, second, pair, label) else {
        return Some(Step { known: n, entry: 0 });
    };
    let known = join(order, numbers, n, to)?;
    let entry = numbers[to as usize];
    Some(Step { known, entry })
}

// The number of pairs known, and the table's entries of a pair, by label.
#[derive(Clone, Copy)]
struct Row {
    known: usize,
    entries: [u8; plan::LABELS],
}

// Follows the labels of so many tasks from a pair, upward. The pairs that they lead to join the n that are known, unless they are too many then.
fn explore(
    first: &[u8; plan::PAIRS],
    second: &[u8; plan::PAIRS],
    tasks: &TaskList,
    pair: u8,
    order: &mut [u8; MAX_STATES],
    numbers: &mut [u8; STATE_PAIRS],
    n: usize,
) -> Option<Row>
    requires { StatesFit first.now × StatesFit second.now × Numbering order.old numbers.old n }
    ensures { PairExplored first.now second.now tasks.now.count (pair_at pair) (pairs_in order.old n) order.new numbers.new result }
{
    let mut entries = [0u8; plan::LABELS];
    let mut known = n;
    for label in 0..tasks.labels() {
        let step = follow(first, second, pair, label as u8, order, numbers, known)?;
        known = step.known;
        entries[label] = step.entry;
    }
    Some(Row { known, entries })
}

// The states of an automaton, and the table of their next states.
#[derive(Clone, Copy)]
struct Automaton {
    states: usize,
    next: [u8; plan::PAIRS],
}

// A table in which no pair has a number.
fn no_numbers() -> [u8; STATE_PAIRS]
    ensures { result ≡ replicate state_pairs 0 }
{
    [0; STATE_PAIRS]
}

// The automaton whose states are the reachable pairs of two others over so many tasks, by number, unless they are too many.
fn product(
    first: &[u8; plan::PAIRS],
    second: &[u8; plan::PAIRS],
    tasks: &TaskList,
) -> Option<Automaton>
    requires { StatesFit first.now × StatesFit second.now }
    ensures { IsProduct first.now second.now tasks.now.count result }
{
    let mut order = [0u8; MAX_STATES];
    let mut numbers = no_numbers();
    let mut next = plan::empty_table();
    let mut states = join(&mut order, &mut numbers, 0, 0)?;
    // Counted by hand: the number of states grows on the way.
    let mut k = 0;
    while k < states {
        let pair = order[k];
        let row = explore(first, second, tasks, pair, &mut order, &mut numbers, states)?;
        states = row.known;
        let entries = row.entries;
        words::copy(&entries, 0, &mut next, plan::LABELS * k, plan::LABELS);
        k += 1;
    }
    Some(Automaton { states, next })
}

// Writes the plan of both, or refuses different tasks and too many pairs.
fn combine_in(first: Plan, second: Plan, out: &mut [u8]) -> Result<usize, Refusal>
    requires { StatesFit first.next × StatesFit second.next × (plan_room ≤ length out.old) }
    ensures { Told plan_bytes (combine_in (plan_of first) (plan_of second)) out.old out.new result }
{
    if !same_tasks(&first.tasks, &second.tasks) {
        return Err(Refusal::Plan(Fault::OutOfRange));
    }
    let Some(both) = product(&first.next, &second.next, &first.tasks) else {
        return Err(Refusal::TooManyPairs);
    };
    let next = both.next;
    let written = Plan {
        tasks: first.tasks,
        policy: first.policy,
        states: both.states as u8,
        next,
    };
    Ok(plan_bytes::write(written, out))
}

// Writes the first plan's tasks and policy with an automaton that admits what both plans admit, for all bytes.
pub fn rewrite(first: &[u8], second: &[u8], out: &mut [u8]) -> Result<usize, Refusal>
    ensures { Combines first.now second.now out.old out.new result }
{
    if out.len() < plan_bytes::PLAN_ROOM {
        return Err(Refusal::ShortMemory);
    }
    let one = plan::read(first)?;
    let two = plan::read(second)?;
    combine_in(one, two, out)
}
