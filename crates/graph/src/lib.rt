// The graph of a plan: where a label leads from a node.
#![tactic(auto)]

ghost use Rattle.std.specs.Prelude.{◌≡◌, cond, [], ◌∷◌, ℕ, suc, Some, ◌+◌, ◌-◌, ◌*◌, ◌/◌, ◌%◌, ◌^◌, ◌≤◌, ◌<◌, eqb, length, get_or, drop, replicate};
ghost use Rattle.model.specs.Limits.{max_tasks, max_window, max_value, max_states};
ghost use Rattle.model.specs.Lists.{any, up_from, bit};
ghost use Rattle.model.specs.Masks.{mask_count, mask_table};
ghost use Rattle.words.specs.Packed.{field_base, unpacked};
ghost use Rattle.plan.specs.View.{task_view, TableFits};
ghost use Rattle.masks.specs.Clear.{Lists};
ghost use Rattle.policy.specs.View.{cell_count, Cells, tasks_in, InRange, Ruled};
ghost use Rattle.graph.specs.Outcomes.{pattern_count, outcomes, outcome_in, lists_at, list_place, note_room, masks_in, pattern_in, notes_in, with_masks, Room, Noting, Cleared};
ghost use Rattle.graph.specs.Offers.{span_of, masks_offered, OffersFit, OffersOf, offered, Carries};
ghost use Rattle.graph.specs.Choice.{chosen_with, choice_of, led_of, LeadFits, fits_task, all_zero};
ghost use Rattle.graph.specs.Edge.{Stepped};
ghost use Rattle.graph.specs.Label.{wanted_in, Readable, ReachesBelow};
ghost use Rattle.graph.specs.declared.Chosen.{Chosen};
ghost use Rattle.graph.specs.declared.Span.TheVariants.{Runs};

use machine::Machine;
use node::Node;
use plan::Task;
use policy::{Done, Rules};

const MAX_TASKS: usize = Node::MAX_TASKS;

// Notes, numbers in one array: for each pattern the score of its best outcome, a gain and 1, 0 for no outcome; the packed masks of
// the best outcome of one pattern, in two numbers; the patterns in the order of their discovery; and a list of masks for each task. They are
// one array, and no struct of arrays, since the crates above lend them on as one and say of it what is free (`NotesFree`).
const MASKS_AT: usize = Node::PATTERNS;

const ORDER_AT: usize = MASKS_AT + 2;

const LISTS_AT: usize = ORDER_AT + Node::PATTERNS;

pub const NOTE_ROOM: usize = LISTS_AT + MAX_TASKS * masks::COUNT;

// A packed mask takes sixteen bits.
const MASK_BASE: u64 = 65536;

const WORD: u64 = 4294967296;

// Masks for a task: those of the table from `at` up to `end`, or so many runs from the first up, each twice the one before.
#[derive(Clone, Copy)]
enum Span {
    Table { at: usize, end: usize },
    Runs { first: u32, count: usize },
}

// What a label offers a task, and the task's value.
#[derive(Clone, Copy)]
struct Offer {
    span: Span,
    value: u32,
}

// What a label offers each task of a plan, and the pattern whose masks are wanted, if one is.
#[derive(Clone, Copy)]
struct Offers {
    offers: [Offer; MAX_TASKS],
    count: usize,
    wanted: Option<u16>,
}

fn is_released(label: u8, i: usize) -> bool
    requires { i < max_tasks }
    ensures { result ≡ bit label i }
{
    (label >> i) % 2 == 1
}

// The runs of a task's work within its window.
fn runs_of(task: Task) -> Span
    requires { InRange (task_view task) }
    ensures { result ≡ Runs (2 ^ task.work - 1) (suc (task.window - task.work)) }
{
    let work = usize::from(task.work);
    let window = usize::from(task.window);
    let first = (1u32 << work) - 1;
    let count = window - work + 1;
    Span::Runs { first, count }
}

// The masks of a task's work within its window: where they stand in the table, or its runs; none if it is not released.
fn span_of(task: Task, released: bool) -> Span
    requires { InRange (task_view task) }
    ensures { result ≡ span_of (task_view task) released }
{
    if !released {
        return Span::Table { at: 0, end: 0 };
    }
    if task.locked {
        return runs_of(task);
    }
    let work = usize::from(task.work);
    let window = usize::from(task.window);
    let at = masks::group_start(work);
    let end = masks::group_end(work, window);
    Span::Table { at, end }
}

// What a label offers.
fn offers_of(rules: &Rules, label: u8, wanted: Option<u16>) -> Offers
    requires { Ruled rules.now }
    ensures { OffersOf (tasks_in rules.now) label wanted result }
{
    let count = rules.tasks.count;
    let none = Offer {
        span: Span::Table { at: 0, end: 0 },
        value: 0,
    };
    let mut offers = [none; MAX_TASKS];
    for i in 0..count {
        let task = rules.tasks.get(i);
        let span = span_of(task, is_released(label, i));
        offers[i] = Offer {
            span,
            value: u32::from(task.value),
        };
    }
    Offers {
        offers,
        count,
        wanted,
    }
}

// Writes the masks of an outcome, if its pattern is wanted.
fn put_masks(notes: &mut [u32; NOTE_ROOM], pattern: u16, wanted: Option<u16>, masks: u64)
    requires { pattern < pattern_count }
    ensures { notes.new ≡ with_masks (eqb pattern (wanted_in wanted)) masks notes.old }
{
    if wanted != Some(pattern) {
        return;
    }
    notes[MASKS_AT] = (masks / WORD) as u32;
    notes[MASKS_AT + 1] = (masks % WORD) as u32;
}

// Notes an outcome: the greatest gain of a pattern, and the masks of the first outcome that has it.
fn note(
    notes: &mut [u32; NOTE_ROOM],
    count: usize,
    wanted: Option<u16>,
    pattern: u16,
    gain: u32,
    masks: u64,
) -> usize
    requires { Room notes.old count × (pattern < pattern_count) × (gain ≤ max_tasks * max_value) }
    ensures { Noting (wanted_in wanted) (outcome_in pattern gain masks ∷ []) note_room notes.old count notes.new result }
{
    let at = pattern as usize;
    let score = notes[at];
    if gain < score {
        return count;
    }
    notes[at] = gain + 1;
    put_masks(notes, pattern, wanted, masks);
    if score != 0 {
        return count;
    }
    notes[ORDER_AT + count] = pattern as u32;
    count + 1
}

// Lists the masks that a label offers a task, clear of a pattern, and gives the place after them.
fn list_masks(
    table: &[u16; masks::COUNT],
    offers: &Offers,
    task: usize,
    pattern: u32,
    notes: &mut [u32; NOTE_ROOM],
    from: usize,
) -> usize
    requires { (table.now ≡ mask_table) × OffersFit offers.now × (task < offers.now.count) × (from + mask_count ≤ length notes.old) }
    ensures { Lists (masks_offered offers.now task pattern) mask_count from notes.old notes.new result }
{
    match offers.offers[task].span {
        Span::Table { at, end } => masks::list_clear(table, at, end, pattern, notes, from),
        Span::Runs { first, count } => masks::list_runs(first, count, pattern, notes, from),
    }
}

// Notes the outcomes of the choices for the tasks from one on, with the pattern, the gain and the masks of those before it: first
// with no mask for it, then with each mask that the label offers it. The pattern moves down one place once all masks have joined it.
fn note_task(
    table: &[u16; masks::COUNT],
    offers: &Offers,
    task: usize,
    pattern: u32,
    gain: u32,
    masks: u64,
    notes: &mut [u32; NOTE_ROOM],
    count: usize,
) -> usize
    requires { (table.now ≡ mask_table) × OffersFit offers.now × Carries offers.now task pattern gain masks × Room notes.old count }
    ensures { Noting (wanted_in offers.now.wanted) (offered offers.now (offers.now.count - task) task pattern gain masks) (list_place task) notes.old count notes.new result }
{
    if task == offers.count {
        return note(
            notes,
            count,
            offers.wanted,
            (pattern >> 1) as u16,
            gain,
            masks,
        );
    }
    let next = task + 1;
    let moved = masks * MASK_BASE;
    let mut known = note_task(table, offers, next, pattern, gain, moved, notes, count);
    let from = LISTS_AT + task * masks::COUNT;
    let to = list_masks(table, offers, task, pattern, notes, from);
    let more = gain + offers.offers[task].value;
    for at in from..to {
        let m = notes[at];
        let joined = moved + u64::from(m);
        known = note_task(table, offers, next, pattern | m, more, joined, notes, known);
    }
    known
}

// Room for notes.
pub fn note_space() -> [u32; NOTE_ROOM]
    ensures { result ≡ replicate note_room 0 }
{
    [0; NOTE_ROOM]
}

// Clears the scores and the masks.
fn clear_notes(notes: &mut [u32; NOTE_ROOM])
    ensures { Cleared notes.old notes.new }
{
    notes[..ORDER_AT].fill(0);
}

// The score noted for a pattern.
pub fn best_score(notes: &[u32; NOTE_ROOM], pattern: usize) -> u32
    requires { (pattern < pattern_count) }
    ensures { (count : ℕ) → result ≡ get_or (notes_in notes.now count).scores pattern 0 }
{
    notes[pattern]
}

// The masks noted for the wanted pattern, by a plan of so many tasks: 0 for a task that it lacks.
pub fn best_masks(notes: &[u32; NOTE_ROOM], tasks: usize) -> u64
    requires { (1 ≤ tasks) × (tasks ≤ max_tasks) × (masks_in notes.now < field_base ^ tasks) }
    ensures { result ≡ masks_in notes.now * field_base ^ (max_tasks - tasks) }
{
    let masks = u64::from(notes[MASKS_AT]) * WORD + u64::from(notes[MASKS_AT + 1]);
    masks << (16 * (MAX_TASKS - tasks))
}

// The k-th pattern in the order of the notes.
pub fn noted_pattern(notes: &[u32; NOTE_ROOM], count: usize, k: usize) -> u16
    requires { Readable notes.now count × (k < count) }
    ensures { (result ≡ pattern_in notes.now k) × (result < pattern_count) }
{
    notes[ORDER_AT + k] as u16
}

// Notes the outcomes of a label's choices from a pattern of taken slots; so many patterns are noted.
fn note_choices(
    rules: &Rules,
    taken: u16,
    label: u8,
    wanted: Option<u16>,
    notes: &mut [u32; NOTE_ROOM],
) -> usize
    requires ruled { Ruled rules.now }
    requires room { (taken < mask_count) × Room notes.old 0 }
    ensures { Noting (wanted_in wanted) (outcomes (tasks_in rules.now) label taken) lists_at notes.old 0 notes.new result }
{
    let table = masks::table();
    let offers = offers_of(rules, label, wanted);
    note_task(&table, &offers, 0, taken as u32, 0, 0, notes, 0)
}

// What a label does at a node: the policy's slot, and so many patterns are noted.
#[derive(Clone, Copy)]
pub struct Noted {
    pub done: Done,
    pub count: usize,
}

// Notes where the label's choices lead from a node, beside the policy's slot, with the masks of the wanted pattern, if one is.
pub fn reach(
    rules: &Rules,
    node: &Node,
    label: u8,
    wanted: Option<u16>,
    notes: &mut [u32; NOTE_ROOM],
) -> Noted
    requires ruled { Ruled rules.now }
    requires node { Cells (tasks_in rules.now) cell_count node.now.cells × (node.now.taken < mask_count) }
    ensures { ReachesBelow rules.now node.now label (wanted_in wanted) notes.old notes.new result }
{
    let done = policy::slot(rules, &node.cells, label);
    clear_notes(notes);
    let count = note_choices(rules, node.taken, label, wanted, notes);
    Noted { done, count }
}

// A pattern, and the gain with it: of masks for the first tasks, or where a choice leads.
#[derive(Clone, Copy)]
struct Chosen {
    pattern: u16,
    gain: u32,
}

// The gain of a mask for a task.
fn worth(task: Task, m: u16) -> u32
    ensures { result ≡ cond (eqb m 0) 0 task.value }
{
    if m == 0 {
        return 0;
    }
    u32::from(task.value)
}

// A mask for the next task joins.
fn with_mask(chosen: Chosen, task: Task, m: u16) -> Chosen
    requires { (chosen.gain ≤ (max_tasks - 1) * max_value) × (task.value ≤ max_value) }
    ensures { result ≡ chosen_with (task_view task) chosen m }
{
    let gain = chosen.gain + worth(task, m);
    Chosen {
        pattern: chosen.pattern | m,
        gain,
    }
}

// Whether a mask is a run of neighbouring bits, moved up by fewer than so many places.
fn is_run(m: u32, run: u32, places: usize) -> bool
    requires { (run * 2 ^ places < 2 ^ 32) × (places ≤ 32) }
    ensures { result ≡ any (λ k. eqb m (run * 2 ^ k)) (up_from 0 places) }
{
    for k in 0..places {
        if m == run << k {
            return true;
        }
    }
    false
}

// Whether a mask is one for a task: 0, or, if the task is released, ones for its work within its
// window, clear of the pattern, and side by side if the task is locked.
fn fits(task: Task, released: bool, pattern: u16, m: u16) -> bool
    requires { task.window ≤ max_window }
    ensures { result ≡ fits_task (task_view task) released pattern m }
{
    if m == 0 {
        return true;
    }
    if !released {
        return false;
    }
    let wide = m as u32;
    if wide >> task.window != 0 {
        return false;
    }
    if u32::count_ones(wide) != task.work as u32 {
        return false;
    }
    if m & pattern != 0 {
        return false;
    }
    if !task.locked {
        return true;
    }
    let run = (1u32 << task.work) - 1;
    is_run(wide, run, task.window as usize + 1)
}

// The i-th of four packed masks.
fn mask_at(masks: u64, i: usize) -> u16
    requires { i < max_tasks }
    ensures { result ≡ get_or (unpacked masks) i 0 }
{
    ((masks >> (16 * (MAX_TASKS - 1 - i))) % MASK_BASE) as u16
}

// Whether the packed masks from a place on are 0.
fn are_zero(masks: u64, from: usize) -> bool
    requires { from ≤ max_tasks }
    ensures { result ≡ all_zero (drop from (unpacked masks)) }
{
    for i in from..MAX_TASKS {
        if mask_at(masks, i) != 0 {
            return false;
        }
    }
    true
}

// Where the label's choice with the given masks, packed, leads, if there is one.
fn choice(machine: &Machine, taken: u16, label: u8, masks: u64) -> Option<Chosen>
    requires { taken < mask_count }
    ensures led { led_of result ≡ choice_of (tasks_in machine.now.rules) label taken (unpacked masks) }
    ensures fits { (c : Chosen) → result ≡ Some c → LeadFits c }
{
    let count = machine.rules.tasks.count;
    let mut chosen = Chosen {
        pattern: taken,
        gain: 0,
    };
    for i in 0..count {
        let task = machine.rules.tasks.get(i);
        let released = is_released(label, i);
        let m = mask_at(masks, i);
        if !fits(task, released, chosen.pattern, m) {
            return None;
        }
        chosen = with_mask(chosen, task, m);
    }
    if !are_zero(masks, count) {
        return None;
    }
    Some(Chosen {
        pattern: chosen.pattern >> 1,
        gain: chosen.gain,
    })
}

// An edge: where it leads, and both gains.
#[derive(Clone, Copy)]
pub struct Edge {
    pub to: Node,
    pub kept: u16,
    pub ideal: u32,
}

// The edge of a node with a label and packed masks, if there is one. What is asked of the node goes by the plan's tasks, so no type of it says that.
pub fn edge_by(machine: &Machine, node: &Node, label: u8, masks: u64) -> Option<Edge>
    requires table { TableFits machine.now.next machine.now.rules.tasks.count }
    requires node { Cells (tasks_in machine.now.rules) cell_count node.now.cells × (node.now.state < max_states) × (node.now.taken < mask_count) }
    ensures { Stepped machine.now.next machine.now.rules node.now label (unpacked masks) result }
{
    let state = machine.next(node.state, label)?;
    let lead = choice(machine, node.taken, label, masks)?;
    let done = policy::slot(&machine.rules, &node.cells, label);
    let cells = done.cells;
    let to = Node {
        cells,
        taken: lead.pattern,
        state,
    };
    Some(Edge {
        to,
        kept: done.gain,
        ideal: lead.gain,
    })
}
