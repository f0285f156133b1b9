// The plan reader: plan bytes in, the plan as a struct by value out, or the fault.
#![tactic(auto)]

mod tasks; // tasks.rt: a plan, and its tasks

ghost use Rattle.std.specs.Prelude.{◌≡◌, ℕ, ◌+◌, ◌*◌, ◌^◌, ◌<◌, ◌≤◌, [], get_or, map, ◌⊎◌, true, false, MatchResult};
ghost use Rattle.model.specs.Bytes.{number};
ghost use Rattle.model.specs.Options.{option_of};
ghost use Rattle.model.specs.Lists.{up_from};
ghost use Rattle.model.specs.Plan.{next_in, unknown, width, last_operand, may_follow, between, task_in_range, arc_in_range, in_range, at_end, read_plan, read_plan_in};
ghost use Rattle.node.specs.Edition.{edition_of};
ghost use Rattle.model.specs.Limits.{max_states};
ghost use Rattle.plan.specs.View.{fault_number, command_number, answer_of, reading_of, NothingRead, empty_table, arcs_in, label_count, rises_in, fault_here, Legible, IsOperation, Within, Readable, Reads};

use node::{Edition, Node};
pub use tasks::{Plan, Task, TaskList};

const MAX_TASKS: usize = Node::MAX_TASKS;

const MAX_STATES: u8 = Node::MAX_STATES as u8;

// The labels of a state stand side by side in the table of next states.
pub const LABELS: usize = 1 << MAX_TASKS;

pub const PAIRS: usize = Node::MAX_STATES * LABELS;

// Faults of a plan: bytes that end too early, an unknown command, a command out of place, an operand
// out of range.
#[derive(Clone, Copy, Debug, PartialEq, Eq)]
pub enum Fault {
    BytesEnd = 1,
    UnknownCommand = 2,
    OutOfPlace = 3,
    OutOfRange = 4,
}

impl Fault {
    // The number of the refusal.
    pub fn number(self) -> u64
        ensures { result ≡ fault_number self }
    {
        self as u64
    }
}

// The commands of a plan's bytes.
#[derive(Clone, Copy, Debug, PartialEq, Eq)]
enum Command {
    Task = 1,
    Policy = 2,
    States = 3,
    Arc = 4,
    End = 5,
    Lock = 9,
}

// A command with its operands. The bytes stand for x and y whether the command has them or not; z is 0 where it has none.
#[derive(Clone, Copy)]
struct Operation {
    command: Command,
    x: u8,
    y: u8,
    z: u16,
}

// What the commands read so far say: `lock` is the number of the last task locked, 0 for none; the next arc's 16 S + L must be `least` or more.
#[derive(Clone, Copy)]
struct Reading {
    tasks: TaskList,
    lock: u8,
    policy: Option<u8>,
    states: Option<u8>,
    least: usize,
    ended: bool,
}

// The command that a byte is in an edition.
fn command_of(edition: Edition, c: u8) -> Result<Command, Fault>
    ensures { MatchResult result (λ k. (command_number k ≡ c) × (unknown (edition_of edition) c ≡ false)) (λ f. (f ≡ Fault.UnknownCommand) × (unknown (edition_of edition) c ≡ true)) }
{
    match c {
        1 => Ok(Command::Task),
        2 => Ok(Command::Policy),
        3 => Ok(Command::States),
        4 => Ok(Command::Arc),
        5 => Ok(Command::End),
        9 if edition.locks => Ok(Command::Lock),
        _ => Err(Fault::UnknownCommand),
    }
}

// How many bytes a command takes.
#[tactic(auto, unfolding(model::specs::Plan::width))]
fn width_of(edition: Edition, c: Command) -> usize
    requires { Legible edition }
    ensures { result ≡ width (edition_of edition) (command_number c) }
{
    match c {
        Command::Task => 3 + edition.value_width,
        Command::Arc => 4,
        Command::End => 1,
        Command::Policy | Command::States | Command::Lock => 2,
    }
}

// The byte at a place, 0 past the end.
fn byte_at(s: &[u8], at: usize) -> u8
    ensures { result ≡ get_or s.now at 0 }
{
    if at < s.len() { s[at] } else { 0 }
}

// The number of one or two bytes from a place on; those past the end are 0.
fn number_at(s: &[u8], at: usize, width: usize) -> u16
    requires { (at + 1 < 2 ^ 64) × ((width ≡ 1) ⊎ (width ≡ 2)) }
    ensures { result ≡ number (map (λ i. get_or s.now i 0) (up_from at width)) }
{
    let first = byte_at(s, at) as u16;
    if width == 1 {
        return first;
    }
    let second = byte_at(s, at + 1) as u16;
    first * 256 + second
}

// The last operand, V or T, of a command whose operands are the next bytes; other commands have none.
#[tactic(auto, unfolding(model::specs::Plan::last_operand))]
fn last_operand(edition: Edition, c: Command, s: &[u8]) -> u16
    requires { Legible edition }
    ensures { result ≡ last_operand (edition_of edition) (command_number c) s.now }
{
    match c {
        Command::Task => number_at(s, 2, edition.value_width),
        Command::Arc => number_at(s, 2, 1),
        Command::Policy | Command::States | Command::End | Command::Lock => 0,
    }
}

// A command with the operands that the next bytes are.
fn with_operands(edition: Edition, command: Command, s: &[u8]) -> Operation
    requires { Legible edition }
    ensures { IsOperation (edition_of edition) (command_number command) s.now result }
{
    let x = byte_at(s, 0);
    let y = byte_at(s, 1);
    let z = last_operand(edition, command, s);
    Operation { command, x, y, z }
}

// Whether a command may follow those read.
#[tactic(auto, unfolding(model::specs::Plan::may_follow))]
fn may_follow(r: &Reading, c: Command) -> bool
    requires { Within r.now }
    ensures { result ≡ may_follow (reading_of r.now []) (command_number c) }
{
    match c {
        Command::Task => r.policy.is_none() && r.tasks.count < MAX_TASKS && r.lock == 0,
        Command::Policy | Command::Lock => r.policy.is_none() && r.tasks.count != 0,
        Command::States => r.policy.is_some() && r.states.is_none(),
        Command::Arc | Command::End => r.states.is_some(),
    }
}

// Whether a task's work, window and value are in range.
#[tactic(auto, unfolding(model::specs::Plan::task_in_range))]
fn task_in_range(edition: Edition, c: u8, d: u8, v: u16) -> bool
    ensures { result ≡ task_in_range (edition_of edition) c d v }
{
    1 <= c && c <= d && d <= edition.window && 1 <= v && v <= edition.value
}

// Whether an arc's states and label are in range.
#[tactic(auto, unfolding(model::specs::Plan::arc_in_range))]
fn arc_in_range(r: &Reading, s: u8, l: u8, t: u16) -> bool
    ensures { result ≡ arc_in_range (reading_of r.now []) s l t }
{
    let states = r.states.unwrap_or(0);
    s < states && (l as usize) < r.tasks.labels() && t < states as u16
}

// Whether a number is from 1 to a limit.
fn up_to(n: u8, limit: u8) -> bool
    ensures { result ≡ between 1 n limit }
{
    1 <= n && n <= limit
}

// Whether a command's operands are in range.
#[tactic(auto, unfolding(model::specs::Plan::in_range))]
fn in_range(edition: Edition, r: &Reading, g: Operation) -> bool
    ensures { result ≡ in_range (edition_of edition) (reading_of r.now []) (command_number g.command) g.x g.y g.z }
{
    match g.command {
        Command::Task => task_in_range(edition, g.x, g.y, g.z),
        Command::Policy => up_to(g.x, Node::SP),
        Command::States => up_to(g.x, MAX_STATES),
        Command::Arc => arc_in_range(r, g.x, g.y, g.z),
        Command::Lock => up_to(g.x, r.tasks.count as u8),
        Command::End => true,
    }
}

// The place of a state and a label in the table of next states.
pub fn pair(s: u8, l: u8) -> usize
    ensures { result ≡ s * label_count + l }
{
    LABELS * s as usize + l as usize
}

// The state that a label leads to, if it is admitted.
pub fn next_state(next: &[u8; PAIRS], s: u8, l: u8) -> Option<u8>
    requires { s < max_states }
    ensures { option_of result ≡ next_in (arcs_in next.now) s l }
{
    if LABELS <= l as usize {
        return None;
    }
    next[pair(s, l)].checked_sub(1)
}

// Whether an arc's pair or a lock's number is above those before it; no other command has one.
fn rises(r: &Reading, g: Operation) -> bool
    ensures { result ≡ rises_in r.now (command_number g.command) g.x g.y }
{
    match g.command {
        Command::Arc => r.least <= pair(g.x, g.y),
        Command::Lock => r.lock < g.x,
        Command::Task | Command::Policy | Command::States | Command::End => true,
    }
}

// The command that a byte is, with its operands, which are the next bytes; or its first fault.
#[tactic(auto, unfolding(model::specs::Plan::first_fault))]
fn checked(edition: Edition, r: &Reading, c: u8, s: &[u8]) -> Result<Operation, Fault>
    requires { Legible edition × Within r.now }
    ensures { MatchResult result (λ g. IsOperation (edition_of edition) c s.now g × (fault_here (edition_of edition) r.now c s.now ≡ 0)) (λ f. fault_here (edition_of edition) r.now c s.now ≡ fault_number f) }
{
    if r.ended {
        return Err(Fault::OutOfPlace);
    }
    let command = command_of(edition, c)?;
    if !may_follow(r, command) {
        return Err(Fault::OutOfPlace);
    }
    if s.len() + 1 < width_of(edition, command) {
        return Err(Fault::BytesEnd);
    }
    let g = with_operands(edition, command, s);
    if !in_range(edition, r, g) {
        return Err(Fault::OutOfRange);
    }
    if !rises(r, g) {
        return Err(Fault::OutOfPlace);
    }
    Ok(g)
}

// One more arc, which goes into the table.
fn with_arc(r: Reading, next: &mut [u8; PAIRS], g: Operation) -> Reading
    requires { Readable r next.old 4 g.x g.y g.z }
    ensures { Reads r result next.old next.new 4 g.x g.y g.z }
{
    let at = pair(g.x, g.y);
    next[at] = g.z as u8 + 1;
    Reading { least: at + 1, ..r }
}

// What is read once a command without a fault is.
fn with_command(r: Reading, next: &mut [u8; PAIRS], g: Operation) -> Reading
    requires { Readable r next.old (command_number g.command) g.x g.y g.z }
    ensures { Reads r result next.old next.new (command_number g.command) g.x g.y g.z }
{
    match g.command {
        Command::Task => {
            let task = Task {
                work: g.x,
                window: g.y,
                value: g.z,
                locked: false,
            };
            Reading {
                tasks: r.tasks.with(task),
                ..r
            }
        }
        Command::Policy => Reading {
            policy: Some(g.x),
            ..r
        },
        Command::States => Reading {
            states: Some(g.x),
            ..r
        },
        Command::Arc => with_arc(r, next, g),
        Command::End => Reading { ended: true, ..r },
        Command::Lock => Reading {
            tasks: r.tasks.locked(g.x as usize - 1),
            lock: g.x,
            ..r
        },
    }
}

// The reading before the first command.
fn nothing_read() -> Reading
    ensures { NothingRead result }
{
    Reading {
        tasks: TaskList::none(),
        lock: 0,
        policy: None,
        states: None,
        least: 0,
        ended: false,
    }
}

// A table without an arc.
pub fn empty_table() -> [u8; PAIRS]
    ensures { result ≡ empty_table }
{
    [0; PAIRS]
}

// The plan that has been read, or that bytes end too early.
fn plan_read(r: Reading, next: [u8; PAIRS]) -> Result<Plan, Fault>
    requires { Within r }
    ensures { answer_of result ≡ at_end (reading_of r (arcs_in next)) }
{
    if !r.ended {
        return Err(Fault::BytesEnd);
    }
    Ok(Plan {
        tasks: r.tasks,
        policy: r.policy.unwrap(),
        states: r.states.unwrap(),
        next,
    })
}

// The plan that the bytes of an edition are, or their first fault.
pub fn read_in(edition: Edition, s: &[u8]) -> Result<Plan, Fault>
    requires { Legible edition }
    ensures { answer_of result ≡ read_plan_in (edition_of edition) s.now }
{
    let mut next = empty_table();
    let mut r = nothing_read();
    let mut rest = s;
    while let Some((&c, operands)) = rest.split_first() {
        let g = checked(edition, &r, c, operands)?;
        r = with_command(r, &mut next, g);
        rest = &rest[width_of(edition, g.command)..];
    }
    plan_read(r, next)
}

// The plan that the bytes of the long-read edition are, or their first fault.
pub fn read(s: &[u8]) -> Result<Plan, Fault>
    ensures { answer_of result ≡ read_plan s.now }
{
    read_in(Edition::long_reads(), s)
}
