// Writes a plan made from others to standard output, as its bytes, or `refused n`. The command is in the arguments: `gap TASK SLOTS`,
// `group SET SLOTS`, `forth` and `back` read plan.bin, `combine` reads plan.bin and other.bin. Arguments that are no command get a line on
// standard error, and nothing is written. A file that cannot be opened reads as empty. What it holds past this buffer changes no answer
// (theory: long-plan).
#![tactic(auto)]

ghost use Rattle.std.specs.Prelude.{◌≡◌, List, ℕ, ◌≤◌, length};
ghost use Rattle.model.specs.Bytes.{Put};
ghost use Rattle.model.specs.Edition.{plan_room};
ghost use Rattle.model.specs.Text.{writing_text};
ghost use Rattle.answer_text.specs.Finish.{refusal_room};
ghost use Rattle.refusals.specs.Told.{Told};
ghost use Rattle.rewrite_plan.specs.Commands.{word_in, alone_is, single_is, spacing_is, counted_is, command_is, spelled, due, Rewrites, Runs};

use gap::Group;
use host::STDERR;
use refusals::Refusal;
use std::env::Env;
use std::fs::File;
use std::rt::Files;

// The words of the commands.
#[derive(Clone, Copy, Debug, PartialEq, Eq)]
enum Word {
    Gap,
    Group,
    Combine,
    Forth,
    Back,
}

// What the program is asked for.
#[derive(Clone, Copy)]
enum Command {
    Space(Group, u64),
    Combine,
    Forth,
    Back,
}

// The word that bytes are.
fn word_in(s: &[u8]) -> Option<Word>
    ensures { result ≡ word_in s.now }
{
    match s {
        b"gap" => Some(Word::Gap),
        b"group" => Some(Word::Group),
        b"combine" => Some(Word::Combine),
        b"forth" => Some(Word::Forth),
        b"back" => Some(Word::Back),
        _ => None,
    }
}

// The word that an argument is.
fn word_at<E: Env>(rt: &E, i: usize) -> Option<Word>
    ensures { (argument : List ℕ) × (result ≡ word_in argument) }
{
    let mut buffer = io::buffer();
    let n = host::argument(rt, i, &mut buffer);
    word_in(&buffer[..n])
}

// The command of a word alone.
fn alone(word: Word) -> Option<Command>
    ensures { result ≡ alone_is word }
{
    match word {
        Word::Combine => Some(Command::Combine),
        Word::Forth => Some(Command::Forth),
        Word::Back => Some(Command::Back),
        Word::Gap | Word::Group => None,
    }
}

// The command of a word, a task or a set, and the slots of a gap.
fn spacing(word: Word, number: u64, slots: u64) -> Option<Command>
    ensures { result ≡ spacing_is word number slots }
{
    match word {
        Word::Gap => Some(Command::Space(Group::Task(number), slots)),
        Word::Group => Some(Command::Space(Group::Set(number), slots)),
        Word::Combine | Word::Forth | Word::Back => None,
    }
}

// The command of one argument that should be a word.
fn alone_in(word: Option<Word>) -> Option<Command>
    ensures { result ≡ single_is word }
{
    alone(word?)
}

// The command of three that should be a word and two numbers.
fn counted(word: Option<Word>, number: Option<u64>, slots: Option<u64>) -> Option<Command>
    ensures { result ≡ counted_is word number slots }
{
    spacing(word?, number?, slots?)
}

// The command that the arguments are.
fn asked<E: Env>(rt: &E) -> Option<Command>
    ensures { (arguments : List (List ℕ)) × (result ≡ command_is arguments) }
{
    match host::argument_count(rt, 5) {
        2 => alone_in(word_at(rt, 1)),
        4 => counted(
            word_at(rt, 1),
            arguments::number_at(rt, 2),
            arguments::number_at(rt, 3),
        ),
        _ => None,
    }
}

// Makes the plan that a command asks for of the plan given, `combine` of that and the other one.
fn make(command: Command, plan: &[u8], other: &[u8], out: &mut [u8]) -> Result<usize, Refusal>
    ensures { Told (spelled command) (due command plan.now other.now (length out.old)) out.old out.new result }
{
    match command {
        Command::Space(group, slots) => gap::rewrite(plan, group, slots, out),
        Command::Combine => combine::rewrite(plan, other, out),
        Command::Forth => convert::forth(plan, out),
        Command::Back => convert::back(plan, out),
    }
}

// Writes that plan from the output's first byte on and to standard output, and answers the number of bytes.
fn write(command: Command, plan: &[u8], other: &[u8], out: &mut [u8]) -> usize
    requires { refusal_room ≤ length out.old }
    ensures { Put out.old out.new 0 (writing_text (spelled command) (due command plan.now other.now (length out.old))) result }
{
    let answer = make(command, plan, other, out);
    answer_text::print(answer, out)
}

// Tells how the program is called, and that nothing was written to standard output.
fn usage() -> usize
    ensures { result ≡ 0 }
{
    io::write_all(
        STDERR,
        b"usage: rewrite_plan gap TASK SLOTS or group SET SLOTS (numbers), or rewrite_plan combine, forth or back\n",
    );
    0
}

// Reads the other plan, and writes what a command makes of both.
fn write_of_both<R: Files<File = File>>(
    rt: &R,
    command: Command,
    plan: &[u8],
    out: &mut [u8],
) -> usize
    requires { refusal_room ≤ length out.old }
    ensures { Rewrites command plan.now out.old out.new result }
{
    let mut other = io::large_buffer();
    let rest = host::read_file(rt, "other.bin", &mut other);
    write(command, plan, &other[..rest], out)
}

// Writes what a command makes of the plan, and of the other one where it takes one.
fn write_of<R: Files<File = File>>(rt: &R, command: Command, plan: &[u8], out: &mut [u8]) -> usize
    requires { refusal_room ≤ length out.old }
    ensures { Rewrites command plan.now out.old out.new result }
{
    match command {
        Command::Combine => write_of_both(rt, command, plan, out),
        Command::Space(..) | Command::Forth | Command::Back => write(command, plan, &[], out),
    }
}

// Runs a command, and answers the number of bytes written.
fn run<R: Files<File = File>>(rt: &R, command: Option<Command>) -> usize
    ensures { Runs command result }
{
    let Some(command) = command else {
        return usage();
    };
    let mut plan = io::large_buffer();
    let mut out = [0; plan_bytes::PLAN_ROOM];
    let length = host::read_file(rt, "plan.bin", &mut plan);
    write_of(rt, command, &plan[..length], &mut out)
}

fn main(rt: HostRuntime) {
    run(&rt, asked(&rt));
}
