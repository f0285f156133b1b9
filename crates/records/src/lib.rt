// What the kinds of cases share: the fields of a case, byte strings of a file, each behind two bytes of its length; memory to lend; whether
// bytes begin as a case says; and what a call that writes bytes tells and leaves.
#![tactic(auto)]

ghost use Rattle.std.specs.Prelude.{◌≡◌, List, ℕ, min, length, replicate};
ghost use Rattle.std.specs.List.{FoldsTo};
ghost use Rattle.io.specs.Counts.{IsPrefixLen};
ghost use Rattle.refusals.specs.Told.{result_by};
ghost use Rattle.answer_text.specs.Finish.{result_line};
ghost use Rattle.records.specs.Begins.{Begins};

use host::STDOUT;
use refusals::Refusal;
use std::fs::File;
use std::io::Read;
use std::rt::Files;

// Runs each case of cases.bin by `run`, which gets the case's kind and the file, and answers whether it knows the kind. The file has the number of
// cases in two bytes, and then for each one byte with its kind and its fields, each behind two bytes of its length. How many cases were run.
pub fn run_cases<R: Files<File = File>, F: FnMut(u8, &mut File) -> bool>(rt: &R, mut run: F) -> u16
    requires { F.IsAlwaysCallable run }
    ensures { (kinds : List ℕ) × (last : F) × (result ≡ length kinds) × FoldsTo (λ p k q. (file : _) × (known : _) × (left : _) × F.step p k file known left q) run kinds last }
{
    let Ok(mut file) = File::open(rt, "cases.bin") else {
        return 0;
    };
    let mut count = [0u8; 2];
    host::read_full(&mut file, &mut count);
    let n = words::read_u16(&count, 0);
    for _ in 0..n {
        let mut kind = [0u8; 1];
        host::read_full(&mut file, &mut kind);
        if !run(kind[0], &mut file) {
            io::write_all(STDOUT, b"unknown kind\n");
        }
    }
    n
}

// Reads the next record, two bytes of length and then so many, into a buffer; how many bytes it has.
pub fn read_next<R: Read>(file: &mut R, buf: &mut [u8]) -> usize
    ensures { IsPrefixLen result buf.new }
{
    let mut size = [0u8; 2];
    if host::read_full(file, &mut size) < 2 {
        return 0;
    }
    let n = words::read_u16(&size, 0) as usize;
    if buf.len() < n {
        return 0;
    }
    host::read_full(file, &mut buf[..n])
}

// The most bytes that a case lends.
const MOST: usize = 65544;

// Memory to lend.
pub fn memory() -> [u8; MOST]
    ensures value { result ≡ replicate 65544 0 }
    ensures value_2 { 65544 ≡ length result }
{
    [0; MOST]
}

// A number of bytes of the memory, as far as there are.
pub fn lent(n: u64, memory: &[u8]) -> usize
    ensures value { result ≡ min n (length memory.now) }
    ensures prefix_len { IsPrefixLen result memory.now }
{
    (n as usize).min(memory.len())
}

// Writes whether the bytes begin with a head, and answers it.
pub fn write_comparison(bytes: &[u8], head: &[u8]) -> bool
    ensures { Begins bytes.now head.now result }
{
    let same = bytes.starts_with(head);
    let line: &[u8] = if head.is_empty() {
        b"no head\n"
    } else if same {
        b"head as given\n"
    } else {
        b"head differs\n"
    };
    io::write_all(STDOUT, line);
    same
}

// Writes the line of an answer and all bytes of the output to standard output, and answers the length of the line.
pub fn write_result(answer: Result<usize, Refusal>, out: &[u8]) -> usize
    ensures { result ≡ length (result_line (result_by answer)) }
{
    let n = answer_text::print_line(answer);
    io::write_all(STDOUT, out);
    n
}
