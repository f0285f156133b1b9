// What the programs ask of the system: files to read, and their arguments.
#![tactic(auto)]

ghost use Rattle.std.specs.Prelude.{◌≡◌, ◌≤◌, MatchOption, None, neg_ℤ, pos, take};
ghost use Rattle.std.specs.Fd.{file_raw_fd};
ghost use Rattle.std.specs.Io.KnownBytes.{Consumes};
ghost use Rattle.io.specs.Counts.{IsPrefixLen};

use std::env::{Env, FillError};
use std::fs::File;
use std::io::Read;
use std::os::fd::AsRawFd;
use std::rt::Files;

// The descriptors of standard output and standard error. Numbers, since `io::write_all` takes these: what prints is then handed no runtime.
pub const STDOUT: i32 = 1;

pub const STDERR: i32 = 2;

// Reads on until buf is full, nothing is left or a read fails, and answers how many bytes it put at the start of buf: those that the reader gave.
pub fn read_full<R: Read>(reader: &mut R, buf: &mut [u8]) -> usize
    ensures prefix_len { IsPrefixLen result buf.new }
    ensures bytes { Consumes (R.remaining reader.old) (R.remaining reader.new) (take result buf.new) }
{
    let mut done = 0;
    // Not a `for`: each read tells how far the next one begins.
    while done < buf.len() {
        let Ok(n) = reader.read(&mut buf[done..]) else {
            return done;
        };
        if n == 0 {
            return done;
        }
        done += n;
    }
    done
}

// The descriptor to read a file by; without a file one from which nothing is read.
pub fn descriptor(file: &Option<File>) -> i32
    ensures { MatchOption file.now (result ≡ neg_ℤ (pos 1)) (λ opened. result ≡ file_raw_fd opened) }
{
    match file {
        Some(opened) => opened.as_raw_fd(),
        None => -1,
    }
}

// Reads on as `read_full`, by the descriptor of a file that may be missing: without it nothing is read.
pub fn read_part(file: &mut Option<File>, buf: &mut [u8]) -> usize
    ensures prefix_len { IsPrefixLen result buf.new }
    ensures nothing { file.old ≡ None → result ≡ 0 }
{
    match file {
        Some(_) => io::read_full(descriptor(file), buf),
        None => 0,
    }
}

// Reads a file from its first byte on into a buffer, and answers how many bytes it put there: none where the file can't be opened.
pub fn read_file<R: Files<File = File>>(rt: &R, path: &str, buf: &mut [u8]) -> usize
    ensures { IsPrefixLen result buf.new }
{
    let mut file = File::open(rt, path).ok();
    read_part(&mut file, buf)
}

// Puts an argument at the start of buf, and answers its length: 0 where it is missing or longer than buf.
pub fn argument<E: Env>(rt: &E, i: usize, buf: &mut [u8]) -> usize
    ensures { IsPrefixLen result buf.new }
{
    match rt.arg(i, buf) {
        Ok(n) => io::count(n as isize, buf),
        Err(_) => 0,
    }
}

// How many arguments the program was started with, its own name among them, as far as there are at most so many.
pub fn argument_count<E: Env>(rt: &E, most: usize) -> usize
    ensures { result ≤ most }
{
    let mut buf = [0u8; 1];
    for i in 0..most {
        if let Err(FillError::NotPresent) = rt.arg(i, &mut buf) {
            return i;
        }
    }
    most
}
