// Reads a block from standard input and writes its one text, or the number and place of its refusal. Where files are named, each of them instead, under a
// line with its name. What can't be read or written is told on standard error, and the rest goes on.
#![tactic(auto)]

ghost use Rattle.std.specs.Prelude.{◌≤◌, length, IfOk};

use answer::answer;
use std::env::{Env, FillError};
use std::fs::File;
use std::io::{self, Read, Write};
use std::str;
use text::TEXT_LENGTH;

// The most bytes of a file that is read, and one more.
const FILE_ROOM: usize = 32769;

// The most bytes of a file's name.
const NAME_ROOM: usize = 4096;

// Fills the room from the reader, as far as it gives bytes.
fn read_full<R: Read>(reader: &mut R, room: &mut [u8]) -> io::Result<usize>
    ensures { IfOk result (λ n. n ≤ length room.old) }
{
    let mut n = 0;
    // read_exact doesn't tell how much a short file gave, and read_to_end has no bound.
    while n < room.len() {
        let more = reader.read(&mut room[n..])?;
        if more == 0 {
            break;
        }
        n += more;
    }
    Ok(n)
}

// Where standard error can't be written, nobody can be told.
fn tell(rt: &HostRuntime, name: &str, error: io::Error) {
    let _ = eprintln!(rt; "{name}: {error}");
}

// A byte over the limit is read, so that a file over it is told.
fn answer_open<R: Read>(rt: &HostRuntime, reader: &mut R, name: &str) {
    let mut file = [0u8; FILE_ROOM];
    let mut out = [0u8; TEXT_LENGTH];
    let n = match read_full(reader, &mut file) {
        Ok(n) => n,
        Err(error) => return tell(rt, name, error),
    };
    let size = answer(&file[..n], &mut out);
    if let Err(error) = rt.stdout().write_all(&out[..size]) {
        tell(rt, "standard output", error);
    }
}

fn answer_named(rt: &HostRuntime, name: &str) {
    match File::open(rt, name) {
        Ok(mut file) => match println!(rt; "== {name}") {
            Ok(()) => answer_open(rt, &mut file, name),
            Err(error) => tell(rt, "standard output", error),
        },
        Err(error) => tell(rt, name, error),
    }
}

// The argument of this number, a file's name; whether there is one.
fn answer_argument(rt: &HostRuntime, i: usize) -> bool {
    let mut name = [0u8; NAME_ROOM];
    match rt.arg(i, &mut name) {
        Ok(n) => match str::from_utf8(&name[..n]) {
            Ok(name) => answer_named(rt, name),
            Err(_) => tell(rt, "argument", io::Error::from(io::ErrorKind::InvalidData)),
        },
        Err(FillError::NotPresent) => return false,
        Err(_) => tell(rt, "argument", io::Error::from(io::ErrorKind::InvalidData)),
    }
    true
}

fn main(rt: HostRuntime) {
    if !answer_argument(&rt, 1) {
        return answer_open(&rt, &mut rt.stdin(), "standard input");
    }
    for i in 2..usize::MAX {
        if !answer_argument(&rt, i) {
            break;
        }
    }
}
