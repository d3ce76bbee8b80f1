// A file and a list of calls on it: the file is read, then each call is made on the memory and the counts that the last one left.
#![tactic(auto)]

ghost use Rattle.std.specs.Prelude.{◌≡◌, ◌+◌, ◌*◌, ◌^◌, ◌≤◌, ◌<◌, length, set};
ghost use Rattle.tables.specs.Store.{store};
ghost use Rattle.netlist.specs.Results.{result as outcome, lent};
ghost use Rattle.session.specs.Called.{CalledAs};
ghost use Rattle.theorems.specs.DamagedMemory.{Held};
ghost use Rattle.calls.specs.Calls.{call_at, calls_in, answer_words, session};
ghost use Rattle.calls.specs.Steps.{MadeAs};

use netlist::results::CallResult;
use numbers::kinds::{ModuleNumber, WireNumber};
use reader::fill;
use scanner::parts::part;
use session::{rename, undo};
use tables::word;

// The words of a call: what it is, then a rename's module, wire, and where its new name starts in the texts and its length.
const CALL_WORDS: usize = 5;

const CALL_MODULE: usize = 1;

const CALL_WIRE: usize = 2;

const CALL_NAME: usize = 3;

const CALL_NAME_LENGTH: usize = 4;

// The first word of a rename.
const CALL_RENAME: u32 = 1;

// The words of an answer: number and place.
const ANSWER_WORDS: usize = 2;

// A word, if there is a place for it.
fn put_word(table: &mut [u32], at: usize, w: u32)
    ensures { table.new ≡ set table.old at w }
{
    if at < table.len() {
        table[at] = w;
    }
}

// A call's answer in two words, number and place, as far as there is room.
fn put_answer(answers: &mut [u32], i: usize, number: u32, place: u32)
    requires { 2 * i + 1 < 2 ^ 64 }
    ensures { answers.new ≡ store answers.old (2 * i) (answer_words (number, place)) }
{
    put_word(answers, ANSWER_WORDS * i, number);
    put_word(answers, ANSWER_WORDS * i + 1, place);
}

// Five words a call: 1 a rename with module, wire, and where its new name starts in `texts` and its length; anything else an undo.
fn make_call(
    calls: &[u32],
    texts: &[u8],
    i: usize,
    names: &mut [u8],
    strings: &[u8],
    bits: &[u32],
    wires: &[u32],
    rows: &mut [u32],
    renames: u32,
    room: u32,
) -> CallResult
    requires { 5 * i + 5 ≤ length calls.now }
    ensures { CalledAs (lent names.old strings.now bits.now wires.now rows.old renames room) (call_at calls.now texts.now i) (outcome result.number result.place (lent names.new strings.now bits.now wires.now rows.new result.renames result.room)) }
{
    let at = CALL_WORDS * i;
    if word(calls, at) != CALL_RENAME {
        return undo(names, strings, bits, wires, rows, renames, room);
    }
    let start = word(calls, at + CALL_NAME) as usize;
    let size = word(calls, at + CALL_NAME_LENGTH) as usize;
    rename(
        names,
        strings,
        bits,
        wires,
        rows,
        renames,
        room,
        ModuleNumber(word(calls, at + CALL_MODULE)),
        WireNumber(word(calls, at + CALL_WIRE)),
        part(texts, start, start + size),
    )
}

// Number and place 0, with these counts.
fn accepted(renames: u32, room: u32) -> CallResult
    ensures { result ≡ record { number = 0; place = 0; renames = renames; room = room } }
{
    CallResult {
        number: 0,
        place: 0,
        renames,
        room,
    }
}

// The calls one after another, on memory that holds a design.
fn make_calls(
    calls: &[u32],
    texts: &[u8],
    answers: &mut [u32],
    names: &mut [u8],
    strings: &[u8],
    bits: &[u32],
    wires: &[u32],
    rows: &mut [u32],
    renames: u32,
    room: u32,
) -> CallResult
    requires { Held (lent names.old strings.now bits.now wires.now rows.old renames room) }
    ensures { MadeAs (lent names.old strings.now bits.now wires.now rows.old renames room) answers.old (calls_in calls.now texts.now) (outcome result.number result.place (lent names.new strings.now bits.now wires.now rows.new result.renames result.room)) answers.new }
{
    let many = calls.len() / CALL_WORDS;
    let mut standing = renames;
    let mut used = room;
    for i in 0..many {
        let left = make_call(
            calls, texts, i, names, strings, bits, wires, rows, standing, used,
        );
        put_answer(answers, i, left.number, left.place);
        standing = left.renames;
        used = left.room;
    }
    accepted(standing, used)
}

// Number and place of each call stand in `answers`, two words a call. Where it is too short, the words that have room are stored, the last one perhaps a number without
// its place; the calls are made all the same.
pub fn run_calls(
    f: &[u8],
    calls: &[u32],
    texts: &[u8],
    answers: &mut [u32],
    names: &mut [u8],
    strings: &mut [u8],
    bits: &mut [u32],
    wires: &mut [u32],
    rows: &mut [u32],
    renames: u32,
    room: u32,
) -> CallResult
    ensures { (outcome result.number result.place (lent names.new strings.new bits.new wires.new rows.new result.renames result.room), answers.new) ≡ session f.now (calls_in calls.now texts.now) (lent names.old strings.old bits.old wires.old rows.old renames room) answers.old }
{
    let left = fill(f, names, strings, bits, wires, rows, renames, room);
    if left.number != 0 {
        return left;
    }
    make_calls(
        calls,
        texts,
        answers,
        names,
        strings,
        bits,
        wires,
        rows,
        left.renames,
        left.room,
    )
}
