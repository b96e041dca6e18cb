// Runs the reader, the pairs, the records by index and the writer of shift logs on a stream of cases, and writes an answer to each. Numbers
// are four bytes, the lowest first. A case is one of these:
//   `c`, a length, so many bytes: what the reader says of them;
//   `p`, two lengths, the bytes of both: where the two logs differ, and the tail;
//   `r`, a length, so many bytes, a body (a byte: 0 urgent openings, 1 fair openings, 2 events, 3 events with each cell's own deadline),
//        an index: the record;
//   `w`, three counts, the length of a room, so many numbers: what the writer says of a log of form Flow, and the room after it;
//   `o`, the same for a log of form Own.
// A case that is none of these, that is too large, or that the input cuts short ends the program with a line on standard error.
#![tactic(auto)]

mod input;
mod output;
mod reading;
mod writing;

use input::{byte, fill, number};
use log_format::Form;
use reading::{comparing, finding, reading};
use writing::writing;

// What a case asks for.
#[derive(Clone, Copy)]
enum Case {
    Read,
    Pair,
    Record,
    Write(Form),
}

impl Case {
    // The case that a byte tells, if it tells one.
    fn told_by(byte: u8) -> Option<Case> {
        match byte {
            b'c' => Some(Case::Read),
            b'p' => Some(Case::Pair),
            b'r' => Some(Case::Record),
            b'w' => Some(Case::Write(Form::Flow)),
            b'o' => Some(Case::Write(Form::Own)),
            _ => None,
        }
    }
}

// What the cases are held in, one after the other: the bytes of a log, the numbers of one that is written, and the room for it, which holds the
// second of a pair too. They are lent to each case, since a function pays at its entry for what it holds itself.
#[derive(Drop)]
struct Held {
    bytes: [u8; 70_000],
    words: [u32; 17_080],
    room: [u8; 70_000],
}

fn main(rt: HostRuntime) {
    let mut held = Held {
        bytes: [0; 70_000],
        words: [0; 17_080],
        room: [0; 70_000],
    };
    cases(&rt, &mut held);
}

// Answers one case after the other, up to the end of the input. A proved loop has to end: it counts the cases, up to a number that no run
// uses up.
fn cases(rt: &HostRuntime, held: &mut Held) {
    for _ in 0..u64::MAX {
        let Some(kind) = byte(rt) else {
            return;
        };
        if answer(rt, kind, held).is_none() {
            tell(rt);
            return;
        }
    }
}

// Tells that a case is not answered.
fn tell(rt: &HostRuntime) {
    let mut error = rt.stderr();
    let _ = streams::put(&mut error, b"log_edges: a case is not answered\n");
}

// Answers the case that a byte tells; nothing where it could not.
fn answer(rt: &HostRuntime, kind: u8, held: &mut Held) -> Option<()> {
    let case = Case::told_by(kind)?;
    let n = number(rt)?;
    match case {
        Case::Read => reading(rt, log(rt, n, &mut held.bytes)?),
        Case::Pair => {
            let m = number(rt)?;
            comparing(rt, log(rt, n, &mut held.bytes)?, m, &mut held.room)
        }
        Case::Record => finding(rt, log(rt, n, &mut held.bytes)?),
        Case::Write(form) => writing(rt, form, n, held),
    }
}

// A log of n bytes, taken from the input into the bytes that are lent.
fn log<'a>(rt: &HostRuntime, n: usize, bytes: &'a mut [u8]) -> Option<&'a [u8]> {
    let log = bytes.get_mut(..n)?;
    fill(rt, log)?;
    Some(log)
}
