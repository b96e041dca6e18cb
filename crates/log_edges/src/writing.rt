// Logs that are written.
use crate::Held;
use crate::input::{fill, number};
use crate::output::{counted, line};
use log_format::{Form, Unwritten};

// The most openings of a body, and the most events.
const MOST_OPENINGS: usize = 40;

const MOST_EVENTS: usize = 17_000;

// What every byte of a room holds at first.
const ROOM: u8 = 238;

// What the writer says of a log of this form and of u urgent openings, and the room after it; the other counts, the room's length and the log
// are still to be read.
pub(crate) fn writing(rt: &HostRuntime, form: Form, u: usize, held: &mut Held) -> Option<()> {
    let f = number(rt)?;
    let e = number(rt)?;
    let m = number(rt)?;
    if MOST_OPENINGS < u || MOST_OPENINGS < f || MOST_EVENTS < e {
        return None;
    }
    let words = &mut held.words[..];
    take(rt, &mut held.bytes, &mut words[..u + f + e])?;
    let words = &words[..];
    let all = &mut held.room[..];
    let room = all.get_mut(..m)?;
    room.fill(ROOM);
    let written = log_writing::write(
        form,
        &words[..u],
        &words[u..u + f],
        &words[u + f..u + f + e],
        room,
    );
    said(rt, written)?;
    counted(rt, b"room", room)
}

// Takes numbers from the input, by way of their bytes.
fn take(rt: &HostRuntime, bytes: &mut [u8], words: &mut [u32]) -> Option<()> {
    if bytes.len() / 4 < words.len() {
        return None;
    }
    let bytes = &mut bytes[..4 * words.len()];
    fill(rt, bytes)?;
    for (word, bytes) in words.iter_mut().zip(bytes.as_chunks::<4>().0) {
        *word = u32::from_le_bytes(*bytes);
    }
    Some(())
}

// What the writer says, as a line.
fn said(rt: &HostRuntime, written: Result<usize, Unwritten>) -> Option<()> {
    match written {
        Ok(n) => line(rt, b"ok", &[n as u64]),
        Err(Unwritten::BadRecord(position)) => line(rt, b"no", &[22, position as u64]),
        Err(Unwritten::TooLong) => line(rt, b"no", &[26]),
    }
}
