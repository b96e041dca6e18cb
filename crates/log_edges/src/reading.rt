// Logs that are read: one, two beside each other, and one of which a record is asked for.
use crate::input::{byte, fill, number};
use crate::output::{counted, line};
use log_format::{Contents, Flaw};

// A body of a log, as a case names it.
#[derive(Clone, Copy)]
enum Body {
    Urgent,
    Fair,
    Events,
    OwnEvents,
}

impl Body {
    // The body that a byte tells, if it tells one.
    fn told_by(byte: u8) -> Option<Body> {
        match byte {
            0 => Some(Body::Urgent),
            1 => Some(Body::Fair),
            2 => Some(Body::Events),
            3 => Some(Body::OwnEvents),
            _ => None,
        }
    }
}

// What the reader says of a log.
pub(crate) fn reading(rt: &HostRuntime, log: &[u8]) -> Option<()> {
    match log_reading::read(log) {
        Ok(c) => contents(rt, c, log.len()),
        Err(flaw) => refused(rt, flaw),
    }
}

// What a log of so many bytes holds.
fn contents(rt: &HostRuntime, c: Contents, n: usize) -> Option<()> {
    let first = u64::from(c.form.first_byte());
    let urgent = c.urgent as u64;
    let fair = c.fair as u64;
    let events = c.events as u64;
    line(rt, b"ok", &[first, urgent, fair, events, n as u64])
}

// That bytes are no log, why, and where.
fn refused(rt: &HostRuntime, flaw: Flaw) -> Option<()> {
    line(rt, b"no", &[flaw.fault.number(), flaw.place as u64])
}

// Where a log and the next one, of m bytes, differ, and the tail; the next one comes into the room lent for it.
pub(crate) fn comparing(rt: &HostRuntime, a: &[u8], m: usize, room: &mut [u8]) -> Option<()> {
    let b = room.get_mut(..m)?;
    fill(rt, b)?;
    compared(rt, a, b)
}

// The same, for two logs that are there.
fn compared(rt: &HostRuntime, a: &[u8], b: &[u8]) -> Option<()> {
    difference(rt, log_pairs::first_difference(a, b))?;
    counted(rt, b"tail", log_pairs::tail(a, b))
}

// A place where two logs differ, or that there is none.
fn difference(rt: &HostRuntime, place: Option<usize>) -> Option<()> {
    match place {
        Some(place) => line(rt, b"at", &[place as u64]),
        None => line(rt, b"none", &[]),
    }
}

// The record that is asked for after a log, if the bytes are a log.
pub(crate) fn finding(rt: &HostRuntime, log: &[u8]) -> Option<()> {
    let body = Body::told_by(byte(rt)?)?;
    let k = number(rt)?;
    match log_reading::read(log) {
        Ok(c) => found(rt, record(log, c, body, k)),
        Err(flaw) => refused(rt, flaw),
    }
}

// The record of a body and an index, in a log that holds this.
fn record(log: &[u8], c: Contents, body: Body, k: usize) -> Option<u32> {
    match body {
        Body::Urgent => log_records::urgent_opening(log, c, k),
        Body::Fair => log_records::fair_opening(log, c, k),
        Body::Events => log_records::event(log, c, k),
        Body::OwnEvents => log_cells::own_event(log, c, k),
    }
}

// A record, or that there is none.
fn found(rt: &HostRuntime, found: Option<u32>) -> Option<()> {
    match found {
        Some(word) => line(rt, b"word", &[u64::from(word)]),
        None => line(rt, b"nothing", &[]),
    }
}
