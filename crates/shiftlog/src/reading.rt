// The commands that read logs.
ghost use Rattle.std.specs.Prelude.{◌≡◌, ◌+◌, ◌≤◌, length};

use crate::output::{answer, tell};
use log_format::Contents;
use std::io;

// Writes whether bytes are a log, and what it holds or what is wrong.
pub(crate) fn check(rt: &HostRuntime, log: &[u8]) -> io::Result<()> {
    let mut line = [0u8; 108];
    let n = log_lines::verdict(log_reading::read(log), log.len(), &mut line, 0);
    answer(rt, &line[..n])
}

// Writes a log's records as the lines of a session, each cell with its own deadline, or what is wrong.
pub(crate) fn show(rt: &HostRuntime, log: &[u8]) -> io::Result<()> {
    match log_reading::read(log) {
        Ok(contents) => records(rt, log, contents),
        Err(_) => check(rt, log),
    }
}

// Writes the records of a log, one after the other, as often as out is full. A record has three bytes at least.
fn records(rt: &HostRuntime, log: &[u8], contents: Contents) -> io::Result<()> {
    let mut out = [0u8; 65_536];
    let mut w: usize = 0;
    for k in 0..log.len() / 3 {
        if out.len() - w < 108 {
            answer(rt, &out[..w])?;
            w = 0;
        }
        w = record_line(log, contents, k, &mut out, w);
    }
    answer(rt, &out[..w])
}

// Puts the line of a record by its index through all three bodies; past the last one nothing.
fn record_line(log: &[u8], contents: Contents, k: usize, out: &mut [u8], at: usize) -> usize
    requires { at + 108 ≤ length out.old }
    ensures { (length out.new ≡ length out.old) × (result ≤ length out.new) }
{
    let Contents { urgent, fair, .. } = contents;
    if k < urgent {
        return opening_line(true, log_records::urgent_opening(log, contents, k), out, at);
    }
    let j = k - urgent;
    if j < fair {
        return opening_line(false, log_records::fair_opening(log, contents, j), out, at);
    }
    match log_cells::own_event(log, contents, j - fair) {
        Some(word) => log_lines::event(word, out, at),
        None => at,
    }
}

// Puts the line of an opening that was found.
fn opening_line(urgent: bool, found: Option<u32>, out: &mut [u8], at: usize) -> usize
    requires { at + 108 ≤ length out.old }
    ensures { (length out.new ≡ length out.old) × (result ≤ length out.new) }
{
    match found {
        Some(word) => log_lines::opening(urgent, word, out, at),
        None => at,
    }
}

// Writes where two logs, of which the first has so many bytes, first differ.
pub(crate) fn compare(rt: &HostRuntime, logs: &[u8], first: usize) -> io::Result<()> {
    let Some((a, b)) = logs.split_at_checked(first) else {
        tell(rt, b"shiftlog: the first log is cut short\n");
        return Ok(());
    };
    let mut line = [0u8; 108];
    let n = log_lines::difference(log_pairs::first_difference(a, b), &mut line, 0);
    answer(rt, &line[..n])
}

// Writes the tail of the longer of two logs, of which the first has so many bytes.
pub(crate) fn tail(rt: &HostRuntime, logs: &[u8], first: usize) -> io::Result<()> {
    let Some((a, b)) = logs.split_at_checked(first) else {
        tell(rt, b"shiftlog: the first log is cut short\n");
        return Ok(());
    };
    answer(rt, log_pairs::tail(a, b))
}
