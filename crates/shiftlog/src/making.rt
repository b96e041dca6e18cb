// The command that makes a log of a session.
ghost use Rattle.std.specs.Prelude.{◌≤◌, length};

use crate::output::{answer, tell};
use log_book::Logbook;
use recorder::Recorder;
use std::io;

// Writes the log of a session whose first bytes are at hand, and reports its length; or that it is too long.
pub(crate) fn write(rt: &HostRuntime, input: &mut [u8], start: usize, n: usize) -> io::Result<()>
    requires { (start ≤ n) × (n ≤ length input.old) }
{
    let mut events = [0u32; 16_377];
    let begun = Logbook::fresh().feed(&input[start..n], &mut events);
    let book = rest(rt, begun, input, &mut events).finish(&mut events);
    put(rt, book.recorder, &events)
}

// Feeds the rest of the input, piece after piece. A proved loop has to end, and nothing says that the input does: the loop counts its
// pieces, up to a number that no run uses up.
fn rest(rt: &HostRuntime, begun: Logbook, input: &mut [u8], events: &mut [u32]) -> Logbook {
    let mut book = begun;
    let mut stdin = rt.stdin();
    for _ in 0..u64::MAX {
        let n = streams::fill(&mut stdin, input);
        if n == 0 {
            break;
        }
        book = book.feed(&input[..n], events);
    }
    book
}

// Writes the log of what was recorded and reports its length; or that it is too long.
fn put(rt: &HostRuntime, recorder: Recorder, events: &[u32]) -> io::Result<()> {
    let mut room = [0u8; 65_536];
    let written = recorded::write(recorder, events, &mut room);
    if let Ok(n) = written {
        answer(rt, &room[..n])?;
    }
    let mut line = [0u8; 108];
    let n = log_lines::written(written, &mut line, 0);
    tell(rt, &line[..n]);
    Ok(())
}
