// The lines that the log program answers; with less room than the longest line may need nothing is put, and the place is handed back.
ghost use Rattle.text.specs.Lines.{Placed};
ghost use Rattle.log_lines.specs.Answers.{longest, verdict_line, written_line, difference_line};

use crate::placing::line;
use log_format::{Contents, Flaw, Unwritten};

// Puts the line of a verdict on a log of so many bytes, and answers the place after it.
pub fn verdict(verdict: Result<Contents, Flaw>, length: usize, out: &mut [u8], at: usize) -> usize
    ensures { Placed longest (verdict_line verdict length) out.old at out.new result }
{
    match verdict {
        Ok(contents) => {
            let first = u64::from(contents.form.first_byte());
            let urgent = contents.urgent as u64;
            let fair = contents.fair as u64;
            let events = contents.events as u64;
            line(
                out,
                at,
                b"ok",
                &[first, urgent, fair, events, length as u64],
            )
        }
        Err(Flaw { fault, place }) => line(out, at, b"no", &[fault.number(), place as u64]),
    }
}

// Puts the line of what writing a log gave, and answers the place after it.
pub fn written(written: Result<usize, Unwritten>, out: &mut [u8], at: usize) -> usize
    ensures { Placed longest (written_line written) out.old at out.new result }
{
    match written {
        Ok(n) => line(out, at, b"ok", &[n as u64]),
        Err(Unwritten::BadRecord(position)) => line(out, at, b"no", &[22, position as u64]),
        Err(Unwritten::TooLong) => line(out, at, b"no", &[26]),
    }
}

// Puts the line of the place where two logs first differ, and answers the place after it.
pub fn difference(place: Option<usize>, out: &mut [u8], at: usize) -> usize
    ensures { Placed longest (difference_line place) out.old at out.new result }
{
    match place {
        Some(place) => line(out, at, b"at", &[place as u64]),
        None => line(out, at, b"none", &[]),
    }
}
