// The verdict on a line, and its own line.
ghost use Rattle.std.specs.Prelude.{◌≡◌, ◌+◌, ◌≤◌, length};
ghost use Rattle.text.specs.Lines.{Put};
ghost use Rattle.lists.specs.Steps.{judged_by};
ghost use Rattle.lists.specs.Printing.{verdict_line};

use crate::Reading;
use link::Objection;
use units::Refusal;

impl Reading {
    // The verdict on the line, which is at its end: an empty line is the empty list, and one that is no list is refused.
    pub(crate) fn judge(&mut self) -> Result<(), Objection>
        ensures { result ≡ judged_by self.old }
    {
        if !self.hand.some {
            return Ok(());
        }
        if !self.hand.whole() {
            return Err(Objection::Refused(Refusal::NoCommand));
        }
        self.fill();
        admission::admit(&self.items[..self.count.min(17)])
    }
}

// Puts the line of a verdict into the output at a place, and answers the place after it.
pub(crate) fn print(verdict: Result<(), Objection>, out: &mut [u8], at: usize) -> usize
    requires { at + 96 ≤ length out.old }
    ensures { Put (verdict_line verdict) out.old at out.new result }
{
    match verdict {
        Ok(()) => text::line(out, at, b"admitted", &[]),
        Err(Objection::FailsAt(t)) => text::line(out, at, b"fails", &[t]),
        Err(Objection::Rate) => text::line(out, at, b"rate", &[]),
        Err(Objection::Refused(refusal)) => text::line(out, at, b"no", &[refusal.number()]),
        Err(Objection::RefusedAt(refusal, k)) => {
            text::line(out, at, b"no", &[refusal.number(), k as u64])
        }
    }
}
