// The line that a reply of the desk is written as.
#![tactic(auto)]

mod writing;

ghost use Rattle.text.specs.Lines.{Placed};
ghost use Rattle.class_replies.specs.Printing.{longest, line_of};

use class_desk::Reply;
use writing::{answer_line, ok, refusal_line};

// Puts the line of a reply at a place, and answers the place after it; with less room than the longest line may need nothing, and
// answers the place.
pub fn print(reply: Reply, out: &mut [u8], at: usize) -> usize
    ensures { Placed longest (line_of reply) out.old at out.new result }
{
    if out.len().saturating_sub(at) < 96 {
        return at;
    }
    match reply {
        Reply::Noted => ok(out, at, &[]),
        Reply::Refused(refusal) => refusal_line(out, at, refusal),
        Reply::Answered(answer) => answer_line(out, at, answer),
    }
}
