// The line that a reply of the station is written as.
#![tactic(auto)]

mod writing;

ghost use Rattle.text.specs.Lines.{Placed};
ghost use Rattle.replies.specs.Printing.{longest, line_of};

use station::Reply;

// Puts the line of a reply at a place, and answers the place after it; with less room than the longest line may need nothing, and
// answers the place.
pub fn print(reply: Reply, out: &mut [u8], at: usize) -> usize
    ensures { Placed longest (line_of reply) out.old at out.new result }
{
    if out.len().saturating_sub(at) < 96 {
        return at;
    }
    match reply {
        Reply::Urgent(answer) => writing::urgent_line(out, at, answer),
        Reply::Fair(answer) => writing::fair_line(out, at, answer),
    }
}
