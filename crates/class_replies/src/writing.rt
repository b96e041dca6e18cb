// The lines of replies, each put at a place that has room for the longest.
ghost use Rattle.std.specs.Prelude.{map, ◌+◌, ◌≤◌, length};
ghost use Rattle.units.specs.Refusals.{number_of};
ghost use Rattle.text.specs.Decimal.{decimal_of};
ghost use Rattle.text.specs.Lines.{ok_word, line_with, refusal_line, Put};
ghost use Rattle.class_replies.specs.Printing.{answer_line};

use classes::Answer;
use units::Refusal;

// The line of an answer of the lane: a packet's length is not told.
pub(crate) fn answer_line(out: &mut [u8], at: usize, answer: Answer) -> usize
    requires { at + 96 ≤ length out.old }
    ensures { Put (answer_line answer) out.old at out.new result × (result ≤ at + 96) }
{
    match answer {
        Answer::Refused(refusal) => refusal_line(out, at, refusal),
        Answer::Opened | Answer::Closed => ok(out, at, &[]),
        Answer::Taken(number) => ok(out, at, &[number]),
        Answer::Begun(flow, number, _, start) => ok(out, at, &[flow, number, start.0]),
        Answer::Ended(flow, number, _) => ok(out, at, &[flow, number]),
    }
}

// `no` and the refusal's number.
pub(crate) fn refusal_line(out: &mut [u8], at: usize, refusal: Refusal) -> usize
    requires { at + 96 ≤ length out.old }
    ensures { Put (refusal_line (number_of refusal)) out.old at out.new result × (result ≤ at + 96) }
{
    text::line(out, at, b"no", &[refusal.number()])
}

// `ok` and three numbers at most.
pub(crate) fn ok(out: &mut [u8], at: usize, numbers: &[u64]) -> usize
    requires few { length numbers.now ≤ 3 }
    requires room { at + 96 ≤ length out.old }
    ensures { Put (line_with ok_word (map decimal_of numbers.now)) out.old at out.new result × (result ≤ at + 96) }
{
    text::line(out, at, b"ok", numbers)
}
