// The lines of both lanes' answers, each put at a place that has room for the longest.
ghost use Rattle.std.specs.Prelude.{map, ◌+◌, ◌≤◌, length};
ghost use Rattle.text.specs.Decimal.{decimal_of};
ghost use Rattle.text.specs.Lines.{line_with, Put};
ghost use Rattle.replies.specs.Printing.{ok_word, refusal_line, sent_line, idle_line, urgent_line, fair_line};

use units::Refusal;

// The line of an answer of the urgent lane.
pub(crate) fn urgent_line(out: &mut [u8], at: usize, answer: urgent::Answer) -> usize
    requires { at + 96 ≤ length out.old }
    ensures { Put (urgent_line answer) out.old at out.new result × (result ≤ at + 96) }
{
    match answer {
        urgent::Answer::Refused(refusal) => refusal_line(out, at, refusal),
        urgent::Answer::Opened | urgent::Answer::Closed => ok(out, at, &[]),
        urgent::Answer::Accepted(number, last) => ok(out, at, &[number, last.0]),
        urgent::Answer::Sent(flow, number, missed) => sent(out, at, flow, number, missed),
        urgent::Answer::Idle(missed) => idle(out, at, missed),
    }
}

// The line of an answer of the fair lane: a packet's length is not told.
pub(crate) fn fair_line(out: &mut [u8], at: usize, answer: fair::Answer) -> usize
    requires { at + 96 ≤ length out.old }
    ensures { Put (fair_line answer) out.old at out.new result × (result ≤ at + 96) }
{
    match answer {
        fair::Answer::Refused(refusal) => refusal_line(out, at, refusal),
        fair::Answer::Opened | fair::Answer::Closed => ok(out, at, &[]),
        fair::Answer::Accepted(number, start, finish) => ok(out, at, &[number, start.0, finish.0]),
        fair::Answer::Begun(flow, number, _, start) => ok(out, at, &[flow, number, start.0]),
        fair::Answer::Ended(flow, number, _) => ok(out, at, &[flow, number]),
    }
}

// `no` and the refusal's number.
fn refusal_line(out: &mut [u8], at: usize, refusal: Refusal) -> usize
    requires { at + 96 ≤ length out.old }
    ensures { Put (refusal_line refusal) out.old at out.new result × (result ≤ at + 96) }
{
    text::line(out, at, b"no", &[refusal.number()])
}

// `ok` and three numbers at most.
fn ok(out: &mut [u8], at: usize, numbers: &[u64]) -> usize
    requires few { length numbers.now ≤ 3 }
    requires room { at + 96 ≤ length out.old }
    ensures { Put (line_with ok_word (map decimal_of numbers.now)) out.old at out.new result × (result ≤ at + 96) }
{
    text::line(out, at, b"ok", numbers)
}

// The cell that was sent, and how many were missed.
fn sent(out: &mut [u8], at: usize, flow: u64, n: u64, missed: u64) -> usize
    requires { at + 96 ≤ length out.old }
    ensures { Put (sent_line flow n missed) out.old at out.new result × (result ≤ at + 96) }
{
    let p = text::part(out, at, b"sent", &[flow, n]);
    text::line(out, p, b" missed", &[missed])
}

// That nothing was sent, and how many cells were missed.
fn idle(out: &mut [u8], at: usize, missed: u64) -> usize
    requires { at + 96 ≤ length out.old }
    ensures { Put (idle_line missed) out.old at out.new result × (result ≤ at + 96) }
{
    text::line(out, at, b"idle missed", &[missed])
}
