// A reply of the station in five plain numbers, for programs in other languages.
#![tactic(auto)]

ghost use Rattle.std.specs.Prelude.{◌≡◌};
ghost use Rattle.station.specs.declared.Reply.TheVariants.{Urgent, Fair};
ghost use Rattle.plain.specs.Plain.{answer_of};

use station::Reply;

// What a call is answered: its kind, and what the rules name for that kind, in their order; the rest is 0. The kind stays a number, since C
// reads it (include/tuhkeliar.h).
#[repr(C)]
#[derive(Clone, Copy, Debug, PartialEq, Eq)]
pub struct Answer {
    pub kind: u64,
    pub a: u64,
    pub b: u64,
    pub c: u64,
    pub d: u64,
}

// A reply in plain numbers, by its lane.
pub fn plainly(reply: Reply) -> Answer
    ensures { result ≡ answer_of reply }
{
    match reply {
        Reply::Urgent(answer) => plain_urgent(answer),
        Reply::Fair(answer) => plain_fair(answer),
    }
}

// An answer of the urgent lane in plain numbers.
fn plain_urgent(answer: urgent::Answer) -> Answer
    ensures { result ≡ answer_of (Urgent answer) }
{
    match answer {
        urgent::Answer::Refused(refusal) => numbers(0, refusal.number(), 0, 0, 0),
        urgent::Answer::Opened => numbers(1, 0, 0, 0, 0),
        urgent::Answer::Closed => numbers(8, 0, 0, 0, 0),
        urgent::Answer::Accepted(number, last) => numbers(2, number, last.0, 0, 0),
        urgent::Answer::Sent(flow, number, missed) => numbers(3, flow, number, missed, 0),
        urgent::Answer::Idle(missed) => numbers(4, missed, 0, 0, 0),
    }
}

// An answer of the fair lane in plain numbers.
fn plain_fair(answer: fair::Answer) -> Answer
    ensures { result ≡ answer_of (Fair answer) }
{
    match answer {
        fair::Answer::Refused(refusal) => numbers(0, refusal.number(), 0, 0, 0),
        fair::Answer::Opened => numbers(1, 0, 0, 0, 0),
        fair::Answer::Closed => numbers(8, 0, 0, 0, 0),
        fair::Answer::Accepted(number, start, finish) => numbers(5, number, start.0, finish.0, 0),
        fair::Answer::Begun(flow, number, bytes, start) => numbers(6, flow, number, bytes, start.0),
        fair::Answer::Ended(flow, number, bytes) => numbers(7, flow, number, bytes, 0),
    }
}

// An answer of these numbers.
pub fn numbers(kind: u64, a: u64, b: u64, c: u64, d: u64) -> Answer
    ensures { result ≡ record { kind = kind; a = a; b = b; c = c; d = d } }
{
    Answer { kind, a, b, c, d }
}
