// An answer of the class lane in five plain numbers, for programs in other languages.
#![tactic(auto)]

ghost use Rattle.std.specs.Prelude.{◌≡◌};
ghost use Rattle.class_plain.specs.Plain.{answer_of, planted_of};

use plain::Answer;
use units::Refusal;

// What a call is answered, in plain numbers.
pub fn plainly(answer: classes::Answer) -> Answer
    ensures { result ≡ answer_of answer }
{
    match answer {
        classes::Answer::Refused(refusal) => plain::numbers(0, refusal.number(), 0, 0, 0),
        classes::Answer::Opened => plain::numbers(1, 0, 0, 0, 0),
        classes::Answer::Closed => plain::numbers(8, 0, 0, 0, 0),
        classes::Answer::Taken(number) => plain::numbers(10, number, 0, 0, 0),
        classes::Answer::Begun(flow, number, bytes, start) => plain::numbers(
            6, flow, number, bytes, start.0,
        ),
        classes::Answer::Ended(flow, number, bytes) => plain::numbers(7, flow, number, bytes, 0),
    }
}

// What setting up is answered, in plain numbers.
pub fn planted(answer: Result<(), Refusal>) -> Answer
    ensures { result ≡ planted_of answer }
{
    match answer {
        Ok(()) => plain::numbers(9, 0, 0, 0, 0),
        Err(refusal) => plain::numbers(0, refusal.number(), 0, 0, 0),
    }
}
