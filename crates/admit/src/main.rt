// The program: reads lists of declarations on standard input, one a line, and writes the verdict on each on standard output. What is
// answered is the crate lists' to say.
#![tactic(auto)]

ghost use Rattle.lists.specs.Steps.{fresh_reading, step_of, finish_of};

use feeding::Fed;
use filters::Filter;
use lists::Reading;

// The program of the link test.
struct Admit;

impl Filter for Admit {
    type State = Reading;

    const NAME: &'static str = "admit";

    ghost fresh_state = { fresh_reading };

    ghost step = { step_of };

    ghost last_text = { finish_of };

    fn fresh() -> Reading {
        Reading::fresh()
    }

    fn feed(state: Reading, input: &[u8], out: &mut [u8]) -> Fed<Reading> {
        state.feed(input, out)
    }

    fn finish(state: Reading, out: &mut [u8; 96]) -> usize {
        state.finish(out)
    }
}

fn main(rt: HostRuntime) {
    filters::run::<Admit>(&rt);
}
