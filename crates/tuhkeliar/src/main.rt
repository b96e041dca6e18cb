// The program: reads a session on standard input and writes its answers on standard output. What is answered is the crate session's to say.
#![tactic(auto)]

ghost use Rattle.session.specs.Steps.{fresh_session, step_of, finish_of};

use feeding::Fed;
use filters::Filter;
use session::Session;

// The program of the station's session.
struct Tuhkeliar;

impl Filter for Tuhkeliar {
    type State = Session;

    const NAME: &'static str = "tuhkeliar";

    ghost fresh_state = { fresh_session };

    ghost step = { step_of };

    ghost last_text = { finish_of };

    fn fresh() -> Session {
        Session::fresh()
    }

    fn feed(state: Session, input: &[u8], out: &mut [u8]) -> Fed<Session> {
        state.feed(input, out)
    }

    fn finish(state: Session, out: &mut [u8; 96]) -> usize {
        state.finish(out)
    }
}

fn main(rt: HostRuntime) {
    filters::run::<Tuhkeliar>(&rt);
}
