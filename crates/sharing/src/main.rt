// The class program: reads a session on standard input and writes its replies on standard output. What is answered is the crate class_session's
// to say.
#![tactic(auto)]

ghost use Rattle.class_session.specs.Steps.{fresh_session, step_of, finish_of};

use class_session::Session;
use feeding::Fed;
use filters::Filter;

// The program of the desk's session.
struct Classes;

impl Filter for Classes {
    type State = Session;

    const NAME: &'static str = "classes";

    ghost fresh_state = { fresh_session };

    ghost step = { step_of };

    ghost last_text = { finish_of };

    fn fresh() -> Session {
        Session::fresh()
    }

    fn feed(state: Session, input: &[u8], out: &mut [u8]) -> Fed<Session> {
        state.feed(input, out)
    }

    fn finish(state: Session, out: &mut [u8; 96]) -> usize {
        state.finish(out)
    }
}

fn main(rt: HostRuntime) {
    filters::run::<Classes>(&rt);
}
