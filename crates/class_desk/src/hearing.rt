// A desk from its start: a command is heard by whether the tree is set up, and after that calls are answered.
ghost use Rattle.std.specs.Prelude.{◌≡◌};
ghost use Rattle.classes.specs.Calls.{call_of};
ghost use Rattle.class_desk.specs.Desk.{fresh_desk, asked, hear_then, hear_of};

use crate::{Command, Desk, Heard, Reply, describing};
use classes::{Call, Classes, Done};
use units::Refusal;

impl Desk {
    // A desk before any command.
    pub fn fresh() -> Desk
        ensures { result ≡ fresh_desk }
    {
        Desk {
            ready: false,
            plan: describing::no_plan(),
            lane: planting::fresh(),
        }
    }

    // Hears any command: a tree is described and set up, once, and calls are answered from then on.
    #[tactic(auto, unfolding(crate::specs::Desk::hear_of))]
    pub fn hear(self, command: Command) -> Heard
        ensures { result ≡ hear_of self command }
    {
        if self.ready {
            self.hear_then(command)
        } else {
            self.hear_first(command)
        }
    }

    // After it is set up, calls are answered, and nothing else.
    fn hear_then(self, command: Command) -> Heard
        ensures { result ≡ hear_then self command }
    {
        match command {
            Command::Ask(call) => self.ask(call),
            _ => self.replies(Reply::Refused(Refusal::NoCommand)),
        }
    }

    // A call is answered as the lane answers it.
    fn ask(self, call: Call) -> Heard
        ensures { result ≡ asked self (call_of self.lane call) }
    {
        let done = called(self.lane, call);
        let desk = Desk {
            lane: done.lane,
            ..self
        };
        desk.replies(Reply::Answered(done.answer))
    }

    // The desk as it is, with this reply.
    pub(crate) fn replies(self, reply: Reply) -> Heard
        ensures { result ≡ record { desk = self; reply = reply } }
    {
        Heard { desk: self, reply }
    }
}

// The lane's answer to any call.
fn called(lane: Classes, call: Call) -> Done
    ensures { result ≡ call_of lane call }
{
    match call {
        Call::Open(flow, weight) => class_flows::open(lane, flow, weight),
        Call::Close(flow) => class_flows::close(lane, flow),
        Call::Offer(flow, length) => class_offers::offer(lane, flow, length),
        Call::Begin => class_service::begin(lane),
        Call::End => class_service::end(lane),
    }
}
