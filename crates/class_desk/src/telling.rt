// What a desk does with each command before the tree is set up.
ghost use Rattle.std.specs.Prelude.{◌≡◌};
ghost use Rattle.class_desk.specs.declared.Command.TheVariants.{Hang, SetUp};
ghost use Rattle.class_desk.specs.Desk.{noted, hear_first};

use crate::{Command, Desk, Heard, Reply, describing};
use plans::Plan;
use units::{LAST_FLOW, Refusal};

impl Desk {
    // Before the tree is set up it is described, and no call is answered.
    pub(crate) fn hear_first(self, command: Command) -> Heard
        ensures { result ≡ hear_first self command }
    {
        match command {
            Command::Class(parent, weight) => {
                let plan = describing::class_more(self.plan, parent, weight);
                self.noted(plan)
            }
            Command::Hang(flow, class) => self.hang(flow, class),
            Command::SetUp => self.set_up(),
            Command::Ask(_) => self.replies(Reply::Refused(Refusal::NoCommand)),
        }
    }

    // More of the tree is described.
    fn noted(self, plan: Plan) -> Heard
        ensures { result ≡ noted self plan }
    {
        let desk = Desk {
            ready: false,
            plan,
            ..self
        };
        desk.replies(Reply::Noted)
    }

    // A flow is given the class that it hangs from.
    fn hang(self, flow: u64, class: u64) -> Heard
        ensures { result ≡ hear_first self (Hang flow class) }
    {
        if LAST_FLOW < flow {
            return self.replies(Reply::Refused(Refusal::NoSuchFlow));
        }
        let plan = describing::hung(self.plan, flow, class);
        self.noted(plan)
    }

    // The tree is set up as it is described; where it breaks a rule, the description starts anew.
    fn set_up(self) -> Heard
        ensures { result ≡ hear_first self SetUp }
    {
        let planted = planting::set_up(self.lane, &self.plan);
        match planted.answer {
            Ok(()) => {
                let desk = Desk {
                    ready: true,
                    lane: planted.lane,
                    ..self
                };
                desk.replies(Reply::Noted)
            }
            Err(refusal) => {
                let none = describing::no_plan();
                let desk = Desk {
                    ready: false,
                    plan: none,
                    lane: planted.lane,
                };
                desk.replies(Reply::Refused(refusal))
            }
        }
    }
}
