// Opening a flow.
ghost use Rattle.std.specs.Prelude.{◌≡◌, ◌≤◌, MatchResult};
ghost use Rattle.urgent.specs.Calls.{opened, refused, open_of};

use crate::{Answer, Done, Flow, Urgent};
use units::Refusal;

impl Urgent {
    // Opens a flow with a deadline. Its numbers go on where they stood.
    pub fn open(mut self, flow: u64, deadline: u64) -> Done
        ensures { result ≡ open_of self flow deadline }
    {
        let answer = self.open_at(flow, deadline);
        Done { lane: self, answer }
    }

    // The same on a lane that stays where it is.
    pub fn open_at(&mut self, flow: u64, deadline: u64) -> Answer
        ensures answer { result ≡ (open_of self.old flow deadline).answer }
        ensures lane { self.new ≡ (open_of self.old flow deadline).lane }
    {
        match self.to_open(flow, deadline) {
            Ok(f) => {
                self.flows[f] = Flow {
                    opened: true,
                    deadline,
                    ..self.flows[f]
                };
                Answer::Opened
            }
            Err(refusal) => Answer::Refused(refusal),
        }
    }

    // The flow that is to be opened, or why it is not.
    #[tactic(auto, unfolding(crate::specs::Calls::open_of, units::specs::Refusals::first_of))]
    fn to_open(&self, flow: u64, deadline: u64) -> Result<usize, Refusal>
        ensures { MatchResult result (λ f. (f ≡ flow) × (flow ≤ 15) × (open_of self.entry.now flow deadline ≡ opened self.entry.now flow deadline)) (λ refusal. open_of self.entry.now flow deadline ≡ refused self.entry.now refusal) }
    {
        let f = units::flow_index(flow)?;
        if self.flows[f].opened {
            return Err(Refusal::AlreadyOpen);
        }
        if units::bad_deadline(deadline) {
            return Err(Refusal::BadDeadline);
        }
        Ok(f)
    }
}
