// Closing a flow.
ghost use Rattle.std.specs.Prelude.{◌≡◌, ◌≤◌, MatchResult};
ghost use Rattle.urgent.specs.Calls.{closed, refused, close_of};

use crate::ranking::ByLastSlot;
use crate::{Answer, Done, Urgent};
use units::Refusal;

impl Urgent {
    // Closes a flow that has no cell waiting. Its numbers go on when it is opened again.
    pub fn close(mut self, flow: u64) -> Done
        ensures { result ≡ close_of self flow }
    {
        let answer = self.close_at(flow);
        Done { lane: self, answer }
    }

    // The same on a lane that stays where it is.
    pub fn close_at(&mut self, flow: u64) -> Answer
        ensures answer { result ≡ (close_of self.old flow).answer }
        ensures lane { self.new ≡ (close_of self.old flow).lane }
    {
        match self.to_close(flow) {
            Ok(f) => {
                self.flows[f].opened = false;
                Answer::Closed
            }
            Err(refusal) => Answer::Refused(refusal),
        }
    }

    // The flow that is to be closed, or why it is not.
    #[tactic(auto, unfolding(crate::specs::Calls::close_of, units::specs::Refusals::first_of))]
    fn to_close(&self, flow: u64) -> Result<usize, Refusal>
        ensures { MatchResult result (λ f. (f ≡ flow) × (flow ≤ 15) × (close_of self.entry.now flow ≡ closed self.entry.now flow)) (λ refusal. close_of self.entry.now flow ≡ refused self.entry.now refusal) }
    {
        let f = units::flow_index(flow)?;
        if !self.flows[f].opened {
            return Err(Refusal::NotOpen);
        }
        if 0 < places::count_waiting(&ByLastSlot, self.places(f)) {
            return Err(Refusal::FlowInUse);
        }
        Ok(f)
    }
}
