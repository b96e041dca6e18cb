// Offering a cell.
ghost use Rattle.std.specs.Prelude.{◌≡◌, MatchResult};
ghost use Rattle.urgent.specs.Calls.{refused, offer_of};
ghost use Rattle.urgent.specs.Taken.{Takes};

use crate::ranking::ByLastSlot;
use crate::slots::{last_of, window_passes};
use crate::{Answer, Cell, Done, Urgent};
use units::Refusal;

impl Urgent {
    // Offers a cell of a flow, which may wait for this many slots: its own deadline, no longer than the flow's.
    pub fn offer(mut self, flow: u64, deadline: u64) -> Done
        ensures { result ≡ offer_of self flow deadline }
    {
        let answer = self.offer_at(flow, deadline);
        Done { lane: self, answer }
    }

    // The same on a lane that stays where it is.
    pub fn offer_at(&mut self, flow: u64, deadline: u64) -> Answer
        ensures answer { result ≡ (offer_of self.old flow deadline).answer }
        ensures lane { self.new ≡ (offer_of self.old flow deadline).lane }
    {
        match self.to_offer(flow, deadline) {
            Ok((f, place)) => {
                let number = self.flows[f].next;
                let last = last_of(self.now, deadline);
                self.flows[f].next = number.wrapping_add(1);
                self.cells[place] = Cell {
                    held: true,
                    number,
                    last,
                };
                Answer::Accepted(number, last)
            }
            Err(refusal) => Answer::Refused(refusal),
        }
    }

    // The flow of a cell that is offered and the place that it takes, or why it is not taken.
    #[tactic(auto, unfolding(crate::specs::Calls::offer_of, units::specs::Refusals::first_of))]
    fn to_offer(&self, flow: u64, deadline: u64) -> Result<(usize, usize), Refusal>
        ensures { MatchResult result (λ taken. Takes self.entry.now flow deadline taken.0 taken.1) (λ refusal. offer_of self.entry.now flow deadline ≡ refused self.entry.now refusal) }
    {
        let f = units::flow_index(flow)?;
        if !self.flows[f].opened {
            return Err(Refusal::NotOpen);
        }
        if units::outside(deadline, self.flows[f].deadline) {
            return Err(Refusal::BadDeadline);
        }
        let Some(k) = places::first_free(&ByLastSlot, self.places(f)) else {
            return Err(Refusal::PlacesFull);
        };
        if window_passes(self.now, deadline) {
            return Err(Refusal::SlotsUsedUp);
        }
        Ok((f, f * 16 + k))
    }
}
