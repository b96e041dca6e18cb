// The station: an urgent lane and a fair lane in one state, which every call takes by value and hands back beside the reply.
#![tactic(auto)]

ghost use Rattle.std.specs.Prelude.{◌≡◌};
ghost use Rattle.urgent.specs.Calls.{turn_of};
ghost use Rattle.urgent.specs.Calls.{open_of as open_urgent_of};
ghost use Rattle.urgent.specs.Calls.{close_of as close_urgent_of};
ghost use Rattle.urgent.specs.Calls.{offer_of as offer_cell_of};
ghost use Rattle.fair.specs.Calls.{begin_of, end_of};
ghost use Rattle.fair.specs.Calls.{open_of as open_fair_of};
ghost use Rattle.fair.specs.Calls.{close_of as close_fair_of};
ghost use Rattle.fair.specs.Calls.{offer_of as offer_packet_of};
ghost use Rattle.station.specs.Calls.{fresh_station, by_urgent, by_fair, call_of};

use fair::Fair;
use urgent::Urgent;

// Both lanes. They share nothing.
#[repr(C)]
#[derive(Drop)]
pub struct Station {
    pub urgent: Urgent,
    pub fair: Fair,
}

// Every call that a station answers.
#[derive(Clone, Copy, Debug, PartialEq, Eq)]
pub enum Call {
    // Opens a flow of the urgent lane: the flow and its deadline.
    OpenUrgent(u64, u64),
    // Opens a flow of the fair lane: the flow and its weight.
    OpenFair(u64, u64),
    // Closes a flow of the urgent lane: the flow.
    CloseUrgent(u64),
    // Closes a flow of the fair lane: the flow.
    CloseFair(u64),
    // Offers a cell: the flow and the cell's own deadline.
    OfferCell(u64, u64),
    // Offers a packet: the flow and the length.
    OfferPacket(u64, u64),
    OpenTurn,
    LostTurn,
    Begin,
    End,
}

// What a call is answered, by the lane that it went to.
#[derive(Clone, Copy, Debug, PartialEq, Eq)]
pub enum Reply {
    Urgent(urgent::Answer),
    Fair(fair::Answer),
}

// The station after a call, and the reply.
#[derive(Drop)]
pub struct Called {
    pub station: Station,
    pub reply: Reply,
}

impl Station {
    // The station before any call.
    pub fn fresh() -> Station
        ensures { result ≡ fresh_station }
    {
        Station {
            urgent: Urgent::fresh(),
            fair: Fair::fresh(),
        }
    }

    // Opens a flow of the urgent lane with a deadline.
    pub fn open_urgent(mut self, flow: u64, deadline: u64) -> Called
        ensures { result ≡ by_urgent self (open_urgent_of self.urgent flow deadline) }
    {
        let reply = Reply::Urgent(self.urgent.open_at(flow, deadline));
        Called {
            station: self,
            reply,
        }
    }

    // Opens a flow of the fair lane with a weight.
    pub fn open_fair(mut self, flow: u64, weight: u64) -> Called
        ensures { result ≡ by_fair self (open_fair_of self.fair flow weight) }
    {
        let reply = Reply::Fair(self.fair.open_at(flow, weight));
        Called {
            station: self,
            reply,
        }
    }

    // Closes a flow of the urgent lane that has no cell waiting.
    pub fn close_urgent(mut self, flow: u64) -> Called
        ensures { result ≡ by_urgent self (close_urgent_of self.urgent flow) }
    {
        let reply = Reply::Urgent(self.urgent.close_at(flow));
        Called {
            station: self,
            reply,
        }
    }

    // Closes a flow of the fair lane that has no packet waiting or in service.
    pub fn close_fair(mut self, flow: u64) -> Called
        ensures { result ≡ by_fair self (close_fair_of self.fair flow) }
    {
        let reply = Reply::Fair(self.fair.close_at(flow));
        Called {
            station: self,
            reply,
        }
    }

    // Offers a cell of a flow to the urgent lane, with a deadline of its own.
    pub fn offer_cell(mut self, flow: u64, deadline: u64) -> Called
        ensures { result ≡ by_urgent self (offer_cell_of self.urgent flow deadline) }
    {
        let reply = Reply::Urgent(self.urgent.offer_at(flow, deadline));
        Called {
            station: self,
            reply,
        }
    }

    // Offers a packet of a flow to the fair lane.
    pub fn offer_packet(mut self, flow: u64, length: u64) -> Called
        ensures { result ≡ by_fair self (offer_packet_of self.fair flow length) }
    {
        let reply = Reply::Fair(self.fair.offer_at(flow, length));
        Called {
            station: self,
            reply,
        }
    }

    // A turn of the radio, open or lost.
    pub fn turn(mut self, usable: bool) -> Called
        ensures { result ≡ by_urgent self (turn_of self.urgent usable) }
    {
        let reply = Reply::Urgent(self.urgent.turn_at(usable));
        Called {
            station: self,
            reply,
        }
    }

    // Takes a waiting packet into service.
    pub fn begin(mut self) -> Called
        ensures { result ≡ by_fair self (begin_of self.fair) }
    {
        let reply = Reply::Fair(self.fair.begin_at());
        Called {
            station: self,
            reply,
        }
    }

    // Ends the packet in service.
    pub fn end(mut self) -> Called
        ensures { result ≡ by_fair self (end_of self.fair) }
    {
        let reply = Reply::Fair(self.fair.end_at());
        Called {
            station: self,
            reply,
        }
    }

    // Answers any call.
    pub fn call(mut self, call: Call) -> Called
        ensures { result ≡ call_of self call }
    {
        let reply = self.call_at(call);
        Called {
            station: self,
            reply,
        }
    }

    // Answers any call, on a station that stays where it is.
    #[tactic(auto, unfolding(crate::specs::Calls::call_of))]
    pub fn call_at(&mut self, call: Call) -> Reply
        ensures reply { result ≡ (call_of self.old call).reply }
        ensures station { self.new ≡ (call_of self.old call).station }
    {
        match call {
            Call::OpenUrgent(flow, deadline) => Reply::Urgent(self.urgent.open_at(flow, deadline)),
            Call::OpenFair(flow, weight) => Reply::Fair(self.fair.open_at(flow, weight)),
            Call::CloseUrgent(flow) => Reply::Urgent(self.urgent.close_at(flow)),
            Call::CloseFair(flow) => Reply::Fair(self.fair.close_at(flow)),
            Call::OfferCell(flow, deadline) => Reply::Urgent(self.urgent.offer_at(flow, deadline)),
            Call::OfferPacket(flow, length) => Reply::Fair(self.fair.offer_at(flow, length)),
            Call::OpenTurn => Reply::Urgent(self.urgent.turn_at(true)),
            Call::LostTurn => Reply::Urgent(self.urgent.turn_at(false)),
            Call::Begin => Reply::Fair(self.fair.begin_at()),
            Call::End => Reply::Fair(self.fair.end_at()),
        }
    }
}
