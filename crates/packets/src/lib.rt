// A queue of packets, as every lane of packets keeps one: the packet in service, sixteen flows, and sixteen places for each of them.
#![tactic(auto)]

mod quoting;
mod ranking;

ghost use Rattle.std.specs.Prelude.{◌≡◌, ◌<◌, [], set};
ghost use Rattle.units.specs.Limits.{place_count};
ghost use Rattle.places.specs.Places.{places_of};
ghost use Rattle.places.specs.Choice.{at};
ghost use Rattle.tags.specs.Tags.{free_packet};
ghost use Rattle.packets.specs.Calls.{begun};
ghost use Rattle.packets.specs.Queue.{fresh_queue, flow_at, waiting, waiting_of, busy_with};

pub use quoting::{quote_of, start_after};
pub use ranking::ByStart;
use tags::{Flow, Packet};
use units::{Refusal, Tag};

// The service: idle, or busy with the packet of this flow, number, length in bytes and finish tag. `busy` stays a flag beside them, since C
// reads the service so (include/tuhkeliar.h).
#[repr(C)]
#[derive(Clone, Copy, Debug, PartialEq, Eq)]
pub struct Service {
    pub busy: bool,
    pub flow: u64,
    pub number: u64,
    pub length: u64,
    pub finish: Tag,
}

// The queue: the service, the flows, and the places, of which flow f has those from 16 f on.
#[repr(C)]
#[derive(Drop)]
pub struct Queue {
    pub service: Service,
    pub flows: [Flow; 16],
    pub packets: [Packet; 256],
}

// What a call is answered. A refusal stays one of the answers, and no error of a Result: the theorems on every call (RefusedFirst) and the
// promises over them name it so.
#[derive(Clone, Copy, Debug, PartialEq, Eq)]
pub enum Answer {
    Refused(Refusal),
    Opened,
    Closed,
    // The packet's number, its start tag and its finish tag.
    Accepted(u64, Tag, Tag),
    // The flow, the number, the length and the start tag of the packet that goes into service.
    Begun(u64, u64, u64, Tag),
    // The flow, the number and the length of the packet that was in service.
    Ended(u64, u64, u64),
}

// The tags that a packet would get.
#[derive(Clone, Copy, Debug, PartialEq, Eq)]
pub struct Quote {
    pub start: Tag,
    pub finish: Tag,
}

impl Queue {
    // The queue before any call.
    pub fn fresh() -> Queue
        ensures { result ≡ fresh_queue }
    {
        Queue {
            service: Service::IDLE,
            flows: [Flow::SHUT; 16],
            packets: [Packet::FREE; 256],
        }
    }

    // The record of a flow: of one that is none of the sixteen, that of a flow never opened.
    pub fn flow_at(&self, flow: u64) -> Flow
        ensures { result ≡ flow_at self.now flow }
    {
        match units::flow_index(flow) {
            Ok(f) => self.flows[f],
            Err(_) => Flow::SHUT,
        }
    }

    // The places of a flow; one that is none of the sixteen has none.
    pub fn places(&self, flow: u64) -> &[Packet]
        ensures value { result.now ≡ places_of place_count flow self.now.packets }
        ensures none { 15 < flow → result.now ≡ [] }
    {
        match units::flow_index(flow) {
            Ok(f) => &self.packets[f * 16..f * 16 + 16],
            Err(_) => &[],
        }
    }

    // How many packets wait.
    pub fn waiting(&self) -> u64
        ensures { result ≡ waiting self.now }
    {
        places::count_waiting(&ByStart, &self.packets) as u64
    }

    // How many packets of the flow wait.
    pub fn waiting_of(&self, flow: u64) -> u64
        ensures { result ≡ waiting_of self.now flow }
    {
        places::count_waiting(&ByStart, self.places(flow)) as u64
    }

    // The packet that waits in a place goes into service, and leaves its place free.
    pub fn serve(&mut self, place: usize, packet: Packet) -> Answer
        ensures answer { result ≡ (begun self.old (at place packet)).answer }
        ensures queue { self.new ≡ (begun self.old (at place packet)).queue }
    {
        let flow = (place / 16) as u64;
        leave(&mut self.packets, place);
        self.service = Service {
            busy: true,
            flow,
            number: packet.number,
            length: packet.length,
            finish: packet.finish,
        };
        Answer::Begun(flow, packet.number, packet.length, packet.start)
    }
}

impl Service {
    // No packet is in service.
    pub const IDLE: Service = Service {
        busy: false,
        flow: 0,
        number: 0,
        length: 0,
        finish: Tag(0),
    };
}

// A place is left free, if there is such a place.
fn leave(packets: &mut [Packet], place: usize)
    ensures { packets.new ≡ set packets.old place free_packet }
{
    if place < packets.len() {
        packets[place] = Packet::FREE;
    }
}

// Whether the service is busy with a packet of the flow.
pub fn busy_with(service: Service, flow: u64) -> bool
    ensures { result ≡ busy_with service flow }
{
    service.busy && service.flow == flow
}
