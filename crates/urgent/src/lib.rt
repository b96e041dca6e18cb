// The urgent lane: sixteen flows with sixteen places each, and one cell sent in each open turn, the one with the earliest last slot.
#![tactic(auto)]

mod closing;
mod offering;
mod opening;
mod ranking;
mod slots;
mod turning;

ghost use Rattle.std.specs.Prelude.{◌≡◌, ◌<◌, ◌*◌};
ghost use Rattle.units.specs.Limits.{place_count};
ghost use Rattle.places.specs.Places.{places_of};
ghost use Rattle.urgent.specs.Lane.{free_cell, fresh_lane};

use units::{Refusal, Slot};

// A place: free, or held by the waiting cell of this number and last slot. `held` stays a flag beside them, since C reads a place so
// (include/tuhkeliar.h).
#[repr(C)]
#[derive(Clone, Copy, Debug, PartialEq, Eq)]
pub struct Cell {
    pub held: bool,
    pub number: u64,
    pub last: Slot,
}

// A flow: whether it is open, its deadline in slots, and the number of its next cell. C reads it so.
#[repr(C)]
#[derive(Clone, Copy, Debug, PartialEq, Eq)]
pub struct Flow {
    pub opened: bool,
    pub deadline: u64,
    pub next: u64,
}

// The lane: the next slot to come, the flows, and the places, of which flow f has those from 16 f on.
#[repr(C)]
#[derive(Drop)]
pub struct Urgent {
    pub now: Slot,
    pub flows: [Flow; 16],
    pub cells: [Cell; 256],
}

// What a call is answered. A refusal stays one of the answers, and no error of a Result: the theorems on every call (RefusedFirst,
// RefusedSame) and the promises over them name it so.
#[derive(Clone, Copy, Debug, PartialEq, Eq)]
pub enum Answer {
    Refused(Refusal),
    Opened,
    Closed,
    // The cell's number and its last slot.
    Accepted(u64, Slot),
    // The flow and the number of the cell sent, and how many cells were missed.
    Sent(u64, u64, u64),
    // How many cells were missed.
    Idle(u64),
}

// The lane after a call, and the answer.
#[derive(Drop)]
pub struct Done {
    pub lane: Urgent,
    pub answer: Answer,
}

// A free place.
const FREE: Cell = Cell {
    held: false,
    number: 0,
    last: Slot(0),
};

impl Urgent {
    // The lane before any call.
    pub fn fresh() -> Urgent
        ensures { result ≡ fresh_lane }
    {
        Urgent {
            now: Slot(0),
            flows: [Flow {
                opened: false,
                deadline: 0,
                next: 0,
            }; 16],
            cells: [FREE; 256],
        }
    }

    // The places of a flow.
    fn places(&self, flow: usize) -> &[Cell]
        requires { flow < 16 }
        ensures { result.now ≡ places_of place_count flow self.entry.now.cells }
    {
        &self.cells[flow * 16..flow * 16 + 16]
    }
}
