// What each call is to the log.
ghost use Rattle.std.specs.Prelude.{◌≡◌, false, cond, ◌||◌, ◌≤◌};
ghost use Rattle.units.specs.Limits.{no_such_flow};
ghost use Rattle.station.specs.declared.Call.TheVariants.{OpenUrgent, OpenFair};
ghost use Rattle.logging.specs.Sorts.{beyond, happens, event, kind_number, sort_of, sorted_of, closing_sort};

use crate::Sorted;
use log_format::Kind;
use station::Call;
use units::LAST_FLOW;

// What a call is to the log.
pub fn sort(call: Call) -> Sorted
    ensures { result ≡ sorted_of (sort_of call) }
{
    match call {
        Call::OpenUrgent(flow, deadline) => opens_urgent(flow, deadline),
        Call::OpenFair(flow, weight) => opens_fair(flow, weight),
        Call::CloseUrgent(flow) | Call::CloseFair(flow) => closes(flow),
        Call::OfferCell(flow, deadline) => {
            offer(Kind::Cell, flow, deadline, units::bad_deadline(deadline))
        }
        Call::OfferPacket(flow, length) => {
            offer(Kind::Packet, flow, length, units::bad_length(length))
        }
        Call::OpenTurn => Sorted::Happens(Kind::OpenTurn as u32),
        Call::LostTurn => Sorted::Happens(Kind::LostTurn as u32),
        Call::Begin => Sorted::Happens(Kind::Begin as u32),
        Call::End => Sorted::Happens(Kind::End as u32),
    }
}

// What an opening of the urgent lane is.
fn opens_urgent(flow: u64, deadline: u64) -> Sorted
    ensures { result ≡ sorted_of (sort_of (OpenUrgent flow deadline)) }
{
    if LAST_FLOW < flow || units::bad_deadline(deadline) {
        return Sorted::Beyond;
    }
    Sorted::OpensUrgent(flow as usize, deadline as u16)
}

// What an opening of the fair lane is.
fn opens_fair(flow: u64, weight: u64) -> Sorted
    ensures { result ≡ sorted_of (sort_of (OpenFair flow weight)) }
{
    if LAST_FLOW < flow || units::bad_weight(weight) {
        return Sorted::Beyond;
    }
    Sorted::OpensFair(flow as usize, weight as u16)
}

// What a closing of either lane is.
fn closes(flow: u64) -> Sorted
    ensures { result ≡ sorted_of (closing_sort flow) }
{
    if LAST_FLOW < flow {
        return Sorted::Beyond;
    }
    Sorted::Closes
}

// What an offer is: an event of this kind with its flow and its number, unless one of them is beyond its limits.
fn offer(kind: Kind, flow: u64, number: u64, bad: bool) -> Sorted
    requires { bad ≡ false → number ≤ 4096 }
    ensures { result ≡ sorted_of (cond (no_such_flow flow || bad) beyond (happens (event (kind_number kind) flow number))) }
{
    if LAST_FLOW < flow || bad {
        return Sorted::Beyond;
    }
    Sorted::Happens((kind as u64 + 256 * flow + 65_536 * number) as u32)
}
