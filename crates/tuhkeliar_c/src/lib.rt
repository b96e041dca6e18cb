// The station and the class lane for programs in C: each call by value, and its answer as five plain numbers.
#![tactic(auto)]

mod sharing;

ghost use Rattle.std.specs.Prelude.{◌≡◌};
ghost use Rattle.urgent.specs.Calls.{turn_of};
ghost use Rattle.urgent.specs.Calls.{open_of as open_urgent_of};
ghost use Rattle.urgent.specs.Calls.{close_of as close_urgent_of};
ghost use Rattle.urgent.specs.Calls.{offer_of as offer_cell_of};
ghost use Rattle.fair.specs.Calls.{begin_of, end_of};
ghost use Rattle.fair.specs.Calls.{open_of as open_fair_of};
ghost use Rattle.fair.specs.Calls.{close_of as close_fair_of};
ghost use Rattle.fair.specs.Calls.{offer_of as offer_packet_of};
ghost use Rattle.station.specs.Calls.{fresh_station, by_urgent, by_fair};
ghost use Rattle.units.specs.Radio.{slots_passed};
ghost use Rattle.tuhkeliar_c.specs.Calls.{called_of};

use plain::Answer;
use station::Station;

// The station after a call, and the answer.
#[repr(C)]
#[derive(Drop)]
pub struct Called {
    pub station: Station,
    pub answer: Answer,
}

// The station before any call.
#[unsafe(no_mangle)]
pub extern "C" fn tuhkeliar_fresh() -> Station
    ensures { result ≡ fresh_station }
{
    Station::fresh()
}

// Opens a flow of the urgent lane with a deadline.
#[unsafe(no_mangle)]
pub extern "C" fn tuhkeliar_open_urgent(station: Station, flow: u64, deadline: u64) -> Called
    ensures { result ≡ called_of (by_urgent station (open_urgent_of station.urgent flow deadline)) }
{
    handed(station.open_urgent(flow, deadline))
}

// Opens a flow of the fair lane with a weight.
#[unsafe(no_mangle)]
pub extern "C" fn tuhkeliar_open_fair(station: Station, flow: u64, weight: u64) -> Called
    ensures { result ≡ called_of (by_fair station (open_fair_of station.fair flow weight)) }
{
    handed(station.open_fair(flow, weight))
}

// Closes a flow of the urgent lane that has no cell waiting.
#[unsafe(no_mangle)]
pub extern "C" fn tuhkeliar_close_urgent(station: Station, flow: u64) -> Called
    ensures { result ≡ called_of (by_urgent station (close_urgent_of station.urgent flow)) }
{
    handed(station.close_urgent(flow))
}

// Closes a flow of the fair lane that has no packet waiting or in service.
#[unsafe(no_mangle)]
pub extern "C" fn tuhkeliar_close_fair(station: Station, flow: u64) -> Called
    ensures { result ≡ called_of (by_fair station (close_fair_of station.fair flow)) }
{
    handed(station.close_fair(flow))
}

// Offers a cell of a flow to the urgent lane, with a deadline of its own.
#[unsafe(no_mangle)]
pub extern "C" fn tuhkeliar_offer_cell(station: Station, flow: u64, deadline: u64) -> Called
    ensures { result ≡ called_of (by_urgent station (offer_cell_of station.urgent flow deadline)) }
{
    handed(station.offer_cell(flow, deadline))
}

// Offers a packet of a flow to the fair lane.
#[unsafe(no_mangle)]
pub extern "C" fn tuhkeliar_offer_packet(station: Station, flow: u64, length: u64) -> Called
    ensures { result ≡ called_of (by_fair station (offer_packet_of station.fair flow length)) }
{
    handed(station.offer_packet(flow, length))
}

// A turn of the radio, open or lost.
#[unsafe(no_mangle)]
pub extern "C" fn tuhkeliar_turn(station: Station, usable: bool) -> Called
    ensures { result ≡ called_of (by_urgent station (turn_of station.urgent usable)) }
{
    handed(station.turn(usable))
}

// Takes a waiting packet into service.
#[unsafe(no_mangle)]
pub extern "C" fn tuhkeliar_begin(station: Station) -> Called
    ensures { result ≡ called_of (by_fair station (begin_of station.fair)) }
{
    handed(station.begin())
}

// Ends the packet in service.
#[unsafe(no_mangle)]
pub extern "C" fn tuhkeliar_end(station: Station) -> Called
    ensures { result ≡ called_of (by_fair station (end_of station.fair)) }
{
    handed(station.end())
}

// How many slots passed between two of the radio's counts; a gap of 65,536 or more can't be told.
#[unsafe(no_mangle)]
pub extern "C" fn tuhkeliar_slots_passed(earlier: u16, later: u16) -> u16
    ensures { result ≡ slots_passed earlier later }
{
    units::slots_passed(earlier, later)
}

// The station after a call, and the reply in plain numbers.
fn handed(called: station::Called) -> Called
    ensures { result ≡ called_of called }
{
    Called {
        station: called.station,
        answer: plain::plainly(called.reply),
    }
}
