// Lanes that are written out, and not come to by calls.
use fair::Fair;
use packets::Service;
use tags::{Flow, Packet};
use units::Tag;

// A lane as before any call, but at a virtual time, and with flow 0 open.
pub(crate) fn written(time: u64, weight: u64, next: u64, finish: u64) -> Fair {
    let mut lane = Fair::fresh();
    lane.time = Tag(time);
    lane.queue.flows[0] = Flow {
        opened: true,
        weight,
        next,
        finish: Tag(finish),
    };
    lane
}

// A lane with a packet in service that would finish here, and with the largest finish so far.
pub(crate) fn serving(finish: u64, largest: u64) -> Fair {
    let mut lane = written(0, 1, 0, 0);
    lane.largest = Tag(largest);
    lane.queue.service = Service {
        busy: true,
        flow: 3,
        number: 7,
        length: 9,
        finish: Tag(finish),
    };
    lane
}

// A lane with two packets of flow 0 that start here and here, the one with the lower number in the later place.
pub(crate) fn two_waiting(first: u64, second: u64) -> Fair {
    let mut lane = written(0, 1, 0, 0);
    lane.queue.packets[2] = Packet {
        held: true,
        number: 8,
        length: 20,
        start: Tag(first),
        finish: Tag(first),
    };
    lane.queue.packets[5] = Packet {
        held: true,
        number: 4,
        length: 50,
        start: Tag(second),
        finish: Tag(second),
    };
    lane
}
