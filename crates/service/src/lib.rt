// The service of a queue of packets: taking the first packet into it, and ending it.
#![tactic(auto)]

ghost use Rattle.std.specs.Prelude.{◌≡◌, MatchResult};
ghost use Rattle.places.specs.Choice.{at};
ghost use Rattle.packets.specs.Queue.{by_start};
ghost use Rattle.packets.specs.Calls.{begun, refused, begin_by, end_of};

use packets::{Answer, ByStart, Queue, Service};
use tags::Packet;
use units::Refusal;

// Takes the waiting packet with the smallest start tag into service.
pub fn begin(queue: &mut Queue) -> Answer
    ensures answer { result ≡ (begin_by by_start queue.old).answer }
    ensures queue { queue.new ≡ (begin_by by_start queue.old).queue }
{
    match to_begin(queue) {
        Ok((place, packet)) => queue.serve(place, packet),
        Err(refusal) => Answer::Refused(refusal),
    }
}

// The packet that is to be begun and its place, or why none is.
fn to_begin(queue: &Queue) -> Result<(usize, Packet), Refusal>
    ensures { MatchResult result (λ first. begin_by by_start queue.now ≡ begun queue.now (at first.0 first.1)) (λ refusal. begin_by by_start queue.now ≡ refused queue.now refusal) }
{
    if queue.service.busy {
        return Err(Refusal::PacketInService);
    }
    places::first(&ByStart, &queue.packets).ok_or(Refusal::NothingWaits)
}

// Ends the packet in service.
#[tactic(auto, unfolding(packets::specs::Calls::end_of, units::specs::Refusals::first_of))]
pub fn end(queue: &mut Queue) -> Answer
    ensures answer { result ≡ (end_of queue.old).answer }
    ensures queue { queue.new ≡ (end_of queue.old).queue }
{
    let served = queue.service;
    if !served.busy {
        return Answer::Refused(Refusal::NothingInService);
    }
    queue.service = Service::IDLE;
    Answer::Ended(served.flow, served.number, served.length)
}
