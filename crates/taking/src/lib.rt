// The service of a queue whose flow is settled elsewhere: it is given that flow's packet of least number.
#![tactic(auto)]

mod ranking;

ghost use Rattle.std.specs.Prelude.{◌≡◌, MatchResult};
ghost use Rattle.places.specs.Choice.{at};
ghost use Rattle.packets.specs.Calls.{begun, refused};
ghost use Rattle.taking.specs.Taking.{lowest_of, take_of};

use packets::Queue;
use ranking::ByNumber;
use tags::Packet;
use units::Refusal;

// The flow's waiting packet of least number and its place, or why none is taken into service.
pub fn lowest(queue: &Queue, flow: u64) -> Result<(usize, Packet), Refusal>
    ensures { MatchResult result (λ first. (lowest_of queue.now flow ≡ at first.0 first.1) × (take_of queue.now flow ≡ begun queue.now (at first.0 first.1))) (λ refusal. take_of queue.now flow ≡ refused queue.now refusal) }
{
    if queue.service.busy {
        return Err(Refusal::PacketInService);
    }
    let places = queue.places(flow);
    let Ok(f) = units::flow_index(flow) else {
        return Err(Refusal::NothingWaits);
    };
    let Some((k, packet)) = places::first(&ByNumber, places) else {
        return Err(Refusal::NothingWaits);
    };
    Ok((f * 16 + k, packet))
}
