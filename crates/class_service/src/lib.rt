// Serving the packets of the class lane: beginning one and ending it.
#![tactic(auto)]

ghost use Rattle.std.specs.Prelude.{◌≡◌};
ghost use Rattle.classes.specs.Calls.{refused, begin_of, end_of};

use classes::{Answer, Classes, Done};
use units::Refusal;

// Takes into service the packet of the flow that the way down the tree comes to; where a finish on its way would pass the largest tag,
// nothing is begun.
pub fn begin(mut lane: Classes) -> Done
    ensures { result ≡ begin_of lane }
{
    let met = descent::flow_met(&lane.tree);
    match taking::lowest(&lane.queue, met) {
        Ok((place, packet)) => {
            let flow = (place / 16) as u64;
            if charging::passes(&lane.tree, flow, packet.length) {
                return refused(lane, Refusal::TagsUsedUp);
            }
            let start = lane.tree.flow_node(flow).start;
            lane.queue.serve(place, packet);
            let queue = lane.queue;
            let tree = charging::begin(lane.tree, flow, packet.length);
            Done {
                lane: Classes { tree, queue },
                answer: Answer::Begun(flow, packet.number, packet.length, start),
            }
        }
        Err(refusal) => refused(lane, refusal),
    }
}

// Ends the packet in service: each class on its way takes its child's finish.
pub fn end(mut lane: Classes) -> Done
    ensures { result ≡ end_of lane }
{
    let served = lane.queue.service;
    if let packets::Answer::Refused(refusal) = service::end(&mut lane.queue) {
        return refused(lane, refusal);
    }
    let queue = lane.queue;
    let tree = ascent::end(lane.tree, served.flow);
    Done {
        lane: Classes { tree, queue },
        answer: Answer::Ended(served.flow, served.number, served.length),
    }
}

// A refused call hands the lane back as it was.
fn refused(lane: Classes, refusal: Refusal) -> Done
    ensures { result ≡ refused lane refusal }
{
    Done {
        lane,
        answer: Answer::Refused(refusal),
    }
}
