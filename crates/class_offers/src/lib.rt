// Offering packets to the class lane.
#![tactic(auto)]

ghost use Rattle.std.specs.Prelude.{◌≡◌};
ghost use Rattle.classes.specs.Calls.{offer_of};

use classes::{Answer, Classes, Done};
use packets::Quote;
use units::Tag;

// A packet of a class has no tags of its own.
const UNTAGGED: Quote = Quote {
    start: Tag(0),
    finish: Tag(0),
};

// Offers a packet of a flow, of this length in bytes: each class above the flow counts it, and it is answered its number.
pub fn offer(mut lane: Classes, flow: u64, length: u64) -> Done
    ensures { result ≡ offer_of lane flow length }
{
    let number = lane.queue.flow_at(flow).next;
    if let packets::Answer::Refused(refusal) = queue::put(
        &mut lane.queue,
        flow,
        length,
        Some(UNTAGGED),
    ) {
        return Done {
            lane,
            answer: Answer::Refused(refusal),
        };
    }
    let queue = lane.queue;
    let tree = ascent::offer(lane.tree, flow);
    Done {
        lane: Classes { tree, queue },
        answer: Answer::Taken(number),
    }
}
