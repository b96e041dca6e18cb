// Opening and closing the flows of the class lane.
#![tactic(auto)]

ghost use Rattle.std.specs.Prelude.{◌≡◌};
ghost use Rattle.classes.specs.Calls.{open_of, close_of};

use classes::{Answer, Classes, Done};

// Opens a flow with a weight, which is its weight among the children of its class.
pub fn open(mut lane: Classes, flow: u64, weight: u64) -> Done
    ensures { result ≡ open_of lane flow weight }
{
    if let packets::Answer::Refused(refusal) = flows::open(&mut lane.queue, flow, weight) {
        return Done {
            lane,
            answer: Answer::Refused(refusal),
        };
    }
    let queue = lane.queue;
    let tree = lane.tree.weigh(flow, weight);
    Done {
        lane: Classes { tree, queue },
        answer: Answer::Opened,
    }
}

// Closes a flow that has no packet waiting and none in service.
pub fn close(mut lane: Classes, flow: u64) -> Done
    ensures { result ≡ close_of lane flow }
{
    let answer = match flows::close(&mut lane.queue, flow) {
        packets::Answer::Refused(refusal) => Answer::Refused(refusal),
        _ => Answer::Closed,
    };
    Done { lane, answer }
}
