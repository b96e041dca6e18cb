// Opening a flow.
ghost use Rattle.std.specs.Prelude.{◌≡◌, ◌≤◌, MatchResult};
ghost use Rattle.packets.specs.Calls.{opened, refused_flows, queue_with, open_of};

use packets::{Answer, Queue};
use tags::Flow;
use units::Refusal;

// Opens a flow with a weight. Its numbers and its last finish go on where they stood.
pub fn open(queue: &mut Queue, flow: u64, weight: u64) -> Answer
    ensures answer { result ≡ (open_of queue.old flow weight).answer }
    ensures flows { queue.new ≡ queue_with queue.old (open_of queue.old flow weight) }
{
    match to_open(queue, flow, weight) {
        Ok(f) => {
            queue.flows[f] = Flow {
                opened: true,
                weight,
                ..queue.flows[f]
            };
            Answer::Opened
        }
        Err(refusal) => Answer::Refused(refusal),
    }
}

// The flow that is to be opened, or why it is not.
#[tactic(auto, unfolding(packets::specs::Calls::open_of, units::specs::Refusals::first_of))]
fn to_open(queue: &Queue, flow: u64, weight: u64) -> Result<usize, Refusal>
    ensures { MatchResult result (λ f. (f ≡ flow) × (flow ≤ 15) × (open_of queue.now flow weight ≡ opened queue.now flow weight)) (λ refusal. open_of queue.now flow weight ≡ refused_flows queue.now refusal) }
{
    let f = units::flow_index(flow)?;
    if queue.flows[f].opened {
        return Err(Refusal::AlreadyOpen);
    }
    if units::bad_weight(weight) {
        return Err(Refusal::BadWeight);
    }
    Ok(f)
}
