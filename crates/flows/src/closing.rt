// Closing a flow.
ghost use Rattle.std.specs.Prelude.{◌≡◌, ◌≤◌, MatchResult};
ghost use Rattle.packets.specs.Calls.{closed, refused_flows, queue_with, close_of};

use packets::{Answer, Queue};
use units::Refusal;

// Closes a flow that has no packet waiting and none in service. Its numbers and its last finish go on when it is opened again.
pub fn close(queue: &mut Queue, flow: u64) -> Answer
    ensures answer { result ≡ (close_of queue.old flow).answer }
    ensures flows { queue.new ≡ queue_with queue.old (close_of queue.old flow) }
{
    match to_close(queue, flow) {
        Ok(f) => {
            queue.flows[f].opened = false;
            Answer::Closed
        }
        Err(refusal) => Answer::Refused(refusal),
    }
}

// The flow that is to be closed, or why it is not.
#[tactic(auto, unfolding(packets::specs::Calls::close_of, units::specs::Refusals::first_of))]
fn to_close(queue: &Queue, flow: u64) -> Result<usize, Refusal>
    ensures { MatchResult result (λ f. (f ≡ flow) × (flow ≤ 15) × (close_of queue.now flow ≡ closed queue.now flow)) (λ refusal. close_of queue.now flow ≡ refused_flows queue.now refusal) }
{
    let f = units::flow_index(flow)?;
    if !queue.flows[f].opened {
        return Err(Refusal::NotOpen);
    }
    if 0 < queue.waiting_of(flow) {
        return Err(Refusal::FlowInUse);
    }
    if packets::busy_with(queue.service, flow) {
        return Err(Refusal::FlowInUse);
    }
    Ok(f)
}
