// The places of a queue of packets: putting a packet that is offered.
#![tactic(auto)]

ghost use Rattle.std.specs.Prelude.{◌≡◌, MatchResult};
ghost use Rattle.packets.specs.Calls.{put_of, refused};
ghost use Rattle.queue.specs.Taken.{Takes};

use packets::{Answer, ByStart, Queue, Quote};
use tags::{Flow, Packet};
use units::Refusal;

// Puts a packet of a flow, of this length in bytes, in the flow's first free place, with the tags that it was quoted.
pub fn put(queue: &mut Queue, flow: u64, length: u64, quote: Option<Quote>) -> Answer
    ensures answer { result ≡ (put_of queue.old flow length quote).answer }
    ensures queue { queue.new ≡ (put_of queue.old flow length quote).queue }
{
    match to_put(queue, flow, length, quote) {
        Ok((f, place, Quote { start, finish })) => {
            let number = queue.flows[f].next;
            queue.packets[place] = Packet {
                held: true,
                number,
                length,
                start,
                finish,
            };
            queue.flows[f] = Flow {
                next: number.wrapping_add(1),
                finish,
                ..queue.flows[f]
            };
            Answer::Accepted(number, start, finish)
        }
        Err(refusal) => Answer::Refused(refusal),
    }
}

// The flow of a packet that is put, the place that it takes and its tags; or why it is not taken.
#[tactic(auto, unfolding(packets::specs::Calls::put_of, units::specs::Refusals::first_of))]
fn to_put(
    queue: &Queue,
    flow: u64,
    length: u64,
    quote: Option<Quote>,
) -> Result<(usize, usize, Quote), Refusal>
    ensures { MatchResult result (λ taken. Takes queue.now flow length quote taken.0 taken.1 taken.2) (λ refusal. put_of queue.now flow length quote ≡ refused queue.now refusal) }
{
    let f = units::flow_index(flow)?;
    if !queue.flows[f].opened {
        return Err(Refusal::NotOpen);
    }
    if units::bad_length(length) {
        return Err(Refusal::BadLength);
    }
    let Some(k) = places::first_free(&ByStart, queue.places(flow)) else {
        return Err(Refusal::PlacesFull);
    };
    let Some(tags) = quote else {
        return Err(Refusal::TagsUsedUp);
    };
    Ok((f, f * 16 + k, tags))
}
