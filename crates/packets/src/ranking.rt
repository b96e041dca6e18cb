// What waits in a place of the queue, and which packet goes first.
ghost use Rattle.std.specs.Prelude.{◌≡◌};

use places::Ranking;
use tags::Packet;

// Packets are served by start tag, then by flow, then by number.
pub struct ByStart;

impl Ranking<Packet> for ByStart {
    ghost use Rattle.tags.specs.Tags.{is_held};
    ghost use Rattle.packets.specs.Queue.{by_start, key_by};

    ghost held = { λ _ p. is_held p };

    ghost key = { λ _ place p. key_by by_start place p };

    // A packet that holds its place waits.
    fn waits(&self, packet: Packet) -> bool {
        packet.held
    }

    // The earlier start goes first, then the lower flow, which the place tells, then the lower number.
    #[tactic(auto, unfolding(places::specs::Choice::comes_before))]
    fn goes_before(&self, place: usize, packet: Packet, other: usize, than: Packet) -> bool {
        if packet.start != than.start {
            return tags::earlier(packet.start, than.start);
        }
        if place / 16 != other / 16 {
            return place / 16 < other / 16;
        }
        packet.number < than.number
    }
}
