// Which of a flow's packets goes first.
ghost use Rattle.std.specs.Prelude.{◌≡◌};

use places::Ranking;
use tags::Packet;

// The packets of a flow are taken by number.
pub(crate) struct ByNumber;

impl Ranking<Packet> for ByNumber {
    ghost use Rattle.tags.specs.Tags.{is_held};
    ghost use Rattle.taking.specs.Taking.{by_number};

    ghost held = { λ _ p. is_held p };

    ghost key = { λ _ place p. by_number place p };

    // A packet that holds its place waits.
    fn waits(&self, packet: Packet) -> bool {
        packet.held
    }

    // Of packets with one number, which no lane has, the first place would go first.
    #[tactic(auto, unfolding(places::specs::Choice::comes_before))]
    fn goes_before(&self, place: usize, packet: Packet, other: usize, than: Packet) -> bool {
        if packet.number != than.number {
            return packet.number < than.number;
        }
        place < other
    }
}
