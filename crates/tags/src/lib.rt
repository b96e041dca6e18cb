// What every fair queue shares: a flow's record, a packet's, and the tags of a packet that is offered.
#![tactic(auto)]

ghost use Rattle.std.specs.Prelude.{◌≡◌, ltb};
ghost use Rattle.tags.specs.Tags.{later_of, finish_of};

use units::{TAG_LIMIT, Tag};

// A flow: whether it is open, its weight, the number of its next packet, and the finish tag of its last. `opened` stays a flag beside them,
// since C reads a flow so (include/tuhkeliar.h).
#[repr(C)]
#[derive(Clone, Copy, Debug, PartialEq, Eq)]
pub struct Flow {
    pub opened: bool,
    pub weight: u64,
    pub next: u64,
    pub finish: Tag,
}

// A place: free, or held by the waiting packet of this number, length in bytes, start tag and finish tag. C reads it so.
#[repr(C)]
#[derive(Clone, Copy, Debug, PartialEq, Eq)]
pub struct Packet {
    pub held: bool,
    pub number: u64,
    pub length: u64,
    pub start: Tag,
    pub finish: Tag,
}

impl Flow {
    // A flow that was never opened.
    pub const SHUT: Flow = Flow {
        opened: false,
        weight: 0,
        next: 0,
        finish: Tag(0),
    };
}

impl Packet {
    // A free place.
    pub const FREE: Packet = Packet {
        held: false,
        number: 0,
        length: 0,
        start: Tag(0),
        finish: Tag(0),
    };
}

// Whether tag a comes before tag b.
pub fn earlier(a: Tag, b: Tag) -> bool
    ensures { result ≡ ltb a.0 b.0 }
{
    a < b
}

// The later of two tags.
pub fn later(a: Tag, b: Tag) -> Tag
    ensures { result ≡ later_of a b }
{
    a.max(b)
}

// Where a packet of this length that starts at `start` would finish, in a flow of this weight; nowhere where no packet has this length, or
// the finish would pass the largest tag.
#[tactic(auto, unfolding(crate::specs::Tags::finish_of))]
pub fn finish_of(start: Tag, length: u64, weight: u64) -> Option<Tag>
    ensures { result ≡ finish_of start length weight }
{
    if units::bad_length(length) {
        return None;
    }
    let from = start.0;
    let cost = length * units::charge(weight);
    if units::passes(from, cost, TAG_LIMIT) {
        return None;
    }
    Some(Tag(from + cost))
}
