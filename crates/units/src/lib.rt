// What the station counts in, the limit of every number, and the refusals.
#![tactic(auto)]

ghost use Rattle.std.specs.Prelude.{◌≡◌, ◌+◌, ◌<◌, ◌≤◌, nat_lt, MatchResult};
ghost use Rattle.units.specs.Limits.{outside_of, bad_weight, bad_deadline, bad_length};
ghost use Rattle.units.specs.Refusals.{number_of};
ghost use Rattle.units.specs.Charges.{charge_of};
ghost use Rattle.units.specs.Radio.{slots_passed};

// A turn of the radio, counted from 0.
#[repr(C)]
#[derive(Clone, Copy, Debug, PartialEq, Eq, PartialOrd, Ord)]
pub struct Slot(pub u64);

// A moment of the fair lane, counted in shares of a byte: 720,720 to a byte at weight 1.
#[repr(C)]
#[derive(Clone, Copy, Debug, PartialEq, Eq, PartialOrd, Ord)]
pub struct Tag(pub u64);

// Why a call was refused, under the number by which the station's users know it.
#[derive(Clone, Copy, Debug, PartialEq, Eq)]
pub enum Refusal {
    NoSuchFlow = 1,
    NotOpen = 2,
    AlreadyOpen = 3,
    PlacesFull = 5,
    TagsUsedUp = 6,
    SlotsUsedUp = 7,
    PacketInService = 8,
    NothingWaits = 9,
    NothingInService = 10,
    NoCommand = 11,
    FlowInUse = 12,
    BadWeight = 13,
    BadDeadline = 14,
    BadLength = 15,
    ListTooLong = 16,
    BadBurst = 17,
    BadPeriod = 18,
    BadTree = 27,
}

// The highest flow number, the first slot number that no turn has, and the largest tag.
pub const LAST_FLOW: u64 = 15;

pub const SLOT_LIMIT: u64 = 4_000_000_000;

pub const TAG_LIMIT: u64 = 4_611_686_018_427_387_904;

// The charge for one byte by weight, 1 to 16.
const CHARGES: [u64; 16] = [
    720720, 360360, 240240, 180180, 144144, 120120, 102960, 90090, 80080, 72072, 65520, 60060,
    55440, 51480, 48048, 45045,
];

impl Refusal {
    // The number under which the station's users know the refusal.
    pub fn number(self) -> u64
        ensures { result ≡ number_of self }
    {
        self as u64
    }
}

// The place of a flow's record among the sixteen, or that there is no such flow.
pub fn flow_index(flow: u64) -> Result<usize, Refusal>
    ensures { MatchResult result (λ k. (k ≡ flow) × (flow ≤ 15)) (λ refusal. (refusal ≡ Refusal.NoSuchFlow) × (15 < flow)) }
{
    if LAST_FLOW < flow {
        return Err(Refusal::NoSuchFlow);
    }
    Ok(flow as usize)
}

// Whether a flow cannot have this weight.
pub fn bad_weight(weight: u64) -> bool
    ensures { result ≡ bad_weight weight }
{
    outside(weight, 16)
}

// Whether a flow cannot have this deadline.
pub fn bad_deadline(deadline: u64) -> bool
    ensures { result ≡ bad_deadline deadline }
{
    outside(deadline, 4096)
}

// Whether a packet cannot have this length.
pub fn bad_length(length: u64) -> bool
    ensures { result ≡ bad_length length }
{
    outside(length, 1500)
}

// Whether n is none of the numbers 1 to most.
pub fn outside(n: u64, most: u64) -> bool
    ensures { result ≡ outside_of n most }
{
    !(1..=most).contains(&n)
}

// Whether a and b together pass the limit, whatever they are.
pub fn passes(a: u64, b: u64, limit: u64) -> bool
    ensures { result ≡ nat_lt limit (a + b) }
{
    a.checked_add(b).is_none_or(|sum| limit < sum)
}

// What one byte of a flow of this weight costs; 0 for a weight that no flow can have.
pub fn charge(weight: u64) -> u64
    ensures { result ≡ charge_of weight }
{
    if bad_weight(weight) {
        return 0;
    }
    CHARGES[(weight - 1) as usize]
}

// How many slots have passed from one reading of the radio's own count to a later one.
// A gap of 65,536 slots or more cannot be told from a shorter one.
pub fn slots_passed(earlier: u16, later: u16) -> u16
    ensures { result ≡ slots_passed earlier later }
{
    later.wrapping_sub(earlier)
}
