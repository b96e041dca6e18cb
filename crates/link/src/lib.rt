// The link test as it is published: what a flow declares, what a list of declarations is told, and what is worked out of bare numbers.
#![tactic(auto)]

ghost use Rattle.std.specs.Prelude.{◌≡◌, ◌/◌};
ghost use Rattle.units.specs.Refusals.{first_of};
ghost use Rattle.link.specs.Limits.{bad_period};
ghost use Rattle.link.specs.Verdicts.{declaration_grounds, by_declaration};

use units::Refusal;

// What a flow declares: burst cells at once and one more in each period, each wanted within deadline slots.
#[derive(Clone, Copy, Debug, PartialEq, Eq)]
pub struct Declaration {
    pub burst: u64,
    pub period: u64,
    pub deadline: u64,
}

impl Declaration {
    // What one declaration is refused for, if anything: its burst is judged first, then its period, then its deadline.
    #[tactic(auto, unfolding(units::specs::Refusals::first_of))]
    fn fault(self) -> Option<Refusal>
        ensures { result ≡ first_of (declaration_grounds self) }
    {
        if units::outside(self.burst, 16) {
            Some(Refusal::BadBurst)
        } else if bad_period(self.period) {
            Some(Refusal::BadPeriod)
        } else if units::bad_deadline(self.deadline) {
            Some(Refusal::BadDeadline)
        } else {
            None
        }
    }

    // The verdict by the numbers of one declaration, which stands in this place.
    pub fn judged(self, place: usize) -> Result<(), Objection>
        ensures { result ≡ by_declaration place self }
    {
        match self.fault() {
            Some(refusal) => Err(Objection::RefusedAt(refusal, place)),
            None => Ok(()),
        }
    }
}

// What is held against a list that is not admitted: the smallest slot count by which too much is due, that its periods bring more cells
// than there are slots, the refusal of a list that is too long, or the refusal of the first bad declaration with its place, from 0.
#[derive(Clone, Copy, Debug, PartialEq, Eq)]
pub enum Objection {
    FailsAt(u64),
    Rate,
    Refused(Refusal),
    RefusedAt(Refusal, usize),
}

// How many whole periods have passed after so many slots, none for a period of 0; by doubling and halving: the board has no divider.
// How often the period is doubled is known only when it no longer goes in twice.
pub fn floor_of(slots: u64, period: u64) -> u64
    ensures { result ≡ slots / period }
{
    if period < 1 {
        return 0;
    }
    if slots < period {
        return 0;
    }
    let half = slots >> 1;
    let mut part = period;
    let mut steps: u64 = 0;
    while part <= half {
        part <<= 1;
        steps += 1;
    }
    let mut quotient = 1;
    let mut left = slots - part;
    for _ in 0..steps {
        part >>= 1;
        quotient <<= 1;
        if part <= left {
            left -= part;
            quotient += 1;
        }
    }
    quotient
}

// Whether no flow can have this period: it is no divisor of 5,040.
fn bad_period(period: u64) -> bool
    ensures { result ≡ bad_period period }
{
    period < 1 || floor_of(5040, period) * period < 5040
}
