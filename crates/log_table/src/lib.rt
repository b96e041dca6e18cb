// The start of a shift log: its first byte and its contents table, what is wrong with them, and what the table states.
#![tactic(auto)]

mod fields;
mod table;

ghost use Rattle.std.specs.Prelude.{◌≡◌, ◌<◌};
ghost use Rattle.log_table.specs.Scanning.{lengths_of};

pub use fields::byte;
use fields::number;
use log_format::Form;
pub use table::read_table;

// The form of a log, and how many bytes its table says that each body has.
#[derive(Clone, Copy, Debug, PartialEq, Eq)]
pub struct Layout {
    pub form: Form,
    pub urgent: usize,
    pub fair: usize,
    pub events: usize,
}

// How many bytes the table says that each body has.
#[derive(Clone, Copy, Debug, PartialEq, Eq)]
pub struct Lengths {
    pub urgent: usize,
    pub fair: usize,
    pub events: usize,
}

// What the table states, be it right or wrong; that the lengths are small follows, and is said for those who call.
pub fn stated(log: &[u8]) -> Lengths
    ensures value { result ≡ lengths_of log.now }
    ensures urgent_bound { (result.urgent < 4294967296) × (result.fair < 4294967296) × (result.events < 4294967296) }
{
    Lengths {
        urgent: number(log, 5),
        fair: number(log, 13),
        events: number(log, 21),
    }
}
