// The records of a log that was read, one by one, by body and index.
#![tactic(auto)]

mod bodies;

ghost use Rattle.std.specs.Prelude.{◌≡◌};
ghost use Rattle.log_records.specs.Found.{urgent_found, fair_found, event_found};

use bodies::{after_openings, event_in, opening_in};
use log_format::Contents;

// Where the urgent openings start.
const URGENT: usize = 25;

// The urgent opening of an index, in bytes that hold so many records of each body.
pub fn urgent_opening(log: &[u8], c: Contents, k: usize) -> Option<u32>
    ensures { result ≡ urgent_found log.now c k }
{
    opening_in(log, URGENT, c.urgent, k)
}

// The fair opening of an index.
pub fn fair_opening(log: &[u8], c: Contents, k: usize) -> Option<u32>
    ensures { result ≡ fair_found log.now c k }
{
    let fair = after_openings(URGENT, c.urgent)?;
    opening_in(log, fair, c.fair, k)
}

// The event of an index.
pub fn event(log: &[u8], c: Contents, k: usize) -> Option<u32>
    ensures { result ≡ event_found log.now c k }
{
    let fair = after_openings(URGENT, c.urgent)?;
    let events = after_openings(fair, c.fair)?;
    event_in(log, events, c.events, k)
}
