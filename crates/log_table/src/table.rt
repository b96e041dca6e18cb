// The first byte and the contents table.
ghost use Rattle.std.specs.Prelude.{◌≡◌, [], ◌∷◌, ◌+◌, ◌≤◌, length, IfOk};
ghost use Rattle.log_format.specs.Format.{most_bytes};
ghost use Rattle.log_format.specs.Faults.{form_at};
ghost use Rattle.log_format.specs.Reading.{first_fault, first_part, field, bad_opening_length, bad_event_length};
ghost use Rattle.log_table.specs.Scanning.{unless, found_in, layout_told, entry};

use crate::fields::number;
use crate::{Layout, Lengths, stated};
use log_format::{Fault, Flaw, Form};

// The most bytes that a log may have.
const MOST_BYTES: usize = 65_536;

// What the table states, or the first thing that is wrong in the first byte and the table; of a right table a log is not too long.
pub fn read_table(log: &[u8]) -> Result<Layout, Flaw>
    ensures value { result ≡ layout_told log.now }
    ensures upper_bound { IfOk result (λ layout. 25 + layout.urgent + layout.fair + layout.events ≤ most_bytes) }
{
    let form = first(log)?;
    let Lengths {
        urgent,
        fair,
        events,
    } = stated(log);
    let end = 25 + urgent + fair + events;
    entry(log, 1, 25, bad_opening_length(urgent))?;
    entry(log, 9, 25 + urgent, bad_opening_length(fair))?;
    entry(log, 17, 25 + urgent + fair, bad_event_length(events, end))?;
    Ok(Layout {
        form,
        urgent,
        fair,
        events,
    })
}

// The form that the first byte tells, or what is wrong with it.
#[tactic(auto, unfolding(log_format::specs::Reading::first_fault))]
fn first(log: &[u8]) -> Result<Form, Flaw>
    ensures { result ≡ unless (first_fault (length log.now) (first_part log.now ∷ [])) (form_at log.now) }
{
    let byte = log.first().ok_or(Flaw {
        fault: Fault::EndsEarly,
        place: 0,
    })?;
    Form::try_from(*byte).map_err(|fault| Flaw { fault, place: 0 })
}

// What is found in the entry at a place, where this is the right offset, and the length is bad or not.
fn entry(log: &[u8], at: usize, right: usize, bad_length: bool) -> Result<(), Flaw>
    requires { at ≤ 17 }
    ensures { result ≡ found_in (length log.now) (entry log.now at right bad_length) }
{
    field(log.len(), at, number(log, at) != right)?;
    field(log.len(), at + 4, bad_length)
}

// What is found in a field of the table, where n bytes are there.
#[tactic(auto, unfolding(log_format::specs::Reading::first_fault))]
fn field(n: usize, at: usize, bad: bool) -> Result<(), Flaw>
    requires { at ≤ 21 }
    ensures { result ≡ found_in n (field at bad ∷ []) }
{
    if n < at + 4 {
        return Err(Flaw {
            fault: Fault::EndsEarly,
            place: n,
        });
    }
    if bad {
        return Err(Flaw {
            fault: Fault::TableField,
            place: at,
        });
    }
    Ok(())
}

// Whether a body of openings cannot have so many bytes.
fn bad_opening_length(n: usize) -> bool
    ensures { result ≡ bad_opening_length n }
{
    n % 3 != 0 || 48 < n
}

// Whether the body of events cannot have so many bytes in a log that ends at end.
fn bad_event_length(n: usize, end: usize) -> bool
    ensures { result ≡ bad_event_length n end }
{
    n % 4 != 0 || MOST_BYTES < end
}
