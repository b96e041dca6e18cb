// Reading a shift log: what bytes hold, or what is wrong with them, and where.
#![tactic(auto)]

mod bodies;

ghost use Rattle.std.specs.Prelude.{◌≡◌};
ghost use Rattle.log_format.specs.Reading.{read_of, verdict_of};

use bodies::bodies;
use log_format::{Contents, Fault, Flaw};
use log_table::{Layout, read_table};

// What the log holds, or the fault of the bytes that has the lowest place, and this place.
pub fn read(log: &[u8]) -> Result<Contents, Flaw>
    ensures { result ≡ verdict_of (read_of log.now) }
{
    let layout = read_table(log)?;
    bodies(log, layout)?;
    let Layout {
        form,
        urgent,
        fair,
        events,
    } = layout;
    let end = 25 + urgent + fair + events;
    if end < log.len() {
        return Err(Flaw {
            fault: Fault::ByteTooMany,
            place: end,
        });
    }
    Ok(Contents {
        form,
        urgent: urgent / 3,
        fair: fair / 3,
        events: events / 4,
    })
}
