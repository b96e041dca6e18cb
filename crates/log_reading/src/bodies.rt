// The three bodies, record by record.
ghost use Rattle.std.specs.Prelude.{◌≡◌, ◌++◌, ◌+◌, ◌*◌, ◌/◌, ◌≤◌, length};
ghost use Rattle.log_format.specs.Format.{most_deadline, most_weight, most_bytes};
ghost use Rattle.log_format.specs.Reading.{opening_parts, event_parts};
ghost use Rattle.log_table.specs.Scanning.{found_in};

use log_format::{Fault, Flaw, Form};
use log_table::Layout;

// What is found in the bodies, as the table states them.
pub(crate) fn bodies(log: &[u8], layout: Layout) -> Result<(), Flaw>
    requires { 25 + layout.urgent + layout.fair + layout.events ≤ most_bytes }
    ensures { result ≡ found_in (length log.now) (opening_parts most_deadline 0 log.now 25 (layout.urgent / 3) ++ (opening_parts most_weight 0 log.now (25 + layout.urgent) (layout.fair / 3) ++ event_parts layout.form log.now (25 + layout.urgent + layout.fair) (layout.events / 4))) }
{
    let fair = 25 + layout.urgent;
    let events = fair + layout.fair;
    scan_openings(log, 25, layout.urgent / 3, 4096)?;
    let in_fair = scan_openings(log, fair, layout.fair / 3, 16);
    let in_events = scan_events(log, events, layout.events / 4, layout.form);
    in_fair.and(in_events)
}

// What is found in so many openings from a place on, with numbers up to most.
fn scan_openings(log: &[u8], start: usize, count: usize, most: u64) -> Result<(), Flaw>
    requires { start + 3 * count ≤ most_bytes }
    ensures { result ≡ found_in (length log.now) (opening_parts most 0 log.now start count) }
{
    let mut least = 0;
    for k in 0..count {
        let place = start + 3 * k;
        let Some([flow, low, high]) = log.get(place..place + 3) else {
            return Err(Flaw {
                fault: Fault::EndsEarly,
                place: log.len(),
            });
        };
        if log_format::no_opening(most, least, *flow, *low, *high) {
            return Err(Flaw {
                fault: Fault::BadRecord,
                place,
            });
        }
        least = u64::from(*flow) + 1;
    }
    Ok(())
}

// What is found in so many events from a place on, in a log of this form. The search among openings hands the least flow on from one to the
// next: one search for both would take a closure that changes, of which a proof learns nothing.
fn scan_events(log: &[u8], start: usize, count: usize, form: Form) -> Result<(), Flaw>
    requires { start + 4 * count ≤ most_bytes }
    ensures { result ≡ found_in (length log.now) (event_parts form log.now start count) }
{
    for k in 0..count {
        let place = start + 4 * k;
        let Some([kind, flow, low, high]) = log.get(place..place + 4) else {
            return Err(Flaw {
                fault: Fault::EndsEarly,
                place: log.len(),
            });
        };
        if log_format::no_event(form, *kind, *flow, *low, *high) {
            return Err(Flaw {
                fault: Fault::BadRecord,
                place,
            });
        }
    }
    Ok(())
}
