// The openings of two logs.
ghost use Rattle.std.specs.Prelude.{◌≡◌, ◌+◌, ◌*◌, ◌≤◌, length, Ok, nat_eq, ◌&&◌};
ghost use Rattle.log_format.specs.Faults.{byte_at, two_at};
ghost use Rattle.log_format.specs.Reading.{openings_at, log_at, read_of, verdict_of};
ghost use Rattle.log_format.specs.Pairs.{same_openings, same_start};
ghost use Rattle.log_pairs.specs.Common.{common_of};

use log_format::Contents;

// Where the events of two logs start, if the logs have the same first byte and openings.
pub(crate) fn common(a: &[u8], b: &[u8]) -> Option<usize>
    ensures { result ≡ common_of a.now b.now }
{
    let x = log_reading::read(a).ok()?;
    let y = log_reading::read(b).ok()?;
    if same_start(a, b, x, y) {
        Some(25 + 3 * x.urgent + 3 * x.fair)
    } else {
        None
    }
}

// Whether two logs that hold this have the same first byte and openings.
fn same_start(a: &[u8], b: &[u8], x: Contents, y: Contents) -> bool
    requires { (Ok x ≡ verdict_of (read_of a.now)) × (Ok y ≡ verdict_of (read_of b.now)) }
    ensures { result ≡ same_start (log_at a.now) (log_at b.now) }
{
    if x.form != y.form || x.urgent != y.urgent || x.fair != y.fair {
        return false;
    }
    let fair = 25 + 3 * x.urgent;
    same_openings(a, b, 25, x.urgent) && same_openings(a, b, fair, x.fair)
}

// Whether two logs have the same openings from a place on, so many.
fn same_openings(a: &[u8], b: &[u8], start: usize, count: usize) -> bool
    requires { (start + 3 * count ≤ length a.now) × (start + 3 * count ≤ length b.now) }
    ensures { result ≡ same_openings (openings_at a.now start count) (openings_at b.now start count) }
{
    for k in 0..count {
        if !same_opening(a, b, start + 3 * k) {
            return false;
        }
    }
    true
}

// Whether two logs have the same opening at a place.
fn same_opening(a: &[u8], b: &[u8], at: usize) -> bool
    requires { (at + 3 ≤ length a.now) × (at + 3 ≤ length b.now) }
    ensures { result ≡ (nat_eq (byte_at a.now at) (byte_at b.now at) && nat_eq (two_at a.now (at + 1)) (two_at b.now (at + 1))) }
{
    a[at] == b[at] && log_format::two(a[at + 1], a[at + 2]) == log_format::two(b[at + 1], b[at + 2])
}
