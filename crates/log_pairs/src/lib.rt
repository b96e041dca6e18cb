// Two shift logs beside each other: the tail of the longer one, and the first place where their events differ.
#![tactic(auto)]

mod bytes;
mod openings;

ghost use Rattle.std.specs.Prelude.{◌≡◌};
ghost use Rattle.log_format.specs.Pairs.{tail_of, difference_of};
ghost use Rattle.log_pairs.specs.Common.{begins};

use bytes::differ;
use openings::common;

// What the longer of two logs that start alike has past the shorter, if the shorter is its beginning; else nothing of the first.
pub fn tail<'a>(a: &'a [u8], b: &'a [u8]) -> &'a [u8]
    ensures { result.now ≡ tail_of a.now b.now }
{
    let n = a.len();
    let m = b.len();
    if !one_begins(a, b) {
        return &a[n..];
    }
    if n < m { &b[n..] } else { &a[m..] }
}

// The first place where the events of two logs that start alike differ, within the shorter of them.
pub fn first_difference(a: &[u8], b: &[u8]) -> Option<usize>
    ensures { result ≡ difference_of a.now b.now }
{
    let start = common(a, b)?;
    differ(a, b, start)
}

// Whether two logs start alike and the shorter is the beginning of the longer.
fn one_begins(a: &[u8], b: &[u8]) -> bool
    ensures { result ≡ begins a.now b.now }
{
    let Some(start) = common(a, b) else {
        return false;
    };
    differ(a, b, start).is_none()
}
