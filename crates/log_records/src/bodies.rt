// Bodies by where they start and how many records they have: numbers of which nothing is known.
ghost use Rattle.std.specs.Prelude.{◌≡◌, ◌+◌, ◌*◌, ◌^◌, ◌<◌};
ghost use Rattle.std.specs.Option.{SomeIff, option_copied};
ghost use Rattle.log_records.specs.Found.{record_in, opening_in, event_in};

// The place after so many openings from a place on, unless it is beyond all numbers.
pub(crate) fn after_openings(start: usize, count: usize) -> Option<usize>
    ensures { SomeIff result (start + 3 * count < 2 ^ 64) (start + 3 * count) }
{
    count.checked_mul(3)?.checked_add(start)
}

// The opening of an index in a body that has so many from a place on.
pub(crate) fn opening_in(log: &[u8], start: usize, count: usize, k: usize) -> Option<u32>
    ensures { result ≡ opening_in log.now start count k }
{
    let [flow, low, high] = record_in::<3>(log, start, count, k)?;
    Some(u32::from_le_bytes([*flow, *low, *high, 0]))
}

// The event of an index in a body that has so many from a place on.
pub(crate) fn event_in(log: &[u8], start: usize, count: usize, k: usize) -> Option<u32>
    ensures { result ≡ event_in log.now start count k }
{
    record_in::<4>(log, start, count, k).map(|bytes| u32::from_le_bytes(*bytes))
}

// The bytes of the record of an index in a body that has so many from a place on, if they are all there.
fn record_in<const N: usize>(log: &[u8], start: usize, count: usize, k: usize) -> Option<&[u8; N]>
    ensures { option_copied result ≡ record_in N log.now start count k }
{
    if count <= k {
        return None;
    }
    let at = N.checked_mul(k)?.checked_add(start)?;
    log.get(at..)?.first_chunk::<N>()
}
