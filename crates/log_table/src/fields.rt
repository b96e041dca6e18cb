// The byte and the number at a place; past the end every byte is 0.
ghost use Rattle.std.specs.Prelude.{◌≡◌, ◌≤◌, ◌<◌};
ghost use Rattle.log_format.specs.Faults.{byte_at, four_at};

// The byte at a place.
pub fn byte(log: &[u8], at: usize) -> u8
    ensures { result ≡ byte_at log.now at }
{
    log.get(at).copied().unwrap_or(0)
}

// The number in a field of the table; that it is small follows, and is said for those who call.
pub(crate) fn number(log: &[u8], at: usize) -> usize
    requires { at ≤ 21 }
    ensures value { result ≡ four_at log.now at }
    ensures upper_bound { result < 4294967296 }
{
    log_format::four(
        byte(log, at),
        byte(log, at + 1),
        byte(log, at + 2),
        byte(log, at + 3),
    ) as usize
}
