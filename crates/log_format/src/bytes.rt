// Numbers of several bytes, the lowest first.
ghost use Rattle.std.specs.Prelude.{◌≡◌, ◌<◌};
ghost use Rattle.log_format.specs.Faults.{two_of, four_of};

// The number of two bytes; that it is small follows, and is said for those who call.
pub fn two(a: u8, b: u8) -> u64
    ensures value { result ≡ two_of a b }
    ensures upper_bound { result < 65536 }
{
    u64::from(u16::from_le_bytes([a, b]))
}

// The number of four bytes, which is small as well.
pub fn four(a: u8, b: u8, c: u8, d: u8) -> u64
    ensures value { result ≡ four_of a b c d }
    ensures upper_bound { result < 4294967296 }
{
    u64::from(u32::from_le_bytes([a, b, c, d]))
}
