// Reading a number of a line.
ghost use Rattle.std.specs.Prelude.{◌≡◌, cond, drop, Some, None};
ghost use Rattle.text.specs.Reading.{grown, goes_on, read_number, Reads};

// The largest number that a line may hold.
const LARGEST: u64 = 4_294_967_295;

// The number that starts at a place and ends before the next blank, or with the line, and the place where it ends; none starts past
// the end.
pub fn number(line: &[u8], from: usize) -> Option<(u64, usize)>
    ensures { Reads line.now result (read_number (drop from line.now)) }
{
    let first = *line.get(from)?;
    if !first.is_ascii_digit() {
        return None;
    }
    let mut value = u64::from(first - b'0');
    let rest = &line[from + 1..];
    for (i, b) in rest.iter().enumerate() {
        if *b == b' ' {
            return Some((value, from + 1 + i));
        }
        value = grow(value, *b)?;
    }
    Some((value, line.len()))
}

// The number with one digit more, where it goes on with this byte: no zero stands in front, and it stays within the largest.
pub fn grow(value: u64, b: u8) -> Option<u64>
    ensures { result ≡ cond (goes_on value b) (Some (grown value b)) None }
{
    if value == 0 || !b.is_ascii_digit() {
        return None;
    }
    value
        .checked_mul(10)?
        .checked_add(u64::from(b - b'0'))
        .filter(|n| *n <= LARGEST)
}
