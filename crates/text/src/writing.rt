// Writing a word and numbers into lent bytes, at a place.
ghost use Rattle.std.specs.Prelude.{◌≡◌, ◌∷◌, map, ◌+◌, ◌*◌, ◌≤◌, leb, length};
ghost use Rattle.text.specs.Decimal.{decimal_of, Digits, spelt_at};
ghost use Rattle.text.specs.Reading.{blank};
ghost use Rattle.text.specs.Lines.{part_with, line_with, room_for, Put, Placed};

// Puts a word and numbers at a place, each number after one blank, and answers the place after them; with too little room nothing,
// and answers the place.
pub fn part(out: &mut [u8], at: usize, word: &[u8], numbers: &[u64]) -> usize
    ensures { Placed (room_for word.now (length numbers.now)) (part_with word.now (map decimal_of numbers.now)) out.old at out.new result }
{
    if !roomy(out.len(), at, word.len(), numbers.len(), 0) {
        return at;
    }
    let mut p = put(out, at, word);
    for n in numbers {
        p = field(out, p, *n);
    }
    p
}

// Puts a whole line, which is such a part and a line feed.
pub fn line(out: &mut [u8], at: usize, word: &[u8], numbers: &[u64]) -> usize
    ensures { Placed (room_for word.now (length numbers.now) + 1) (line_with word.now (map decimal_of numbers.now)) out.old at out.new result }
{
    if !roomy(out.len(), at, word.len(), numbers.len(), 1) {
        return at;
    }
    let p = part(out, at, word, numbers);
    out[p] = b'\n';
    p + 1
}

// Whether a word, so many numbers and so many bytes more have room from a place on.
fn roomy(room: usize, at: usize, word: usize, numbers: usize, more: usize) -> bool
    ensures { result ≡ leb (at + (word + numbers * 21 + more)) room }
{
    numbers
        .checked_mul(21)
        .and_then(|long| long.checked_add(word))
        .and_then(|long| long.checked_add(more))
        .and_then(|long| long.checked_add(at))
        .is_some_and(|end| end <= room)
}

// Puts one blank and a number at a place, and answers the place after them.
fn field(out: &mut [u8], at: usize, n: u64) -> usize
    requires { at + 21 ≤ length out.old }
    ensures { Put (blank ∷ decimal_of n) out.old at out.new result × (result ≤ at + 21) }
{
    out[at] = b' ';
    let k = digits(n);
    let from = at + 1;
    spell(out, from, n, k);
    from + k
}

// How many digits a number has.
fn digits(n: u64) -> usize
    ensures { Digits n result }
{
    n.checked_ilog10().map_or(1, |k| k as usize + 1)
}

// Puts the last k digits of a number at a place, from the last one down.
fn spell(out: &mut [u8], at: usize, n: u64, k: usize)
    requires { at + k ≤ length out.old }
    ensures { out.new ≡ spelt_at at k n out.old }
{
    let mut rest = n;
    for i in (0..k).rev() {
        out[at + i] = b'0' + (rest % 10) as u8;
        rest /= 10;
    }
}

// Puts bytes at a place, and answers the place after them.
fn put(out: &mut [u8], at: usize, text: &[u8]) -> usize
    requires { at + length text.now ≤ length out.old }
    ensures { Put text.now out.old at out.new result }
{
    let end = at + text.len();
    out[at..end].copy_from_slice(text);
    end
}
