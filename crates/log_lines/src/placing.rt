// Where a line is put: at a place that has room for the longest.
ghost use Rattle.std.specs.Prelude.{◌≡◌, map, ◌+◌, ◌*◌, ◌≤◌, leb, length};
ghost use Rattle.text.specs.Decimal.{decimal_of};
ghost use Rattle.text.specs.Lines.{line_with, Placed};
ghost use Rattle.log_lines.specs.Answers.{longest};

use crate::LONGEST;

// Whether so many bytes have room for any line from a place on.
pub(crate) fn room_for_line(room: usize, at: usize) -> bool
    ensures { result ≡ leb (at + longest) room }
{
    at <= room && LONGEST <= room - at
}

// Puts a short word and a few numbers as a line, and answers the place after it; with less room than the longest line may need nothing,
// and answers the place.
pub(crate) fn line(out: &mut [u8], at: usize, word: &[u8], numbers: &[u64]) -> usize
    requires { length word.now + 21 * length numbers.now + 1 ≤ longest }
    ensures { Placed longest (line_with word.now (map decimal_of numbers.now)) out.old at out.new result }
{
    if !room_for_line(out.len(), at) {
        return at;
    }
    text::line(out, at, word, numbers)
}
