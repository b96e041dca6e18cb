// A log's records, each put as the line by which a session makes its call; with less room than the longest line may need nothing is put,
// and the place is handed back.
ghost use Rattle.std.specs.Prelude.{◌≡◌};
ghost use Rattle.text.specs.Lines.{Placed};
ghost use Rattle.log_lines.specs.Answers.{longest, shown_opening, shown_event};
ghost use Rattle.log_lines.specs.Letters.{lane_letter, kind_letter, kind_numbers};

use crate::placing::line;
use log_format::Kind;

// Puts the line that opens a flow of the urgent or of the fair lane, and answers the place after it.
pub fn opening(urgent: bool, word: u32, out: &mut [u8], at: usize) -> usize
    ensures { Placed longest (shown_opening urgent word) out.old at out.new result }
{
    let letter = lane_letter(urgent);
    let flow = u64::from(word % 256);
    let number = u64::from(word / 256);
    line(out, at, &[letter], &[flow, number])
}

// Puts the line of the call of an event that tells its cell's own deadline, and answers the place after it. A kind that no log holds goes
// as an end.
pub fn event(word: u32, out: &mut [u8], at: usize) -> usize
    ensures { Placed longest (shown_event word) out.old at out.new result }
{
    let kind = u64::from(word % 256);
    let flow = u64::from(word / 256 % 256);
    let number = u64::from(word / 65_536);
    let numbers = &[flow, number][..kind_numbers(kind)];
    line(out, at, &[kind_letter(kind)], numbers)
}

// The letter that opens a flow of a lane.
fn lane_letter(urgent: bool) -> u8
    ensures { result ≡ lane_letter urgent }
{
    if urgent { b'U' } else { b'F' }
}

// The letter of a kind's call.
fn kind_letter(kind: u64) -> u8
    ensures { result ≡ kind_letter kind }
{
    match Kind::try_from(kind) {
        Ok(Kind::OpenTurn) => b't',
        Ok(Kind::LostTurn) => b'x',
        Ok(Kind::Cell) => b'u',
        Ok(Kind::Packet) => b'f',
        Ok(Kind::Begin) => b'b',
        _ => b'e',
    }
}

// How many numbers a kind's call has: a cell its flow and its deadline, a packet its flow and its length.
fn kind_numbers(kind: u64) -> usize
    ensures { result ≡ kind_numbers kind }
{
    match Kind::try_from(kind) {
        Ok(Kind::Cell) => 2,
        Ok(Kind::Packet) => 2,
        _ => 0,
    }
}
