// What the programs read and write: the input piece by piece as it comes, or until a room is full; bytes whole, or told as unwritten.
#![tactic(auto)]

ghost use Rattle.std.specs.Prelude.{◌≡◌, ◌<◌, ◌≤◌, length, take, IfOk, OnOk, MatchResult, decimal};
ghost use Rattle.std.specs.Io.KnownBytes.{Appends, Consumes, Keeps, IsAtEnd};

use std::io;
use std::io::{Read, Write};

// Reads a piece of the input into the front of the room, what there is and no more: its length, which is 0 where the input has ended.
pub fn piece<R: Read>(input: &mut R, room: &mut [u8]) -> io::Result<usize>
    ensures within { IfOk result (λ n. (n ≤ length room.new) × (n ≡ length (take n room.new))) }
    ensures bytes { MatchResult result (λ n. Consumes (R.remaining input.old) (R.remaining input.new) (take n room.new)) (λ _. Keeps (R.remaining input.old) (R.remaining input.new)) }
    ensures end { IfOk result (λ n. n ≡ 0 → 0 < length room.new → IsAtEnd (R.remaining input.new)) }
    ensures kept { length room.new ≡ length room.old }
{
    input.read(room)
}

// Reads until the room is full, the input has ended or could not be read: how many bytes are at the front of the room. How often it reads
// no range can say.
pub fn fill<R: Read>(input: &mut R, room: &mut [u8]) -> usize
    ensures within { (result ≤ length room.new) × (result ≡ length (take result room.new)) }
    ensures bytes { Consumes (R.remaining input.old) (R.remaining input.new) (take result room.new) }
    ensures kept { length room.new ≡ length room.old }
{
    let mut done = 0;
    while done < room.len() {
        match piece(input, &mut room[done..]) {
            Ok(0) | Err(_) => return done,
            Ok(n) => done += n,
        }
    }
    done
}

// Writes all of the bytes.
pub fn put<W: Write>(out: &mut W, bytes: &[u8]) -> io::Result<()>
    ensures { OnOk result (Appends (W.contents out.old) (W.contents out.new) bytes.now) }
{
    out.write_all(bytes)
}

// Writes all of the bytes. Where it could not, that is told by a line.
pub fn put_or_tell<W: Write, E: Write>(
    out: &mut W,
    bytes: &[u8],
    err: &mut E,
    line: &[u8],
) -> io::Result<()>
    ensures written { OnOk result (Appends (W.contents out.old) (W.contents out.new) bytes.now) }
    ensures silent { OnOk result (err.new ≡ err.old) }
{
    let written = put(out, bytes);
    if written.is_err() {
        let _ = put(err, line);
    }
    written
}

// Writes a number by its decimal digits.
pub fn number<W: Write>(out: &mut W, n: u64) -> io::Result<()>
    ensures { OnOk result (Appends (W.contents out.old) (W.contents out.new) (decimal n)) }
{
    write!(out, "{n}")
}

#[cfg(test)]
mod tests;
