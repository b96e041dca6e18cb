// The bytes of a log, put into the room.
ghost use Rattle.std.specs.Prelude.{◌≡◌, ◌∷◌, ◌+◌, ◌≤◌, length};
ghost use Rattle.log_format.specs.Format.{first_byte, table_bytes};
ghost use Rattle.log_writing.specs.Placing.{low_bytes, word_bytes, put_at};

use log_format::Form;

// Puts the first byte and the contents table, given the lengths of the three bodies.
pub(crate) fn put_start(room: &mut [u8], form: Form, u: usize, f: usize, e: usize)
    requires { (25 + u + f + e ≤ 65536) × (25 ≤ length room.old) }
    ensures { room.new ≡ put_at 0 (first_byte form ∷ table_bytes u f e) room.old }
{
    let table = [
        25,
        u as u32,
        (25 + u) as u32,
        f as u32,
        (25 + u + f) as u32,
        e as u32,
    ];
    room[0] = form.first_byte();
    put_words(room, 1, &table, 4);
}

// Puts numbers one after the other from a place on, so many bytes of each.
pub(crate) fn put_words(room: &mut [u8], at: usize, words: &[u32], k: usize)
    requires { (at + length (word_bytes k words.now) ≤ length room.old) × (k ≤ 4) }
    ensures { room.new ≡ put_at at (word_bytes k words.now) room.old }
{
    let mut place = at;
    for word in words {
        put_number(room, place, *word, k);
        place += k;
    }
}

// Puts the lowest bytes of a number at a place, so many of them.
fn put_number(room: &mut [u8], at: usize, n: u32, k: usize)
    requires { (at + k ≤ length room.old) × (k ≤ 4) }
    ensures { room.new ≡ put_at at (low_bytes k n) room.old }
{
    room[at..at + k].copy_from_slice(&n.to_le_bytes()[..k]);
}
