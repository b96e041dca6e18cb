// The writer of the shift log: the bytes of the log that is lent, put into the room that is lent; or why not.
#![tactic(auto)]

mod placing;

ghost use Rattle.std.specs.Prelude.{◌≡◌, length};
ghost use Rattle.log_format.specs.Words.{lent_log};
ghost use Rattle.log_writing.specs.Writing.{written_of, room_after};

use log_format::{Form, Unwritten};

// The most bytes that a log may have.
const MOST_BYTES: usize = 65_536;

// How many bytes stand before a log's bodies.
const BEFORE: usize = 25;

// How many bytes an opening has.
const OPENING: usize = 3;

// How many bytes an event has.
const EVENT: usize = 4;

// Writes a log into the room and answers its length; where a record is bad, or the log is too long, it says so and leaves the room as it was.
pub fn write(
    form: Form,
    urgent: &[u32],
    fair: &[u32],
    events: &[u32],
    room: &mut [u8],
) -> Result<usize, Unwritten>
    ensures value { result ≡ written_of (lent_log form urgent.now fair.now events.now) (length room.old) }
    ensures room_holds { room.new ≡ room_after result (lent_log form urgent.now fair.now events.now) room.old }
{
    if let Some(position) = log_judging::first_bad(form, urgent, fair, events) {
        return Err(Unwritten::BadRecord(position));
    }
    let u = OPENING * urgent.len();
    let f = OPENING * fair.len();
    let e = EVENT * events.len();
    let size = BEFORE + u + f + e;
    if MOST_BYTES < size {
        return Err(Unwritten::TooLong);
    }
    if room.len() < size {
        return Err(Unwritten::TooLong);
    }
    placing::put_start(room, form, u, f, e);
    placing::put_words(room, BEFORE, urgent, OPENING);
    placing::put_words(room, BEFORE + u, fair, OPENING);
    placing::put_words(room, BEFORE + u + f, events, EVENT);
    Ok(size)
}
