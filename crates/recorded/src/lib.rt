// What a recorder has recorded, written as a shift log.
#![tactic(auto)]

ghost use Rattle.std.specs.Prelude.{◌≡◌, length};
ghost use Rattle.log_writing.specs.Writing.{room_after};
ghost use Rattle.recorded.specs.Recorded.{held_log, wrote_of};

use log_format::{Form, Unwritten};
use recorder::Recorder;

// Writes the log of the calls that were noted into the room and answers its length; the events' words are in the room that was lent for
// them. A log that is too long, or has more events than words there, is told as too long and leaves the room as it was.
pub fn write(recorder: Recorder, events: &[u32], room: &mut [u8]) -> Result<usize, Unwritten>
    ensures value { result ≡ wrote_of recorder events.now (length room.old) }
    ensures room_holds { room.new ≡ room_after result (held_log recorder events.now) room.old }
{
    if (events.len() as u64) < recorder.events {
        return Err(Unwritten::TooLong);
    }
    let count = recorder.events as usize;
    let urgent = logging::listed(recorder.deadlines);
    let fair = logging::listed(recorder.weights);
    log_writing::write(
        Form::Own,
        &urgent.words[..urgent.count],
        &fair.words[..fair.count],
        &events[..count],
        room,
    )
}
