// What a line asks of the station, noted.
ghost use Rattle.std.specs.Prelude.{◌≡◌};
ghost use Rattle.session.specs.Steps.{kept_as};
ghost use Rattle.recorder.specs.Laws.{recorded_from, room_from};
ghost use Rattle.log_book.specs.Whole.{calls_by};

use feeding::Line;
use recorder::Recorder;
use station::Call;

// Notes the call that a line asks for, were it at its end; no command is no call.
pub(crate) fn hear(recorder: Recorder, line: &Line, events: &mut [u32]) -> Recorder
    ensures state { result ≡ recorded_from recorder (calls_by (kept_as line.now)) }
    ensures room { events.new ≡ room_from recorder (calls_by (kept_as line.now)) events.old }
{
    match asked(line) {
        Some(call) => recorder.note(call, events),
        None => recorder,
    }
}

// The call that a line asks for, were it at its end; a line of more than 32 bytes is no command.
fn asked(line: &Line) -> Option<Call>
    ensures { result ≡ kept_as line.now }
{
    let whole = line.whole()?;
    lines::parse(whole)
}
