// The log of a session: bytes are cut into lines as the station's session cuts them, and each line's call is noted.
#![tactic(auto)]

mod hearing;

ghost use Rattle.std.specs.Prelude.{◌≡◌};
ghost use Rattle.log_book.specs.Steps.{fresh_logbook, fed_of, room_fed, finish_of, room_finished};

use feeding::Line;
use hearing::hear;
use recorder::Recorder;

// The log so far, and the line that is not at its end yet.
#[derive(Drop)]
pub struct Logbook {
    pub recorder: Recorder,
    pub line: Line,
}

impl Logbook {
    // The logbook before any byte.
    pub fn fresh() -> Logbook
        ensures { result ≡ fresh_logbook }
    {
        Logbook {
            recorder: Recorder::fresh(),
            line: Line::fresh(),
        }
    }

    // Takes the whole piece: the call of each line that ends in it is noted, and the words of the events go into the room lent for them.
    pub fn feed(self, input: &[u8], events: &mut [u32]) -> Logbook
        ensures state { result ≡ fed_of self input.now }
        ensures room { events.new ≡ room_fed self input.now events.old }
    {
        let Logbook {
            mut recorder,
            mut line,
        } = self;
        for b in input {
            let ends = *b == b'\n';
            if ends {
                recorder = hear(recorder, &line, events);
                line.end();
            } else {
                line.keep(*b);
            }
        }
        Logbook { recorder, line }
    }

    // Notes the call of the last line, if it has a byte, at the end of the input.
    pub fn finish(self, events: &mut [u32]) -> Logbook
        ensures state { result ≡ finish_of self }
        ensures room { events.new ≡ room_finished self events.old }
    {
        if self.line.is_empty() {
            return self;
        }
        self.feed(b"\n", events)
    }
}
