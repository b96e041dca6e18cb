// The shift log of a station's calls, made as the calls come.
#![tactic(auto)]

ghost use Rattle.std.specs.Prelude.{◌≡◌, set};
ghost use Rattle.logging.specs.Logging.{opened_with};
ghost use Rattle.recorder.specs.Recording.{fresh_recorder, stopped, with_deadline, with_weight, counted, note_of, room_noted};

use logging::Sorted;
use station::Call;

// The log so far, but for the events' own words: the number with which each flow was opened, 0 where it was not; whether an event
// has come; whether the log has ended; and how many events it has. 0 stands for none, since Records (specs/Laws) speaks of these fields.
#[derive(Drop)]
pub struct Recorder {
    pub deadlines: [u16; 16],
    pub weights: [u16; 16],
    pub begun: bool,
    pub ended: bool,
    pub events: u64,
}

impl Recorder {
    // The log before any call.
    pub fn fresh() -> Recorder
        ensures { result ≡ fresh_recorder }
    {
        Recorder {
            deadlines: [0; 16],
            weights: [0; 16],
            begun: false,
            ended: false,
            events: 0,
        }
    }

    // The log with one call more. The word of its event goes into the room at the event's index, if the room has one there.
    pub fn note(self, call: Call, room: &mut [u32]) -> Recorder
        ensures state { result ≡ note_of self call }
        ensures room { room.new ≡ room_noted self call room.old }
    {
        if self.ended {
            return self;
        }
        match logging::sort(call) {
            Sorted::Beyond => self,
            Sorted::OpensUrgent(flow, deadline) => self.open_urgent(flow, deadline),
            Sorted::OpensFair(flow, weight) => self.open_fair(flow, weight),
            Sorted::Closes => self.end(),
            Sorted::Happens(word) => {
                put(room, self.events, word);
                self.count()
            }
        }
    }

    // An opening of the urgent lane counts before the first event, and ends the log after it.
    fn open_urgent(self, flow: usize, deadline: u16) -> Recorder
        ensures { result ≡ with_deadline self flow deadline }
    {
        if self.begun {
            return self.end();
        }
        Recorder {
            deadlines: opened(self.deadlines, flow, deadline),
            ..self
        }
    }

    // An opening of the fair lane likewise.
    fn open_fair(self, flow: usize, weight: u16) -> Recorder
        ensures { result ≡ with_weight self flow weight }
    {
        if self.begun {
            return self.end();
        }
        Recorder {
            weights: opened(self.weights, flow, weight),
            ..self
        }
    }

    // The log ends.
    fn end(self) -> Recorder
        ensures { result ≡ stopped self }
    {
        Recorder {
            ended: true,
            ..self
        }
    }

    // One event more, up to the greatest count.
    fn count(self) -> Recorder
        ensures { result ≡ counted self }
    {
        Recorder {
            begun: true,
            events: self.events.saturating_add(1),
            ..self
        }
    }
}

// A lane's numbers with one opening more: the first of a flow counts.
fn opened(mut numbers: [u16; 16], flow: usize, number: u16) -> [u16; 16]
    ensures { result ≡ opened_with numbers flow number }
{
    if flow < numbers.len() && numbers[flow] == 0 {
        numbers[flow] = number;
    }
    numbers
}

// Puts a word into the room at an index that it has.
fn put(room: &mut [u32], at: u64, word: u32)
    ensures { room.new ≡ set room.old at word }
{
    if at < room.len() as u64 {
        room[at as usize] = word;
    }
}
