// A turn of the radio.
ghost use Rattle.std.specs.Prelude.{◌≡◌};
ghost use Rattle.places.specs.Places.{count, cleared_all};
ghost use Rattle.urgent.specs.Lane.{free_cell, last_is};
ghost use Rattle.urgent.specs.Calls.{turn_of};

use crate::ranking::ByLastSlot;
use crate::slots::{after, used_up};
use crate::{Answer, Cell, Done, FREE, Urgent};
use units::{Refusal, Slot};

impl Urgent {
    // A turn of the radio, open or lost: an open one sends a cell if any waits, and after either the cells whose last slot it was are dropped.
    pub fn turn(mut self, usable: bool) -> Done
        ensures { result ≡ turn_of self usable }
    {
        let answer = self.turn_at(usable);
        Done { lane: self, answer }
    }

    // The same on a lane that stays where it is.
    #[tactic(auto, unfolding(crate::specs::Calls::turn_of, units::specs::Refusals::first_of))]
    pub fn turn_at(&mut self, usable: bool) -> Answer
        ensures answer { result ≡ (turn_of self.old usable).answer }
        ensures lane { self.new ≡ (turn_of self.old usable).lane }
    {
        let now = self.now;
        if used_up(now) {
            return Answer::Refused(Refusal::SlotsUsedUp);
        }
        let chosen = if usable {
            places::first(&ByLastSlot, &self.cells)
        } else {
            None
        };
        if let Some((place, _)) = chosen {
            self.cells[place] = FREE;
        }
        let missed = drop_due(&mut self.cells, now);
        self.now = after(now);
        match chosen {
            Some((place, cell)) => Answer::Sent((place / 16) as u64, cell.number, missed),
            None => Answer::Idle(missed),
        }
    }
}

// Drops the cells whose last slot is now, and tells how many they were.
fn drop_due(cells: &mut [Cell], now: Slot) -> u64
    ensures dropped { cells.new ≡ cleared_all (last_is now) free_cell cells.old }
    ensures missed { result ≡ count (last_is now) cells.old }
{
    let mut missed: u64 = 0;
    for cell in cells.iter_mut() {
        if is_due(*cell, now) {
            *cell = FREE;
            missed += 1;
        }
    }
    missed
}

// Whether a place holds a cell whose last slot is now.
fn is_due(cell: Cell, now: Slot) -> bool
    ensures { result ≡ last_is now cell }
{
    cell.held && cell.last == now
}
