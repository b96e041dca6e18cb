// What waits in a place of the lane, and which cell goes first.
ghost use Rattle.std.specs.Prelude.{◌≡◌};

use crate::Cell;
use places::Ranking;

// Cells are sent by last slot, then by flow, then by number.
pub(crate) struct ByLastSlot;

impl Ranking<Cell> for ByLastSlot {
    ghost use Rattle.urgent.specs.Lane.{is_held, key_of};

    ghost held = { λ _ c. is_held c };

    ghost key = { λ _ place c. key_of place c };

    // A cell that holds its place waits.
    fn waits(&self, cell: Cell) -> bool {
        cell.held
    }

    // The earlier last slot goes first, then the lower flow, which the place tells, then the lower number.
    #[tactic(auto, unfolding(places::specs::Choice::comes_before))]
    fn goes_before(&self, place: usize, cell: Cell, other: usize, than: Cell) -> bool {
        if cell.last != than.last {
            return cell.last < than.last;
        }
        if place / 16 != other / 16 {
            return place / 16 < other / 16;
        }
        cell.number < than.number
    }
}
