// Slots are counted here, and nowhere else in the lane; they are compared by the order of their type, as slots and nothing else.
ghost use Rattle.std.specs.Prelude.{◌≡◌, ◌+◌, ◌-◌, ◌<◌, ◌≤◌, nat_le, nat_lt};
ghost use Rattle.units.specs.Limits.{slot_limit};

use units::{SLOT_LIMIT, Slot};

// Whether no turn is left at this slot.
pub(crate) fn used_up(now: Slot) -> bool
    ensures { result ≡ nat_le slot_limit now.0 }
{
    SLOT_LIMIT <= now.0
}

// The slot after this one.
pub(crate) fn after(now: Slot) -> Slot
    requires { now.0 < slot_limit }
    ensures { result ≡ record { 0 = now.0 + 1 } }
{
    Slot(now.0 + 1)
}

// Whether a window of so many slots from now on would pass the last slot that there is.
pub(crate) fn window_passes(now: Slot, deadline: u64) -> bool
    ensures { result ≡ nat_lt slot_limit (now.0 + deadline) }
{
    units::passes(now.0, deadline, SLOT_LIMIT)
}

// The last slot of a window of so many slots from now on, one at least.
pub(crate) fn last_of(now: Slot, deadline: u64) -> Slot
    requires { (1 ≤ deadline) × (now.0 + deadline ≤ slot_limit) }
    ensures { result ≡ record { 0 = now.0 + deadline - 1 } }
{
    Slot(now.0 + deadline - 1)
}
