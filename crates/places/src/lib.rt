// What is true of every lane's places, and of its flows' marks; and the choice among places, whatever they hold.
#![tactic(auto)]

ghost use Rattle.std.specs.Prelude.{◌≡◌, ◌<◌, ◌≤◌, ℕ, Bool, length, MatchOption, IfSome};
ghost use Rattle.places.specs.Places.{count, first_free};
ghost use Rattle.places.specs.Choice.{better_than, chosen_of, least_held};

// A ranking of what places hold: whether it waits, and what its choice goes by: the least rank, then the lowest flow, then the lowest number.
pub trait Ranking<A> {
    ghost use Rattle.places.specs.Choice.{Key, comes_before};

    ghost held: { Self → A → Bool };

    ghost key: { Self → ℕ → A → Key };

    // Whether this waits.
    fn waits(&self, x: A) -> bool
        ensures { result ≡ held self.now x };

    // Whether what waits at a place goes before what waits at another. Each ranking compares what it ranks by as what it is, a slot as a slot
    // and a tag as a tag, so that the one never enters a choice by the other.
    fn goes_before(&self, place: usize, x: A, other: usize, y: A) -> bool
        ensures { result ≡ comes_before (key self.now place x) (key self.now other y) };
}

// How many of the places hold what waits.
pub fn count_waiting<A: Copy, R: Ranking<A>>(ranking: &R, places: &[A]) -> usize
    ensures { result ≡ count (R.held ranking.now) places.now }
{
    places.iter().filter(|x| ranking.waits(**x)).count()
}

// The first of the places where nothing waits, if there is one.
pub fn first_free<A: Copy, R: Ranking<A>>(ranking: &R, places: &[A]) -> Option<usize>
    ensures { MatchOption result (length places.now ≤ first_free (R.held ranking.now) places.now) (λ k. (k ≡ first_free (R.held ranking.now) places.now) × (k < length places.now)) }
{
    for (place, x) in places.iter().enumerate() {
        if !ranking.waits(*x) {
            return Some(place);
        }
    }
    None
}

// The place that goes first by a ranking, and what waits there; none where nothing waits.
pub fn first<A: Copy, R: Ranking<A>>(ranking: &R, places: &[A]) -> Option<(usize, A)>
    ensures choice { result ≡ chosen_of (least_held (R.held ranking.now) (R.key ranking.now) places.now) }
    ensures within { IfSome result (λ chosen. chosen.0 < length places.now) }
{
    let mut best = None;
    for (place, x) in places.iter().enumerate() {
        if goes_first(ranking, place, *x, best) {
            best = Some((place, *x));
        }
    }
    best
}

// Whether what a place holds goes before the best of those before it.
fn goes_first<A: Copy, R: Ranking<A>>(
    ranking: &R,
    place: usize,
    x: A,
    best: Option<(usize, A)>,
) -> bool
    ensures { result ≡ better_than (R.held ranking.now) (R.key ranking.now) place x best }
{
    if !ranking.waits(x) {
        return false;
    }
    match best {
        None => true,
        Some((before, y)) => ranking.goes_before(place, x, before, y),
    }
}
