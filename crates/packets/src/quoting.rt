// The tags of a packet that is offered.
ghost use Rattle.std.specs.Prelude.{◌≡◌};
ghost use Rattle.packets.specs.Quotes.{start_after, quote_of};

use crate::Quote;
use tags::Flow;
use units::{TAG_LIMIT, Tag};

// Where a packet that is offered to the flow at this time would start, whether or not it has a finish.
pub fn start_after(was: Flow, time: Tag) -> Tag
    ensures { result ≡ start_after was time }
{
    tags::later(time, was.finish)
}

// Where a packet of this length would start and finish, offered to the flow at this time; nowhere where its number or its finish would pass
// the largest.
#[tactic(auto, unfolding(crate::specs::Quotes::quote_of))]
pub fn quote_of(was: Flow, time: Tag, length: u64) -> Option<Quote>
    ensures { result ≡ quote_of was time length }
{
    let start = start_after(was, time);
    if TAG_LIMIT < was.next {
        return None;
    }
    let finish = tags::finish_of(start, length, was.weight)?;
    Some(Quote { start, finish })
}
