// What becomes of one node, and of the times of one class, where a packet below it is offered, begun or ended.
ghost use Rattle.std.specs.Prelude.{◌≡◌};
ghost use Rattle.tree.specs.Steps.{offered_node, offered_root, is_beyond, finish_for, begun_node, begun_root, begun_class, ended_node, ended_class};

use crate::{Class, Node};
use units::Tag;

// A child below which a packet is offered, in a class at this time.
pub fn offered(x: Node, time: Tag) -> Node
    ensures { result ≡ offered_node time x }
{
    let waiting = x.waiting.wrapping_add(1);
    let start = if x.waiting == 0 {
        tags::later(time, x.finish)
    } else {
        x.start
    };
    Node {
        waiting,
        start,
        ..x
    }
}

// The root below which a packet is offered.
pub fn offered_root(x: Node) -> Node
    ensures { result ≡ offered_root x }
{
    Node {
        waiting: x.waiting.wrapping_add(1),
        ..x
    }
}

// Whether the finish of a child would pass the largest tag, if a packet of this length were begun below it.
pub fn passes(x: Node, length: u64) -> bool
    ensures { result ≡ is_beyond (finish_for x length) }
{
    tags::finish_of(x.start, length, x.weight).is_none()
}

// A child below which a packet of this length is begun.
pub fn begun(x: Node, length: u64) -> Node
    ensures { result ≡ begun_node length x }
{
    let waiting = x.waiting.saturating_sub(1);
    let finish = tags::finish_of(x.start, length, x.weight).unwrap_or(x.finish);
    Node {
        waiting,
        finish,
        ..x
    }
}

// The root below which a packet is begun.
pub fn begun_root(x: Node) -> Node
    ensures { result ≡ begun_root x }
{
    Node {
        waiting: x.waiting.saturating_sub(1),
        ..x
    }
}

// The times of a class where a packet is begun below its child x.
pub fn begun_class(x: Node, c: Class) -> Class
    ensures { result ≡ begun_class x c }
{
    Class { time: x.start, ..c }
}

// A child below which a packet ended.
pub fn ended(x: Node) -> Node
    ensures { result ≡ ended_node x }
{
    if 0 < x.waiting {
        Node {
            start: x.finish,
            ..x
        }
    } else {
        x
    }
}

// The times of a class whose node is `up` where a packet ended below its child x.
pub fn ended_class(x: Node, up: Node, c: Class) -> Class
    ensures { result ≡ ended_class x up c }
{
    let largest = tags::later(c.largest, x.finish);
    let time = if up.waiting == 0 { largest } else { c.time };
    Class { time, largest }
}
