// Runs the urgent lane on the worked cases, on bad numbers, and on states written out that no session can reach.
#![tactic(auto)]

use std::io;
use std::io::{Stdout, Write};
use units::Slot;
use urgent::{Answer, Cell, Done, Flow, Urgent};

// Writes an answer as a line.
fn show(mut out: Stdout, answer: Answer) {
    match answer {
        Answer::Refused(refusal) => writeln!(out, "no {}", refusal.number()),
        Answer::Opened => writeln!(out, "ok"),
        Answer::Closed => writeln!(out, "closed"),
        Answer::Accepted(n, last) => writeln!(out, "ok {n} {}", last.0),
        Answer::Sent(flow, n, missed) => writeln!(out, "sent {flow} {n} missed {missed}"),
        Answer::Idle(missed) => writeln!(out, "idle missed {missed}"),
    }
    .ok();
}

// Writes the answer to a call, and hands the lane on.
fn told(out: Stdout, done: Done) -> Urgent {
    show(out, done.answer);
    done.lane
}

// Opens a flow.
fn open(out: Stdout, lane: Urgent, flow: u64, deadline: u64) -> Urgent {
    told(out, lane.open(flow, deadline))
}

// Closes a flow.
fn close(out: Stdout, lane: Urgent, flow: u64) -> Urgent {
    told(out, lane.close(flow))
}

// Offers a cell.
fn offer(out: Stdout, lane: Urgent, flow: u64, deadline: u64) -> Urgent {
    told(out, lane.offer(flow, deadline))
}

// Offers as many cells of a flow with one deadline, one after the other.
fn offers(out: Stdout, lane: Urgent, flow: u64, deadline: u64, times: u64) -> Urgent {
    let mut after = lane;
    for _ in 0..times {
        after = offer(out, after, flow, deadline);
    }
    after
}

// A turn, open or lost.
fn turn(out: Stdout, lane: Urgent, usable: bool) -> Urgent {
    told(out, lane.turn(usable))
}

// A lane as before any call, but at slot n.
fn at(n: u64) -> Urgent {
    Urgent {
        now: Slot(n),
        ..Urgent::fresh()
    }
}

// The same, with flow 0 open and one cell waiting at each of two places of it.
fn written(n: u64, deadline: u64, next: u64, first: u64, second: u64) -> Urgent {
    let mut lane = at(n);
    lane.flows[0] = Flow {
        opened: true,
        deadline,
        next,
    };
    lane.cells[3] = Cell {
        held: true,
        number: 7,
        last: Slot(first),
    };
    lane.cells[5] = Cell {
        held: true,
        number: 8,
        last: Slot(second),
    };
    lane
}

// Writes a heading.
fn case(mut out: Stdout, name: &[u8]) {
    out.write_all(name).ok();
    writeln!(out).ok();
}

fn worked(out: Stdout) {
    case(out, b"D");
    let mut d = open(out, open(out, Urgent::fresh(), 0, 3), 1, 1);
    d = offer(out, offer(out, d, 0, 3), 1, 1);
    turn(out, turn(out, d, true), true);
    case(out, b"E");
    turn(
        out,
        offer(out, open(out, Urgent::fresh(), 0, 1), 0, 1),
        false,
    );
    case(out, b"F");
    let f = offers(out, open(out, Urgent::fresh(), 0, 2), 0, 2, 3);
    turn(out, turn(out, f, true), true);
    case(out, b"G");
    let g = offers(out, open(out, Urgent::fresh(), 15, 4096), 15, 4096, 17);
    offer(out, turn(out, g, true), 15, 4096);
    case(out, b"H");
    let mut h = open(out, at(3999999999), 0, 3);
    h = offer(out, offer(out, offer(out, h, 0, 2), 0, 1), 0, 2);
    h = turn(out, turn(out, h, true), true);
    offer(out, turn(out, h, false), 0, 1);
}

fn closings(out: Stdout) {
    case(out, b"a flow closed and opened again");
    let mut lane = close(out, offer(out, open(out, Urgent::fresh(), 0, 2), 0, 2), 0);
    lane = close(out, close(out, turn(out, lane, true), 0), 0);
    lane = offer(out, open(out, offer(out, lane, 0, 2), 0, 5), 0, 5);
    case(out, b"its last cell missed");
    close(
        out,
        turn(
            out,
            close(out, offer(out, open(out, lane, 1, 1), 1, 1), 1),
            false,
        ),
        1,
    );
    case(out, b"opened again with a smaller deadline");
    let mut less = close(
        out,
        turn(
            out,
            offer(out, open(out, Urgent::fresh(), 0, 5), 0, 5),
            true,
        ),
        0,
    );
    less = offer(out, open(out, less, 0, 2), 0, 3);
    offer(out, offer(out, less, 0, 5), 0, 2);
}

fn own_deadlines(out: Stdout) {
    case(out, b"the later number first");
    let late = offer(
        out,
        offer(out, open(out, Urgent::fresh(), 0, 5), 0, 5),
        0,
        2,
    );
    turn(out, turn(out, late, true), true);
    case(out, b"deadline 1 behind fifteen of 4096");
    let behind = offers(out, open(out, Urgent::fresh(), 3, 4096), 3, 4096, 15);
    turn(out, turn(out, offer(out, behind, 3, 1), true), true);
    case(out, b"the later number missed first");
    let missed = offer(
        out,
        offer(out, open(out, Urgent::fresh(), 0, 2), 0, 2),
        0,
        1,
    );
    turn(out, turn(out, missed, false), true);
    case(
        out,
        b"one last slot: the lowest flow, then the lowest number",
    );
    let mut same = offer(
        out,
        offer(out, open(out, open(out, Urgent::fresh(), 1, 2), 4, 9), 4, 2),
        1,
        2,
    );
    same = offer(out, offer(out, turn(out, same, false), 4, 1), 1, 1);
    turn(out, same, true);
    case(out, b"a bad deadline before full");
    let mut full = offers(out, open(out, Urgent::fresh(), 2, 3), 2, 3, 16);
    full = offer(
        out,
        offer(out, offer(out, full, 2, 0), 2, 4),
        2,
        18446744073709551615,
    );
    offer(out, offer(out, full, 2, 3), 2, 1);
}

fn bad_numbers(out: Stdout) {
    case(out, b"flow numbers");
    let mut lane = open(
        out,
        open(out, Urgent::fresh(), 16, 1),
        18446744073709551615,
        0,
    );
    lane = offer(out, offer(out, lane, 16, 1), 18446744073709551615, 0);
    lane = close(out, close(out, lane, 16), 18446744073709551615);
    case(out, b"deadlines");
    lane = open(
        out,
        open(out, open(out, lane, 0, 0), 0, 4097),
        0,
        18446744073709551615,
    );
    lane = open(out, open(out, lane, 0, 4096), 0, 4096);
    case(out, b"deadlines of cells");
    lane = offer(
        out,
        offer(out, offer(out, lane, 0, 0), 0, 4097),
        0,
        18446744073709551615,
    );
    lane = offer(out, offer(out, open(out, lane, 1, 7), 1, 8), 1, 4096);
    lane = offer(out, offer(out, offer(out, lane, 0, 4096), 0, 1), 1, 7);
    case(out, b"a shut flow");
    close(out, offer(out, offer(out, lane, 2, 0), 2, 1), 2);
}

fn used_up(out: Stdout) {
    case(out, b"the longest deadline at the end of the slots");
    let lane = turn(
        out,
        offer(out, open(out, at(3999995904), 0, 4096), 0, 4096),
        true,
    );
    offer(out, offer(out, lane, 0, 4096), 0, 4095);
    case(out, b"a bad deadline before full, and full before used up");
    let mut full = offers(out, open(out, at(3999999990), 0, 10), 0, 10, 17);
    full.now = Slot(3999999999);
    full = turn(out, offer(out, offer(out, full, 0, 11), 0, 10), true);
    turn(out, offer(out, offer(out, full, 0, 11), 0, 1), true);
}

fn unreachable_states(out: Stdout) {
    case(out, b"the last number");
    offer(
        out,
        offer(out, written(5, 3, 18446744073709551615, 5, 6), 0, 3),
        0,
        3,
    );
    case(out, b"cells long gone");
    turn(
        out,
        turn(out, turn(out, written(9, 3, 0, 1, 0), true), true),
        true,
    );
    case(out, b"two cells due now");
    turn(out, written(9, 3, 0, 9, 9), false);
    case(out, b"the last slots of all");
    let most: u64 = 18446744073709551615;
    let end = turn(out, offer(out, written(most, most, 0, most, 3), 0, 1), true);
    offer(out, end, 0, most);
    case(out, b"no deadline");
    offer(out, offer(out, written(0, 0, 0, 1, 1), 0, 0), 0, 1);
    case(out, b"a deadline that no opening takes");
    offer(out, written(0, 5000, 0, 1, 1), 0, 5000);
    case(out, b"a shut flow with cells waiting");
    let mut shut = written(0, 3, 18446744073709551615, 1, 1);
    shut.flows[0] = Flow {
        opened: false,
        deadline: 3,
        next: 18446744073709551615,
    };
    shut = turn(out, close(out, shut, 0), true);
    offer(out, open(out, shut, 0, 4), 0, 4);
    case(out, b"the last number, kept through a closing");
    let mut last = Urgent::fresh();
    last.flows[0] = Flow {
        opened: true,
        deadline: 3,
        next: 18446744073709551615,
    };
    offer(out, open(out, close(out, last, 0), 0, 4), 0, 4);
}

fn main(rt: HostRuntime) {
    let out = rt.stdout();
    worked(out);
    closings(out);
    own_deadlines(out);
    bad_numbers(out);
    used_up(out);
    unreachable_states(out);
}
