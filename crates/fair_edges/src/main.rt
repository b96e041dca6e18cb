// Runs the fair lane on the worked cases, on bad numbers, and on states written out that no session can reach.
#![tactic(auto)]

mod states;

use fair::{Answer, Done, Fair};
use states::{serving, two_waiting, written};
use std::io;
use std::io::{Stdout, Write};
use tags::Flow;
use units::Tag;

// Writes an answer as a line.
fn show(mut out: Stdout, answer: Answer) {
    match answer {
        Answer::Refused(refusal) => writeln!(out, "no {}", refusal.number()),
        Answer::Opened => writeln!(out, "ok"),
        Answer::Closed => writeln!(out, "closed"),
        Answer::Accepted(n, start, finish) => writeln!(out, "ok {n} {} {}", start.0, finish.0),
        Answer::Begun(flow, n, length, start) => writeln!(
            out,
            "begun {flow} {n} {length} {}",
            start.0
        ),
        Answer::Ended(flow, n, length) => writeln!(out, "ended {flow} {n} {length}"),
    }
    .ok();
}

// Writes the answer to a call, and hands the lane on.
fn told(out: Stdout, done: Done) -> Fair {
    show(out, done.answer);
    done.lane
}

// Opens a flow.
fn open(out: Stdout, lane: Fair, flow: u64, weight: u64) -> Fair {
    told(out, lane.open(flow, weight))
}

// Closes a flow.
fn close(out: Stdout, lane: Fair, flow: u64) -> Fair {
    told(out, lane.close(flow))
}

// Offers a packet.
fn offer(out: Stdout, lane: Fair, flow: u64, length: u64) -> Fair {
    told(out, lane.offer(flow, length))
}

// Offers as many packets of one byte, one after the other.
fn offers(out: Stdout, lane: Fair, flow: u64, times: u64) -> Fair {
    let mut after = lane;
    for _ in 0..times {
        after = offer(out, after, flow, 1);
    }
    after
}

// Begins a packet.
fn begin(out: Stdout, lane: Fair) -> Fair {
    told(out, lane.begin())
}

// Ends a packet.
fn end(out: Stdout, lane: Fair) -> Fair {
    told(out, lane.end())
}

// Writes a heading.
fn case(mut out: Stdout, name: &[u8]) {
    out.write_all(name).ok();
    writeln!(out).ok();
}

// The cases worked by hand.
fn worked(out: Stdout) {
    case(out, b"A");
    let mut a = open(out, open(out, Fair::fresh(), 0, 1), 1, 2);
    a = offer(out, offer(out, offer(out, a, 0, 100), 1, 100), 1, 100);
    a = end(
        out,
        begin(out, end(out, begin(out, end(out, begin(out, a))))),
    );
    case(out, b"B");
    offer(out, open(out, a, 2, 1), 2, 1);
    case(out, b"C");
    offer(out, open(out, Fair::fresh(), 0, 1), 0, 1500);
    offer(out, open(out, Fair::fresh(), 0, 16), 0, 1500);
    case(out, b"M");
    let mut m = open(out, open(out, open(out, Fair::fresh(), 0, 0), 0, 17), 0, 1);
    m = end(out, begin(out, m));
    begin(out, end(out, begin(out, begin(out, offer(out, m, 0, 1)))));
}

// A flow closed and opened again, and what keeps it from being closed.
fn closings(out: Stdout) {
    case(out, b"a flow closed and opened again");
    let mut lane = open(out, open(out, Fair::fresh(), 0, 1), 1, 1);
    lane = close(out, offer(out, offer(out, lane, 0, 100), 1, 1), 0);
    lane = end(out, close(out, close(out, begin(out, lane), 0), 1));
    lane = offer(out, close(out, close(out, lane, 0), 0), 0, 1);
    begin(out, offer(out, open(out, lane, 0, 2), 0, 100));
}

// Numbers that no flow, weight or packet has.
fn bad_numbers(out: Stdout) {
    case(out, b"flow numbers");
    let mut lane = open(
        out,
        open(out, Fair::fresh(), 16, 1),
        18446744073709551615,
        0,
    );
    lane = offer(out, offer(out, lane, 16, 1), 18446744073709551615, 0);
    lane = close(out, close(out, lane, 16), 18446744073709551615);
    case(out, b"a shut flow");
    lane = close(out, offer(out, lane, 1, 0), 1);
    case(out, b"weights");
    lane = open(
        out,
        open(out, lane, 15, 18446744073709551615),
        15,
        4294967297,
    );
    case(out, b"lengths");
    lane = open(out, open(out, lane, 15, 1), 15, 0);
    lane = offer(out, offer(out, lane, 15, 0), 15, 1501);
    offer(out, offer(out, lane, 15, 18446744073709551615), 15, 1500);
}

// States that no session can reach.
fn unreachable_states(out: Stdout) {
    case(out, b"finish tags at the limit and one past it");
    offer(out, written(4611686018426667184, 1, 0, 0), 0, 1);
    offer(out, written(4611686018426667185, 1, 0, 0), 0, 1);
    offer(out, written(0, 1, 0, 4611686018426667184), 0, 1);
    offer(out, written(0, 1, 0, 4611686018426667185), 0, 1);
    case(out, b"numbers at the limit and one past it");
    offers(out, written(0, 1, 4611686018427387904, 0), 0, 2);
    case(out, b"a bad length before full, and full before used up");
    let full = offers(out, written(4611686018415856384, 1, 0, 0), 0, 17);
    offer(out, begin(out, offer(out, full, 0, 1501)), 0, 1);
    case(out, b"the last numbers of all");
    offer(out, written(18446744073709551615, 1, 0, 0), 0, 1);
    offer(out, written(0, 1, 18446744073709551615, 0), 0, 1500);
    offer(out, written(0, 1, 0, 18446744073709551615), 0, 1500);
    case(out, b"weights that no flow has");
    offer(out, written(5, 18446744073709551615, 0, 0), 0, 1500);
    offer(out, written(5, 0, 0, 7), 0, 1500);
    case(out, b"a service busy with a shut flow");
    close(out, close(out, open(out, serving(5, 9), 2, 1), 3), 2);
    case(out, b"a shut flow with packets waiting");
    let mut shut = two_waiting(3, 6);
    shut.queue.flows[0] = Flow {
        opened: false,
        weight: 1,
        next: 0,
        finish: Tag(0),
    };
    begin(out, close(out, shut, 0));
    case(
        out,
        b"numbers and tags at their last, kept through a closing",
    );
    let last = written(0, 1, 4611686018427387904, 4611686018427342859);
    offers(out, open(out, close(out, last, 0), 0, 16), 0, 2);
    case(out, b"the largest finish, not the last");
    offer(out, end(out, serving(5, 9)), 0, 1);
    offer(out, end(out, serving(9, 5)), 0, 1);
    case(out, b"the smaller start, then the lower number");
    begin(out, end(out, begin(out, two_waiting(3, 6))));
    begin(out, end(out, begin(out, two_waiting(6, 6))));
}

// All of them, a line for each answer.
fn main(rt: HostRuntime) {
    let out = rt.stdout();
    worked(out);
    closings(out);
    bad_numbers(out);
    unreachable_states(out);
}
