//! Plays a script on a bridge: its loop, its lanes on threads and its operators' connections, over scripted datagrams,
//! moments, sockets and lines. Beside it a bridge of one thread is given the same. Each datagram that is tried, and
//! each octet that an operator is told, has to be that bridge's.
//!
//! The script is standard input. It begins with `bridge LANES REPORT_MS SEED`: the bridge has so many lanes, makes
//! reports each so many milliseconds, and by SEED the sockets of its lanes refuse datagrams, by 0 none. Each further
//! line is one of these. Without any of them the rest is a script, too.
//!
//! ```text
//! connect WHO          one of three operators connects
//! say WHO TEXT         it says a line; an `@` at the end stands for the number of the last accepted call, and for 0
//!                      where nobody is there but the two members of the beat; `@5` for the fifth call before that
//! turn WHO OCTETS      a round of its connection, which reads and writes so many octets at most
//! hang WHO, fail WHO   it says nothing more; its connection fails
//! rx ADDRESS HEX       a datagram waits
//! other                something that is no datagram waits
//! begin NS LOOK        so many nanoseconds later the front begins a round; each look at its watch takes LOOK of
//!                      them, which may be negative: the watch then tells the latest moment again
//! round NS LOOK        so many nanoseconds later it ends the round that has begun, or has a whole one
//! go LANE STOPS LEFT   a lane sends what so many items give, but of the last one the last LEFT
//! ```
//!
//! The beat is a picture that all lanes send in every round, so that it is known where each of them is.
//!
//! In the end all connections are closed, and each lane sends all. Then the desk ends, and the front has one more
//! round. What the bridge leaves behind, as the clause `whole` of `Front::run` names it, has to be what the bridge of
//! one thread leaves: the whole lists of what was read, told, tried and sent.
//!
//! The program says how much it played, or which line was the first to differ, and how.
#![tactic(auto)]

mod act;
mod beat;
mod datagram;
mod difference;
mod edge;
mod ending;
mod fate;
mod gate;
mod lane_model;
mod left;
mod line;
mod one_thread;
mod plain_desk;
mod playing;
mod receiving;
mod scene;
mod sink;
mod speech;
mod talker;
mod talkers;
mod tally;
mod wakes;

use crate::scene::played;
use crate::tally::Tally;
use std::io;

fn main(rt: HostRuntime) -> io::Result<()> {
    let alloc = rt.alloc();
    let text = io::read_to_string(alloc, rt.reader())?;
    let Tally {
        line,
        rounds,
        packets,
        dropped,
        has_seats,
        difference,
    } = played(&rt, alloc, &text);
    let seats = if has_seats { "are back" } else { "are missing" };
    match difference {
        None => println!(rt;
            "played: {line} lines, {rounds} rounds, {packets} packets, {dropped} drops"
        ),
        Some(found) => println!(rt; "line {line} differs: {found:?}; the seats {seats}"),
    }
}
