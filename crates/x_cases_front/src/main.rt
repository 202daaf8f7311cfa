//! Cases of a bridge on sockets. A case is some lines of standard input: what comes to the bridge, and what it
//! answers. The program has the sockets of members and operators; the bridge runs on threads of its own. It prints
//! each line that comes out otherwise, and then the number of lines. Its argument is how many lanes a bridge has
//! where its line does not say.
//!
//! - `** TEXT`: what the lines behind it show.
//! - `settings TEXT > ANSWER`: the settings of a text, where `\n` is an LF, or their fault. Settings are
//!   `udp ADDRESS and tcp ADDRESS LANES OPERATORS SSRC CNAME`.
//! - `table INODE PIECE TEXT > ANSWER`: the drops that a text tells of the socket that has this inode, or why it tells
//!   none. The text is read as the system's table of UDP sockets, in pieces of so many octets.
//! - `bridge SEATS [LANES [SETTINGS]]`: a new bridge with so many seats for operators, so many lanes, and these further
//!   settings. All sockets around the one before are closed, and it is stopped.
//! - `opens N`: operator N connects.
//! - `seats N TEXT`: it connects and sends a line, and does so again as long as it is told that all seats are taken.
//! - `crowds COUNT`: so many connections come that say nothing.
//! - `says N TEXT`, `drips N TEXT`: operator N sends a line, at once or an octet a turn. `@M` and a space stand for
//!   member M's address, `\r` for a CR, `\n` for an LF, and a `\` at the end leaves out the last LF.
//! - `octets N HEX`: it sends these octets.
//! - `repeats N TIMES TEXT`: it sends a line so many times and reads nothing, until the bridge takes no more.
//! - `floods N TIMES`: it sends so many times 8,192 octets without an LF.
//! - `told N TEXT`: the next line that it is told, where the word `#` stands for any number or address, and `#-` for
//!   one or a `-`.
//! - `closed N`: it is told nothing more, and the bridge closes its connection.
//! - `ends N`: it is told nothing more, and the bridge, which is stopped, closes its connection within 2 s.
//! - `cut N`: it goes on sending and reads nothing, until the bridge closes its connection.
//! - `shuts N`: it sends nothing more.
//! - `hears N LINES`: it is told so many lines, and then the bridge closes its connection.
//! - `closes N`: it leaves.
//! - `member M`, `leaves M`, `returns M`: member M has a socket, has none any more, has one again at the same port.
//! - `sends M HEX`: it sends the bridge a datagram of these octets. A space stands for nothing, and `WORD*TIMES` for a
//!   word so many times.
//! - `gets M HEX`: the next datagram that comes to it, where a dot stands for any digit, and a `~` for one from 1 to 4.
//!   With several lanes it may be any later one.
//! - `paces M L SSRC`: sound of this SSRC that member M sends comes to member L when it is due, by the program's clock.
//! - `rounds COUNT`: the bridge goes on for so many turns of 5 ms.
//! - `stopped`: an operator stops the bridge.
//! - `left LANES CALLS..`: the bridge that was stopped had so many lanes, and accepted so many calls of each operator.
#![tactic(auto)]

mod left;
mod lines;
mod member;
mod operator;
mod pace;
mod running;
mod setting;
mod stage;
mod table;
mod talking;
mod text;

use crate::lines::carry_out;
use crate::running::{Start, run};
use crate::stage::Stage;
use std::{env, io, thread};

/// How many lanes a bridge has where its line does not say: the program's argument, or one.
fn lanes(rt: &HostRuntime) -> usize {
    let Ok(mut words) = env::args(rt) else {
        return 1;
    };
    let _program = words.next();
    match words.next() {
        Some(word) => word.parse().unwrap_or(1),
        None => 1,
    }
}

fn main(rt: HostRuntime) -> io::Result<()> {
    let alloc = rt.alloc();
    let text = io::read_to_string(alloc, rt.reader())?;
    let mut stage = Stage::new(alloc, lanes(&rt));
    let mut tried: u64 = 0;
    let mut differ: u64 = 0;
    for line in text.lines() {
        if line.is_empty() || line.starts_with("** ") {
            continue;
        }
        tried = tried.saturating_add(1);
        let is_well = match line.strip_prefix("bridge ") {
            Some(rest) => match stage.begins(&rt, rest) {
                Some(Start { front, left }) => {
                    let run = move || run(&rt, front, &left);
                    thread::spawn(&rt, run).is_ok()
                }
                None => false,
            },
            None => carry_out(&mut stage, &rt, line) == Some(true),
        };
        if !is_well {
            differ = differ.saturating_add(1);
            println!(rt; "{line}")?;
        }
    }
    stage.ends(&rt);
    println!(rt; "{tried} lines, {differ} differ")
}
