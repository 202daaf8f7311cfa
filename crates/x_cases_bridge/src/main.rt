//! Cases of a bridge, call by call, in which each request for memory is refused in turn. They are read from standard
//! input. A case that is answered otherwise prints its name and what differs. Last stands how many cases there were.
//! How many requests each case makes stands on standard error.
#![tactic(auto)]

mod bridge;
mod calling;
mod case;
mod cases;
mod direct;
mod halves;
mod lines;
mod runs;
mod saying;
mod trying;

use crate::cases::Cases;
use std::io;

fn main(rt: HostRuntime) -> io::Result<()> {
    let alloc = rt.alloc();
    let text = io::read_to_string(alloc, rt.reader())?;
    let mut cases = Cases::new(alloc);
    for line in text.lines() {
        cases.line(&rt, line)?;
    }
    cases.end(&rt)?;
    let (tried, differ) = cases.counts();
    println!(rt; "{tried} cases, {differ} differ")
}
