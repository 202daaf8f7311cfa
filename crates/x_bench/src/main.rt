//! Times the core, desks and lanes from outside, as tools/bridge bench media and bench threads do.
//!
//! `x_bench CASE TIMES SLOTS PACKETS` drives the core in one case, again and again, and prints what came out, and no
//! times. `x_bench run` measures desks and lanes on threads, each beside a floor in the same run, and prints a line for
//! each figure. `x_bench check` does little of both, and prints only what was done.
#![tactic(auto)]

// The core, case by case.
mod asking;
mod coding;
mod copying;
mod datagrams;
mod driving;
mod items;
mod room;
mod talking;
mod tally;

// Desks and lanes on threads.
mod amounts;
mod batches;
mod calls;
mod crowd;
mod entering;
mod feeding;
mod figures;
mod lanes;
mod loads;
mod measuring;
mod meeting;
mod paces;
mod publishing;
mod rooms;
mod running;
mod streaming;
mod timing;

use crate::amounts::{CHECK, RUN};
use crate::asking::{FRAMES, Order, asked};
use crate::driving::driven;
use crate::measuring::measured;
use std::alloc::Global;
use std::sync::Wait;
use std::time::{Clock, CpuClock};
use std::{env, io};

/// Does what is ordered, and prints what came out.
fn tell<R: Wait + Clock + CpuClock + Print>(
    rt: &R,
    alloc: Global,
    order: &Order,
) -> io::Result<()> {
    let tally = driven(rt, alloc, order)?;
    let (packets, octets) = (tally.packets, tally.octets);
    println!(rt; "{packets} packets, {octets} octets")
}

fn main(rt: HostRuntime) -> io::Result<()> {
    let mut words = env::args(&rt)?;
    let _program = words.next();
    let case = words.next();
    match case.as_deref() {
        Some("check") => {
            tell(&rt, rt.alloc(), &FRAMES)?;
            measured(&rt, rt.alloc(), &CHECK)
        }
        Some("run") => measured(&rt, rt.alloc(), &RUN),
        _ => {
            let (times, slots, packets) = (words.next(), words.next(), words.next());
            let order = asked(
                case.as_deref(),
                times.as_deref(),
                slots.as_deref(),
                packets.as_deref(),
            )?;
            tell(&rt, rt.alloc(), &order)
        }
    }
}
