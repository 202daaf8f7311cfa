//! The figures.

use crate::amounts::Amounts;
use crate::calls::{Turn, at_core, at_desk};
use crate::crowd::{Callers, at_full_desk};
use crate::entering::{entries, locks};
use crate::figures::{Compared, Measure, tell};
use crate::loads::{Load, frames_of, talk_of};
use crate::publishing::{Calling, entries_beside};
use crate::rooms::{EMPTY, FAN, HALL, HUNDREDS, Plan};
use crate::running::{Way, batches_by_core, by_lanes, steps_by_core};
use crate::streaming::Course;
use crate::timing::{Took, least_of};
use std::alloc::Global;
use std::io;
use std::sync::Wait;
use std::thread::Threads;
use std::time::{Clock, CpuClock};

/// The packets of a frame.
const PACKETS: u16 = 4;

// What the lines begin with.
const EMPTY_ROOMS: &str = "a call at an empty shared desk, add-room and remove-room in turn";

const ROOMS: &str = "a call at a shared desk of 402 rows, add-room and remove-room in turn";

const MUTES: &str = "a call at a shared desk of 402 rows, mute and unmute in turn";

const FULL_MUTES: &str = "a call at a full shared desk, mute and unmute in turn";

const FULL_GAINS: &str = "a call at a full shared desk, set-gain over another";

const SEATS: &str = "16 seats of a full desk on 16 threads, mute and unmute in turn";

const ENTRIES: &str = "enter and leave, a full desk";

const BESIDE: &str = "enter and leave while an operator calls, a full desk";

const LANE: &str = "an egress of a lane, frames of 4 packets to 16 receivers";

const LANES: &str = "four lanes, ticks of 256 members with gains of whom 16 speak";

/// What was taken in the rounds, of which there has to be one.
fn compared(mine: Option<Took>, floor: Option<Took>) -> io::Result<Compared> {
    match (mine, floor) {
        (Some(mine), Some(floor)) => Ok(Compared { mine, floor }),
        _ => Err(io::Error::other("there is no round")),
    }
}

/// Calls of one operator.
fn calls<R: Wait + Clock + CpuClock>(
    rt: &R,
    alloc: Global,
    order: &Amounts,
    plan: &Plan,
    turn: Turn,
) -> io::Result<Compared> {
    let mut mine = None;
    let mut floor = None;
    for _round in 0..order.rounds {
        floor = Some(least_of(floor, at_core(rt, alloc, plan, turn, order.calls)?));
        mine = Some(least_of(mine, at_desk(rt, alloc, plan, turn, order.calls)?));
    }
    compared(mine, floor)
}

/// Calls of sixteen operators.
fn crowd<R: Threads + Wait + Sync + Clock + CpuClock>(
    rt: &R,
    alloc: Global,
    order: &Amounts,
    plan: &Plan,
) -> io::Result<Compared> {
    let mut mine = None;
    let mut floor = None;
    for _round in 0..order.rounds {
        let one = at_full_desk(rt, alloc, plan, Callers::One, order.crowd)?;
        let all = at_full_desk(rt, alloc, plan, Callers::All, order.crowd)?;
        floor = Some(least_of(floor, one));
        mine = Some(least_of(mine, all));
    }
    compared(mine, floor)
}

/// Entries of a reader.
fn entering<R: Wait + Clock + CpuClock>(
    rt: &R,
    alloc: Global,
    order: &Amounts,
    plan: &Plan,
) -> io::Result<Compared> {
    let mut mine = None;
    let mut floor = None;
    for _round in 0..order.rounds {
        floor = Some(least_of(floor, locks(rt, order.entries)));
        mine = Some(least_of(mine, entries(rt, alloc, plan, order.entries)?));
    }
    compared(mine, floor)
}

/// Entries of a reader while an operator calls, beside one that rests.
fn entering_beside<R: Threads + Wait + Sync + Clock + CpuClock>(
    rt: &R,
    alloc: Global,
    order: &Amounts,
    plan: &Plan,
) -> io::Result<Compared> {
    let mut mine = None;
    let mut floor = None;
    for _round in 0..order.rounds {
        let rest = entries_beside(rt, alloc, plan, Calling::Nothing, order.entries)?;
        let busy = entries_beside(rt, alloc, plan, Calling::Mutes, order.entries)?;
        floor = Some(least_of(floor, rest));
        mine = Some(least_of(mine, busy));
    }
    compared(mine, floor)
}

/// A lane beside a core.
fn one_lane<R: Threads + Wait + Clock + CpuClock + Copy + Send + Drop + 'static>(
    rt: &R,
    alloc: Global,
    order: &Amounts,
    plan: &Plan,
    load: &Load,
) -> io::Result<Compared> {
    let mut mine = None;
    let mut floor = None;
    let way = Way::Batches(order.batches);
    for _round in 0..order.rounds {
        let core = batches_by_core(rt, alloc, plan, load, order.batches)?;
        let lane = by_lanes(rt, alloc, plan, load, 1, &way)?;
        floor = Some(least_of(floor, core));
        mine = Some(least_of(mine, lane));
    }
    compared(mine, floor)
}

/// Four lanes beside one.
fn four_lanes<R: Threads + Wait + Clock + CpuClock + Copy + Send + Drop + 'static>(
    rt: &R,
    alloc: Global,
    order: &Amounts,
    plan: &Plan,
    load: &Load,
) -> io::Result<Compared> {
    let core = steps_by_core(rt, alloc, plan, load, order.ticks)?;
    let way = Way::Stream(Course {
        steps: order.ticks,
        egresses: core.done,
    });
    let mut mine = None;
    let mut floor = None;
    for _round in 0..order.rounds {
        let one = by_lanes(rt, alloc, plan, load, 1, &way)?;
        let four = by_lanes(rt, alloc, plan, load, 4, &way)?;
        floor = Some(least_of(floor, one));
        mine = Some(least_of(mine, four));
    }
    compared(mine, floor)
}

/// Measures the calls of one operator, and prints their lines.
fn tell_calls<R: Wait + Clock + CpuClock + Print>(
    rt: &R,
    alloc: Global,
    order: &Amounts,
) -> io::Result<()> {
    let empty = calls(rt, alloc, order, &EMPTY, Turn::Rooms)?;
    tell(rt, order.is_timed, EMPTY_ROOMS, Measure::Time, &empty)?;
    let rooms = calls(rt, alloc, order, &HUNDREDS, Turn::Rooms)?;
    tell(rt, order.is_timed, ROOMS, Measure::Time, &rooms)?;
    let mutes = calls(rt, alloc, order, &HUNDREDS, Turn::Mutes { picture: 0 })?;
    tell(rt, order.is_timed, MUTES, Measure::Time, &mutes)
}

/// Measures calls and entries at a full desk, and prints their lines.
fn tell_full<R: Threads + Wait + Sync + Clock + CpuClock + Print>(
    rt: &R,
    alloc: Global,
    order: &Amounts,
) -> io::Result<()> {
    let order = Amounts {
        rounds: order.full_rounds,
        ..*order
    };
    let mutes = calls(rt, alloc, &order, &order.full, Turn::Mutes { picture: 0 })?;
    tell(rt, order.is_timed, FULL_MUTES, Measure::Time, &mutes)?;
    let gains = calls(rt, alloc, &order, &order.full, Turn::Gains { member: 0 })?;
    tell(rt, order.is_timed, FULL_GAINS, Measure::Time, &gains)?;
    let all = crowd(rt, alloc, &order, &order.full)?;
    tell(rt, order.is_timed, SEATS, Measure::Throughput, &all)?;
    let entered = entering(rt, alloc, &order, &order.full)?;
    tell(rt, order.is_timed, ENTRIES, Measure::Time, &entered)?;
    let beside = entering_beside(rt, alloc, &order, &order.full)?;
    tell(rt, order.is_timed, BESIDE, Measure::Time, &beside)
}

/// Measures desks and lanes, and prints a line for each figure.
pub fn measured<R: Threads + Wait + Sync + Clock + CpuClock + Print + Copy + Send + Drop + 'static>(
    rt: &R,
    alloc: Global,
    order: &Amounts,
) -> io::Result<()> {
    tell_calls(rt, alloc, order)?;
    tell_full(rt, alloc, order)?;
    let lane = one_lane(rt, alloc, order, &FAN, &frames_of(alloc, PACKETS)?)?;
    tell(rt, order.is_timed, LANE, Measure::Processor, &lane)?;
    let lanes = four_lanes(rt, alloc, order, &HALL, &talk_of(&HALL))?;
    tell(rt, order.is_timed, LANES, Measure::Throughput, &lanes)
}
