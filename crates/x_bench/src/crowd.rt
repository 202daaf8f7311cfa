//! Sixteen seats of a desk: one calls alone, or all call at once.

ghost use Rattle.std.specs.Prelude.{◌≡◌};
ghost use Rattle.desk_rows.specs.Desk.{blank as no_rows};

use crate::calls::{Turn, call_desk, fill};
use crate::rooms::{Plan, commands_for};
use crate::timing::{Took, Watch};
use desk_edit::Command;
use operator_desk::{DeskBrand, DeskNames, Log, Seat, SharedDesk};
use std::alloc::Global;
use std::io;
use std::marker::Brand;
use std::sync::Wait;
use std::thread::{Threads, map_vec};
use std::time::{Clock, CpuClock};

/// How many seats the desk has.
const SEATS: u32 = 16;

/// Who calls.
#[derive(Clone, Copy)]
pub enum Callers {
    /// One seat makes all calls.
    One,
    /// Each seat makes a sixteenth of them, on a thread of its own.
    All,
}

/// A seat at its desk.
#[derive(Drop)]
pub struct Post<'d, 'a, H: DeskBrand> {
    /// The desk.
    pub desk: &'d SharedDesk<'a, H>,
    /// The seat.
    pub seat: Seat<'a, H>,
}

/// The seat's operator mutes a source of its own, and ends the mute.
fn turn_of(op: u32) -> Turn {
    Turn::Mutes {
        picture: (op % SEATS) as u16,
    }
}

/// Makes all calls of one operator. It answers how many were accepted.
fn work<'d, 'a, H: DeskBrand, R: Wait>(
    rt: &R,
    alloc: Global,
    post: Post<'d, 'a, H>,
    calls: u64,
) -> u64 {
    let Post { desk, mut seat } = post;
    let turn = turn_of(seat.op());
    call_desk(rt, alloc, desk, &mut seat, turn, calls)
}

/// Each of these seats makes so many calls, on a thread of its own. It answers how many were accepted.
fn all_work<'a, H: DeskBrand + Send + Sync, R: Threads + Wait + Sync>(
    rt: &R,
    alloc: Global,
    desk: &SharedDesk<'a, H>,
    seats: Vec<Seat<'a, H>>,
    calls: u64,
) -> Option<u64> {
    let mut posts = Vec::new(alloc);
    for seat in seats {
        posts.push(Post { desk, seat }).ok()?;
    }
    let accepted = map_vec(rt, posts, &|post| work(rt, alloc, post, calls)).ok()?;
    let mut sum = 0u64;
    for some in accepted {
        sum = sum.saturating_add(some);
    }
    Some(sum)
}

/// One of these seats makes as many calls as all would.
fn one_works<'a, H: DeskBrand, R: Wait>(
    rt: &R,
    alloc: Global,
    desk: &SharedDesk<'a, H>,
    seats: Vec<Seat<'a, H>>,
    calls: u64,
) -> Option<u64> {
    let mut seats = seats;
    let mut seat = seats.pop()?;
    let turn = turn_of(seat.op());
    let all = calls.saturating_mul(u64::from(SEATS));
    Some(call_desk(rt, alloc, desk, &mut seat, turn, all))
}

/// Fills the desk, and then has it called.
fn timed<'a, H: DeskBrand + Send + Sync, R: Threads + Wait + Sync + Clock + CpuClock>(
    rt: &R,
    alloc: Global,
    desk: &SharedDesk<'a, H>,
    seats: Vec<Seat<'a, H>>,
    commands: &[Command],
    callers: Callers,
    calls: u64,
) -> Option<Took> {
    let mut seats = seats;
    if !fill(rt, alloc, desk, seats.first_mut()?, commands) {
        return None;
    }
    let watch = Watch::begin(rt);
    let accepted = match callers {
        Callers::One => one_works(rt, alloc, desk, seats, calls)?,
        Callers::All => all_work(rt, alloc, desk, seats, calls)?,
    };
    Some(watch.took(rt, accepted))
}

fn by_sixteen<H: DeskBrand + Send + Sync, R: Threads + Wait + Sync + Clock + CpuClock>(
    rt: &R,
    alloc: Global,
    log: &Log,
    names: DeskNames,
    commands: &[Command],
    callers: Callers,
    calls: u64,
) -> Option<Took>
    requires log { log.now ≡ H.cells }
    requires ledger { (names.ledger.name ≡ H.name) × (names.ledger.parts ≡ H.parts) }
    requires publisher { names.publisher ≡ H.publisher }
    requires start { no_rows 1 ≡ H.start }
    requires seats { (16 ≡ H.seats) × (H.seats ≡ H.parts) }
{
    match SharedDesk::<H>::new(rt, alloc, log, names, 1, SEATS, 1) {
        Ok((desk, seats, _readers)) => {
            let took = timed(rt, alloc, &desk, seats, commands, callers, calls);
            desk.end(rt);
            took
        }
        Err(_) => None,
    }
}

/// Sixteen times so many calls at a shared desk with this room.
pub fn at_full_desk<R: Threads + Wait + Sync + Clock + CpuClock>(
    rt: &R,
    alloc: Global,
    plan: &Plan,
    callers: Callers,
    calls: u64,
) -> io::Result<Took> {
    let commands = commands_for(alloc, plan)?;
    let log = Log::new(alloc)?;
    let names = DeskNames::new(16);
    let took = by_sixteen::<Brand, _>(rt, alloc, &log, names, &commands, callers, calls);
    took.ok_or(io::Error::other("there is no desk of sixteen"))
}
