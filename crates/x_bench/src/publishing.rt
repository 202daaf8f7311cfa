//! Entries into a shared desk, at which an operator calls meanwhile or rests.

ghost use Rattle.std.specs.Prelude.{◌≡◌};
ghost use Rattle.desk_rows.specs.Desk.{blank as no_rows};

use crate::calls::{Turn, call_of, fill};
use crate::crowd::Post;
use crate::entering::enter_all;
use crate::meeting::Meeting;
use crate::rooms::{Plan, commands_for};
use crate::timing::{Took, Watch};
use call_history::CallStamp;
use desk_edit::Command;
use operator_desk::{Answer, DeskBrand, DeskNames, Log, Seat, SharedDesk};
use published_desk::LaneReader;
use std::alloc::Global;
use std::io;
use std::marker::Brand;
use std::sync::Wait;
use std::thread::{Threads, join};
use std::time::{Clock, CpuClock};

/// What the operator calls while a reader enters.
#[derive(Clone, Copy)]
pub enum Calling {
    Nothing,
    /// It mutes a source and ends the mute, again and again. The desk publishes each call.
    Mutes,
}

/// How many calls are made at most: more than while a reader enters, and fewer than the log of a full desk still takes.
const MOST_CALLS: u64 = 900_000;

/// So many entries into a desk that these commands make.
#[derive(Clone, Copy)]
struct Visit<'c> {
    alloc: Global,
    commands: &'c [Command],
    entries: u64,
    calling: Calling,
}

/// Makes calls until the reader is done. False where one is refused, or the last one is made before.
fn call_all<'d, 'a, H: DeskBrand, R: Wait>(
    rt: &R,
    alloc: Global,
    post: Post<'d, 'a, H>,
    meeting: &Meeting,
) -> bool {
    let Post { desk, mut seat } = post;
    for made in 0..MOST_CALLS {
        if meeting.is_over() {
            return true;
        }
        let call = call_of(Turn::Mutes { picture: 0 }, made);
        let answer = desk.call(rt, alloc, &mut seat, call, CallStamp::unnamed(alloc, 0));
        meeting.begin();
        let Ok(Answer::Accepted { .. }) = answer else {
            return false;
        };
    }
    false
}

/// Makes the calls that are to be made while a reader enters. False where they end before it is done.
fn work<'d, 'a, H: DeskBrand, R: Wait>(
    rt: &R,
    alloc: Global,
    post: Post<'d, 'a, H>,
    meeting: &Meeting,
    calling: Calling,
) -> bool {
    match calling {
        Calling::Nothing => {
            meeting.begin();
            true
        }
        Calling::Mutes => call_all(rt, alloc, post, meeting),
    }
}

/// Enters so often, once the operator has begun.
fn timed<R: Wait + Clock + CpuClock>(
    rt: &R,
    reader: LaneReader,
    meeting: &Meeting,
    entries: u64,
) -> Took {
    meeting.wait(rt);
    let watch = Watch::begin(rt);
    let entered = enter_all(reader, entries);
    let took = watch.took(rt, entered);
    meeting.end();
    took
}

/// Fills the desk, and then has it entered and called.
fn beside<'a, H: DeskBrand + Send + Sync, R: Threads + Wait + Sync + Clock + CpuClock>(
    rt: &R,
    desk: &SharedDesk<'a, H>,
    seats: Vec<Seat<'a, H>>,
    readers: Vec<LaneReader>,
    visit: &Visit<'_>,
) -> Option<Took> {
    let Visit {
        alloc,
        commands,
        entries,
        calling,
    } = *visit;
    let (mut seats, mut readers) = (seats, readers);
    let (mut seat, reader) = (seats.pop()?, readers.pop()?);
    if !fill(rt, alloc, desk, &mut seat, commands) {
        return None;
    }
    let meeting = Meeting::new();
    let met = &meeting;
    let post = Post { desk, seat };
    let (is_well, took) = join(
        rt,
        move || work(rt, alloc, post, met, calling),
        move || timed(rt, reader, met, entries),
    );
    is_well.then_some(took)
}

/// The same, at a desk over this log.
fn over<H: DeskBrand + Send + Sync, R: Threads + Wait + Sync + Clock + CpuClock>(
    rt: &R,
    log: &Log,
    names: DeskNames,
    visit: &Visit<'_>,
) -> Option<Took>
    requires log { log.now ≡ H.cells }
    requires ledger { (names.ledger.name ≡ H.name) × (names.ledger.parts ≡ H.parts) }
    requires publisher { names.publisher ≡ H.publisher }
    requires start { no_rows 1 ≡ H.start }
    requires seats { (1 ≡ H.seats) × (H.seats ≡ H.parts) }
{
    match SharedDesk::<H>::new(rt, visit.alloc, log, names, 1, 1, 1) {
        Ok((desk, seats, readers)) => {
            let took = beside(rt, &desk, seats, readers, visit);
            desk.end(rt);
            took
        }
        Err(_) => None,
    }
}

/// So many entries into a desk with this room.
pub fn entries_beside<R: Threads + Wait + Sync + Clock + CpuClock>(
    rt: &R,
    alloc: Global,
    plan: &Plan,
    calling: Calling,
    entries: u64,
) -> io::Result<Took> {
    let commands = commands_for(alloc, plan)?;
    let log = Log::new(alloc)?;
    let visit = Visit {
        alloc,
        commands: &commands,
        entries,
        calling,
    };
    let took = over::<Brand, _>(rt, &log, DeskNames::new(1), &visit);
    took.ok_or(io::Error::other("there is no desk to enter"))
}
