//! Calls of one operator, at a shared desk and at the core's.

ghost use Rattle.std.specs.Prelude.{◌≡◌};
ghost use Rattle.desk_rows.specs.Desk.{blank as no_rows};

use crate::rooms::{Plan, commands_for, core_with, picture_of, set_gain};
use crate::timing::{Took, Watch, least_of};
use bridge_core::Core;
use call_history::CallStamp;
use desk_calls::Reply;
use desk_edit::{Call, Command};
use desk_rows::{Mute, Room};
use operator_desk::{Answer, DeskBrand, DeskNames, Log, Seat, SharedDesk};
use std::alloc::Global;
use std::io;
use std::marker::Brand;
use std::sync::Wait;
use std::time::{Clock, CpuClock};

/// What an operator calls in turn.
#[derive(Clone, Copy)]
pub enum Turn {
    /// It adds a room, and removes it.
    Rooms,
    /// It mutes this video source, and ends the mute.
    Mutes { picture: u16 },
    /// It sets this member's gain for the first audio source.
    Gains { member: u16 },
}

/// The room that comes and goes.
const ROOM: u32 = 2;

/// The call that is made after so many.
pub fn call_of(turn: Turn, made: u64) -> Call {
    let command = match (turn, made % 2) {
        (Turn::Rooms, 0) => Command::AddRoom(Room {
            room: ROOM,
            rate: 8_000,
        }),
        (Turn::Rooms, _) => Command::RemoveRoom { room: ROOM },
        (Turn::Mutes { picture }, 0) => Command::Mute(Mute {
            source: picture_of(picture),
        }),
        (Turn::Mutes { picture }, _) => Command::Unmute {
            source: picture_of(picture),
        },
        (Turn::Gains { member }, 0) => set_gain(member, 0, 1),
        (Turn::Gains { member }, _) => set_gain(member, 0, 2),
    };
    Call::Apply(command)
}

/// Makes so many calls at the core. It answers how many were accepted.
fn call_core(alloc: Global, core: &mut Core, turn: Turn, calls: u64) -> u64 {
    let mut accepted = 0u64;
    for made in 0..calls {
        if let Reply::Accepted { .. } = core.desk(alloc, 0, call_of(turn, made)) {
            accepted = accepted.saturating_add(1);
        }
    }
    accepted
}

/// So many calls at a core with this room.
pub fn at_core<R: Clock + CpuClock>(
    rt: &R,
    alloc: Global,
    plan: &Plan,
    turn: Turn,
    calls: u64,
) -> io::Result<Took> {
    let mut core = core_with(alloc, plan)?;
    let watch = Watch::begin(rt);
    let accepted = call_core(alloc, &mut core, turn, calls);
    Ok(watch.took(rt, accepted))
}

/// Makes so many calls from a seat. It answers how many were accepted.
pub fn call_desk<'a, H: DeskBrand, R: Wait>(
    rt: &R,
    alloc: Global,
    desk: &SharedDesk<'a, H>,
    seat: &mut Seat<'a, H>,
    turn: Turn,
    calls: u64,
) -> u64 {
    let mut accepted = 0u64;
    for made in 0..calls {
        if let Ok(Answer::Accepted { .. }) = desk.call(
            rt,
            alloc,
            seat,
            call_of(turn, made),
            CallStamp::unnamed(alloc, 0),
        ) {
            accepted = accepted.saturating_add(1);
        }
    }
    accepted
}

/// Makes the room. False where a command is refused.
pub fn fill<'a, H: DeskBrand, R: Wait>(
    rt: &R,
    alloc: Global,
    desk: &SharedDesk<'a, H>,
    seat: &mut Seat<'a, H>,
    commands: &[Command],
) -> bool {
    for command in commands {
        let Ok(Answer::Accepted { .. }) = desk.call(
            rt,
            alloc,
            seat,
            Call::Apply(*command),
            CallStamp::unnamed(alloc, 0),
        ) else {
            return false;
        };
    }
    true
}

/// So many calls from the only seat of a desk over this log, which is filled first.
fn by_one<H: DeskBrand, R: Wait + Clock + CpuClock>(
    rt: &R,
    alloc: Global,
    log: &Log,
    names: DeskNames,
    commands: &[Command],
    turn: Turn,
    calls: u64,
) -> Option<Took>
    requires log { log.now ≡ H.cells }
    requires ledger { (names.ledger.name ≡ H.name) × (names.ledger.parts ≡ H.parts) }
    requires publisher { names.publisher ≡ H.publisher }
    requires start { no_rows 1 ≡ H.start }
    requires seats { (1 ≡ H.seats) × (H.seats ≡ H.parts) }
{
    match SharedDesk::<H>::new(rt, alloc, log, names, 1, 1, 1) {
        Ok((desk, mut seats, _readers)) => {
            let took = match seats.pop() {
                Some(mut seat) => timed(rt, alloc, &desk, &mut seat, commands, turn, calls),
                None => None,
            };
            desk.end(rt);
            took
        }
        Err(_) => None,
    }
}

/// So many calls from a seat, behind those that make the room.
fn timed<'a, H: DeskBrand, R: Wait + Clock + CpuClock>(
    rt: &R,
    alloc: Global,
    desk: &SharedDesk<'a, H>,
    seat: &mut Seat<'a, H>,
    commands: &[Command],
    turn: Turn,
    calls: u64,
) -> Option<Took> {
    if !fill(rt, alloc, desk, seat, commands) {
        return None;
    }
    let watch = Watch::begin(rt);
    let accepted = call_desk(rt, alloc, desk, seat, turn, calls);
    Some(watch.took(rt, accepted))
}

/// So many calls at a shared desk with this room.
pub fn at_desk<R: Wait + Clock + CpuClock>(
    rt: &R,
    alloc: Global,
    plan: &Plan,
    turn: Turn,
    calls: u64,
) -> io::Result<Took> {
    let commands = commands_for(alloc, plan)?;
    let log = Log::new(alloc)?;
    let names = DeskNames::new(1);
    let took = by_one::<Brand, _>(rt, alloc, &log, names, &commands, turn, calls);
    took.ok_or(io::Error::other("there is no shared desk"))
}
