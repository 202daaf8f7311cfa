//! A log that is filled to its end.

ghost use Rattle.std.specs.Prelude.{◌≡◌};
ghost use Rattle.desk_rows.specs.Desk.{blank as no_rows};

use crate::calls::{Reply, reply_of};
use call_history::CallStamp;
use desk_edit::{Call, Command, Refusal};
use desk_rows::Room;
use operator_desk::{DeskBrand, DeskNames, Log, Seat, SharedDesk};
use published_desk::{LaneReader, Notice};
use std::alloc::Global;
use std::marker::Brand;
use std::sync::Wait;
use std::test::*;

/// How many calls a log takes.
const CALLS: u64 = 1_048_576;

/// A room is added, and that is undone, in turn.
fn call_after(version: u64) -> Call {
    if version % 2 == 0 {
        Call::Apply(Command::AddRoom(Room {
            room: 1,
            rate: 8_000,
        }))
    } else {
        Call::Undo { last: version }
    }
}

/// Makes a call at each version that a log has place for. False where one is refused.
fn fills<'a, H: DeskBrand, R: Wait>(
    rt: &R,
    alloc: Global,
    desk: &SharedDesk<'a, H>,
    seat: &mut Seat<'a, H>,
) -> bool {
    for version in 0..CALLS {
        let reply = reply_of(desk.call(
            rt,
            alloc,
            seat,
            call_after(version),
            CallStamp::unnamed(alloc, 0),
        ));
        if reply
            != Some(Reply::Accepted {
                no: version.wrapping_add(1),
            })
        {
            return false;
        }
    }
    true
}

/// Whether a reader that is told of the last call enters its version.
fn enters_last(readers: Vec<LaneReader>, notice: Notice) -> bool {
    let mut readers = readers;
    let Some(reader) = readers.pop() else {
        return false;
    };
    match reader.enter() {
        Ok(entered) => {
            let version = entered.version();
            drop(entered.leave());
            version == CALLS && notice.version() == CALLS
        }
        Err(_) => false,
    }
}

/// Whether each call has its place in the log, one more is refused, and the log is gathered whole.
fn is_filled<'a, H: DeskBrand, R: Wait>(
    rt: &R,
    alloc: Global,
    desk: SharedDesk<'a, H>,
    seats: Vec<Seat<'a, H>>,
    readers: Vec<LaneReader>,
) -> bool
    requires parts { H.seats ≡ H.parts }
{
    let mut seats = seats;
    let is_full = match seats.first_mut() {
        Some(seat) => {
            fills(rt, alloc, &desk, seat)
                && reply_of(desk.call(
                    rt,
                    alloc,
                    seat,
                    call_after(CALLS),
                    CallStamp::unnamed(alloc, 0),
                )) == Some(Reply::Refused {
                    at: CALLS,
                    why: Refusal::LogFull,
                })
        }
        None => false,
    };
    let is_entered = enters_last(readers, desk.notice(rt));
    match desk.gather(rt, alloc, seats) {
        Ok((log, _)) => is_full && is_entered && log.len() as u64 == CALLS,
        Err((desk, _seats, _fault, _behind)) => {
            desk.end(rt);
            false
        }
    }
}

fn scene<H: DeskBrand, R: Wait>(rt: &R, alloc: Global, log: &Log, names: DeskNames) -> bool
    requires log { log.now ≡ H.cells }
    requires ledger { (names.ledger.name ≡ H.name) × (names.ledger.parts ≡ H.parts) }
    requires publisher { names.publisher ≡ H.publisher }
    requires start { no_rows 1 ≡ H.start }
    requires seats { (1 ≡ H.seats) × (H.seats ≡ H.parts) }
{
    match SharedDesk::<H>::new(rt, alloc, log, names, 1, 1, 1) {
        Ok((desk, seats, readers)) => is_filled(rt, alloc, desk, seats, readers),
        Err(_) => false,
    }
}

/// A log takes 1,048,576 calls, and the next one is refused. A reader enters the last version, and the gathered log has
/// all calls.
#[test]
fn a_log_takes_all_its_calls(rt: HostRuntime) -> Result<(), Fail> {
    let alloc = rt.alloc();
    let log = Log::new(alloc)?;
    assert!(rt; scene::<Brand, _>(&rt, alloc, &log, DeskNames::new(1)));
    Ok(())
}
