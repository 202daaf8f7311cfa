//! A reader that is told of calls, and two operators at once: the worked calls `told_of` and `by_two`, run.

ghost use Rattle.std.specs.Prelude.{◌≡◌};
ghost use Rattle.desk_rows.specs.Desk.{blank as no_rows};

use desk_edit::{Call, Command};
use desk_rows::{Kind, Room};
use operator_desk::{DeskBrand, DeskNames, Log, Seat, SharedDesk};
use published_desk::{LaneReader, Notice};
use std::alloc::Global;
use std::marker::Brand;
use std::sync::Wait;
use std::test::*;
use std::thread::Threads;
use worked_desk::telling::{Found, told_of};
use worked_desk::together::by_two;

fn add_room(room: u32) -> Call {
    Call::Apply(Command::AddRoom(Room { room, rate: 8_000 }))
}

/// Whether a reader entered the version of this call, and found so many rooms.
fn is_found(found: Option<Found>, no: u64, rooms: usize) -> bool {
    match found {
        Some(found) => found.no == no && found.version == no && found.count == rooms,
        None => false,
    }
}

/// Whether a reader that learns the notice enters this version, and finds no room.
fn finds_no_room(reader: LaneReader, notice: Notice, version: u64) -> bool
    requires publisher { notice.publisher ≡ reader.publisher }
{
    let mut reader = reader;
    reader.learn(notice);
    match reader.enter() {
        Ok(entered) => {
            let found = entered.version() == version && entered.rows().count(Kind::Room) == 0;
            drop(entered.leave());
            found
        }
        Err(_) => false,
    }
}

/// A reader that is told of a call finds the room that it adds, and told of the next one, that it is gone. Another
/// reader, which is told of nothing else than what is published then, finds the same.
fn find_what_they_are_told<'a, H: DeskBrand, R: Wait>(
    rt: &R,
    alloc: Global,
    desk: &SharedDesk<'a, H>,
    seat: &mut Seat<'a, H>,
    reader: LaneReader,
    other: LaneReader,
) -> bool
    requires reader { (reader.publisher ≡ H.publisher) × (reader.start ≡ H.start) }
    requires other { (other.publisher ≡ H.publisher) × (other.start ≡ H.start) }
{
    let undo = Call::Undo { last: 1 };
    let (one, reader) = told_of(rt, alloc, desk, seat, reader, add_room(1), Kind::Room);
    let (none, _reader) = told_of(rt, alloc, desk, seat, reader, undo, Kind::Room);
    finds_no_room(other, desk.notice(rt), 2) && is_found(one, 1, 1) && is_found(none, 2, 0)
}

fn are_told<H: DeskBrand, R: Wait>(rt: &R, alloc: Global, log: &Log, names: DeskNames) -> bool
    requires log { log.now ≡ H.cells }
    requires ledger { (names.ledger.name ≡ H.name) × (names.ledger.parts ≡ H.parts) }
    requires publisher { names.publisher ≡ H.publisher }
    requires start { no_rows 1 ≡ H.start }
    requires seats { (1 ≡ H.seats) × (H.seats ≡ H.parts) }
{
    match SharedDesk::<H>::new(rt, alloc, log, names, 1, 1, 2) {
        Ok((desk, mut seats, mut readers)) => {
            let other = readers.pop().unwrap();
            let reader = readers.pop().unwrap();
            let found = find_what_they_are_told(rt, alloc, &desk, &mut seats[0], reader, other);
            desk.end(rt);
            found
        }
        Err(_) => false,
    }
}

/// Two operators add a room each at the same time. It answers how many calls their log has.
fn at_once<H: DeskBrand + Send + Sync, R: Threads + Wait + Sync>(
    rt: &R,
    alloc: Global,
    log: &Log,
    names: DeskNames,
) -> Option<usize>
    requires log { log.now ≡ H.cells }
    requires ledger { (names.ledger.name ≡ H.name) × (names.ledger.parts ≡ H.parts) }
    requires publisher { names.publisher ≡ H.publisher }
    requires start { no_rows 1 ≡ H.start }
    requires seats { (2 ≡ H.seats) × (H.seats ≡ H.parts) }
{
    match SharedDesk::<H>::new(rt, alloc, log, names, 1, 2, 1) {
        Ok((desk, mut seats, _readers)) => {
            let two = seats.pop().unwrap();
            let one = seats.pop().unwrap();
            match by_two(rt, alloc, desk, one, two, add_room(1), add_room(2)) {
                Some(log) => Some(log.len()),
                None => None,
            }
        }
        Err(_) => None,
    }
}

#[test]
fn readers_are_told_of_calls(rt: HostRuntime) -> Result<(), Fail> {
    let alloc = rt.alloc();
    let log = Log::new(alloc)?;
    assert!(rt; are_told::<Brand, _>(&rt, alloc, &log, DeskNames::new(1)));
    Ok(())
}

#[test]
fn two_operators_call_at_once(rt: HostRuntime) -> Result<(), Fail> {
    let alloc = rt.alloc();
    let log = Log::new(alloc)?;
    assert!(rt; at_once::<Brand, _>(&rt, alloc, &log, DeskNames::new(2)) == Some(2));
    Ok(())
}
