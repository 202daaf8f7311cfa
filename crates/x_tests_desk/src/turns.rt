//! Two operators in turn, and what they leave: a log that is whole once both seats are back, and that is of no use to
//! another desk.

ghost use Rattle.std.specs.Prelude.{◌≡◌, vec_len};
ghost use Rattle.desk_rows.specs.Desk.{blank as no_rows};

use crate::calls::{Reply, reply_of};
use call_history::CallStamp;
use desk_edit::{Call, Command, Refusal};
use desk_rows::{Kind, Room};
use operator_desk::{
    Answer, DeskBrand, DeskNames, GatherFault, Log, LogEntry, Seat, SharedDesk, Why,
};
use std::alloc::Global;
use std::marker::Brand;
use std::sync::Wait;
use std::test::*;

fn add_room(room: u32) -> Call {
    Call::Apply(Command::AddRoom(Room { room, rate: 8_000 }))
}

/// How a call is answered.
fn replied<'a, H: DeskBrand, R: Wait>(
    rt: &R,
    alloc: Global,
    desk: &SharedDesk<'a, H>,
    seat: &mut Seat<'a, H>,
    call: Call,
) -> Option<Reply> {
    reply_of(desk.call(rt, alloc, seat, call, CallStamp::unnamed(alloc, 0)))
}

/// Each adds a room. Neither can undo while the other has called since, so one of them takes both back.
fn take_turns<'a, H: DeskBrand, R: Wait>(
    rt: &R,
    alloc: Global,
    desk: &SharedDesk<'a, H>,
    seats: &mut Vec<Seat<'a, H>>,
) -> [Option<Reply>; 6]
    requires { vec_len seats.old ≡ 2 }
    ensures { vec_len seats.new ≡ 2 }
{
    let first = replied(rt, alloc, desk, &mut seats[0], add_room(1));
    let second = replied(rt, alloc, desk, &mut seats[1], add_room(2));
    let third = replied(rt, alloc, desk, &mut seats[0], Call::Undo { last: 1 });
    let fourth = replied(rt, alloc, desk, &mut seats[0], Call::Undo { last: 2 });
    let fifth = replied(rt, alloc, desk, &mut seats[1], Call::Undo { last: 3 });
    let sixth = replied(rt, alloc, desk, &mut seats[1], Call::Undo { last: 4 });
    [first, second, third, fourth, fifth, sixth]
}

fn accepted(no: u64) -> Option<Reply> {
    Some(Reply::Accepted { no })
}

fn refused(at: u64, why: Refusal) -> Option<Reply> {
    Some(Reply::Refused { at, why })
}

/// What they are answered.
fn wanted() -> [Option<Reply>; 6] {
    [
        accepted(1),
        accepted(2),
        refused(2, Refusal::NewerCommand { last: 2 }),
        accepted(3),
        accepted(4),
        refused(4, Refusal::NothingToUndo),
    ]
}

/// Who made the calls of a log.
fn callers(alloc: Global, log: &Vec<LogEntry>) -> Option<Vec<u32>> {
    let mut callers = Vec::new(alloc);
    for entry in log {
        callers.push(entry.op()).ok()?;
    }
    Some(callers)
}

/// Who made the calls of the log, if it is handed out for these seats.
fn whole<'a, H: DeskBrand, R: Wait>(
    rt: &R,
    alloc: Global,
    desk: SharedDesk<'a, H>,
    seats: Vec<Seat<'a, H>>,
) -> Option<Vec<u32>>
    requires parts { H.seats ≡ H.parts }
{
    match desk.gather(rt, alloc, seats) {
        Ok((log, _)) => callers(alloc, &log),
        Err((desk, _seats, _fault, _behind)) => {
            desk.end(rt);
            None
        }
    }
}

fn with<'a, H: DeskBrand>(seats: Vec<Seat<'a, H>>, kept: Option<Seat<'a, H>>) -> Vec<Seat<'a, H>> {
    let mut seats = seats;
    if let Some(seat) = kept {
        let _ = seats.push(seat);
    }
    seats
}

/// Whether each made every second of four calls.
fn took_turns(callers: Option<Vec<u32>>) -> bool {
    match callers {
        Some(callers) => callers.as_slice() == [0, 1, 0, 1].as_slice(),
        None => false,
    }
}

/// Whether the log is not handed out while the second seat is kept back, and then has the calls of both.
fn is_gathered<'a, H: DeskBrand, R: Wait>(
    rt: &R,
    alloc: Global,
    desk: SharedDesk<'a, H>,
    seats: Vec<Seat<'a, H>>,
) -> bool
    requires parts { H.seats ≡ H.parts }
{
    let mut seats = seats;
    let kept = seats.pop();
    match desk.gather(rt, alloc, seats) {
        Ok(_) => false,
        Err((desk, seats, fault, _behind)) => {
            let callers = whole(rt, alloc, desk, with(seats, kept));
            took_turns(callers) && fault == (GatherFault::SeatMissing { op: 1 })
        }
    }
}

/// Whether the desk has no room at version 4.
fn is_empty_at_4<'a, H: DeskBrand, R: Wait>(
    rt: &R,
    alloc: Global,
    desk: &SharedDesk<'a, H>,
) -> bool {
    match desk.rows(rt, alloc) {
        Ok((version, rows)) => version == 4 && rows.count(Kind::Room) == 0,
        Err(_) => false,
    }
}

fn two_in_turn<H: DeskBrand, R: Wait>(rt: &R, alloc: Global, log: &Log, names: DeskNames) -> bool
    requires log { log.now ≡ H.cells }
    requires ledger { (names.ledger.name ≡ H.name) × (names.ledger.parts ≡ H.parts) }
    requires publisher { names.publisher ≡ H.publisher }
    requires start { no_rows 1 ≡ H.start }
    requires seats { (2 ≡ H.seats) × (H.seats ≡ H.parts) }
{
    match SharedDesk::<H>::new(rt, alloc, log, names, 1, 2, 1) {
        Ok((desk, mut seats, _readers)) => {
            let replies = take_turns(rt, alloc, &desk, &mut seats);
            let is_empty = is_empty_at_4(rt, alloc, &desk);
            is_gathered(rt, alloc, desk, seats) && is_empty && replies == wanted()
        }
        Err(_) => false,
    }
}

/// Whether a call is refused since the log is taken.
fn refuses<'a, H: DeskBrand, R: Wait>(
    rt: &R,
    alloc: Global,
    desk: &SharedDesk<'a, H>,
    seat: &mut Seat<'a, H>,
) -> bool {
    match desk.call(rt, alloc, seat, add_room(1), CallStamp::unnamed(alloc, 0)) {
        Ok(Answer::Refused { at, why }) => at == 0 && why == Why::LogTaken,
        _ => false,
    }
}

/// Whether a call is refused at a desk over a log that another desk has used, and the log not handed out.
fn is_taken<H: DeskBrand, R: Wait>(rt: &R, alloc: Global, log: &Log, names: DeskNames) -> bool
    requires log { log.now ≡ H.cells }
    requires ledger { (names.ledger.name ≡ H.name) × (names.ledger.parts ≡ H.parts) }
    requires publisher { names.publisher ≡ H.publisher }
    requires start { no_rows 1 ≡ H.start }
    requires seats { (1 ≡ H.seats) × (H.seats ≡ H.parts) }
{
    match SharedDesk::<H>::new(rt, alloc, log, names, 1, 1, 1) {
        Ok((desk, mut seats, _readers)) => {
            let is_refused = refuses(rt, alloc, &desk, &mut seats[0]);
            match desk.gather(rt, alloc, seats) {
                Ok(_) => false,
                Err((desk, _seats, fault, behind)) => {
                    drop(behind);
                    desk.end(rt);
                    is_refused && fault == GatherFault::LogTaken
                }
            }
        }
        Err(_) => false,
    }
}

#[test]
fn two_operators_call_in_turn(rt: HostRuntime) -> Result<(), Fail> {
    let alloc = rt.alloc();
    let log = Log::new(alloc)?;
    assert!(rt; two_in_turn::<Brand, _>(&rt, alloc, &log, DeskNames::new(2)));
    assert!(rt; is_taken::<Brand, _>(&rt, alloc, &log, DeskNames::new(1)));
    Ok(())
}
