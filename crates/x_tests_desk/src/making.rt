//! Rows that are made again, where memory is ample.

use crate::calls::Reply;
use crate::replay::asked;
use desk_calls::Desk;
use desk_edit::{Call, Command};
use desk_groups::{groups_of, groups_of_room};
use desk_rows::{Codec, Kind, Member, Room, Rows};
use rtp_codec::Address;
use std::alloc::Global;
use std::test::*;

/// How many rooms the desk has.
const ROOMS: u16 = 40;

/// The member of a room.
fn member_of(room: u16) -> Member {
    Member {
        member: room as u32,
        room: room as u32,
        address: Address {
            ip: [10, 0, 0, 1],
            port: 5_000 + room % ROOMS,
        },
        codec: Codec::Pcmu,
        out_audio: 9_000 + room as u32,
        first_seq: 0,
        first_ts: 0,
    }
}

/// A desk that accepts these calls, one after another.
fn called(alloc: Global, calls: Vec<Call>) -> Option<Desk> {
    let mut desk = Desk::new(alloc, Rows::new(alloc, 1).ok()?);
    for call in calls {
        match asked(alloc, &mut desk, &call) {
            Reply::Accepted { .. } => {}
            Reply::Refused { .. } => return None,
        }
    }
    Some(desk)
}

/// A desk with rooms from 0 on and a member in each, the last one first.
fn filled(alloc: Global) -> Option<Desk> {
    let mut calls = Vec::new(alloc);
    for place in 1..ROOMS + 1 {
        let room = ROOMS.saturating_sub(place);
        let row = Room {
            room: room as u32,
            rate: 8_000,
        };
        calls.push(Call::Apply(Command::AddRoom(row))).ok()?;
        calls
            .push(Call::Apply(Command::AddMember(member_of(room))))
            .ok()?;
    }
    called(alloc, calls)
}

/// A desk without rows that accepts these groups, one after another.
fn made(alloc: Global, groups: Vec<Vec<Command>>) -> Option<Desk> {
    let mut calls = Vec::new(alloc);
    for group in groups {
        calls.push(Call::Group(group)).ok()?;
    }
    called(alloc, calls)
}

/// How many groups make all rows of the desk again, if they do.
fn groups_that_make(alloc: Global, desk: &Desk) -> Option<usize> {
    let groups = groups_of(alloc, desk.rows()).ok()?;
    let count = groups.len();
    let again = made(alloc, groups)?;
    let is_same = again.rows().members() == desk.rows().members()
        && again.rows().count(Kind::Room) == desk.rows().count(Kind::Room);
    is_same.then_some(count)
}

/// How many rooms and members one room's groups make.
fn made_of_room(alloc: Global, desk: &Desk, room: u32) -> Option<(usize, usize)> {
    let again = made(alloc, groups_of_room(alloc, desk.rows(), room).ok()?)?;
    Some((again.rows().count(Kind::Room), again.rows().members().len()))
}

#[test]
fn rows_are_made_again(rt: HostRuntime) -> Result<(), Fail> {
    let alloc = rt.alloc();
    let desk = filled(alloc).ok_or("a call is refused")?;
    // 80 rows are a group of 45 commands and one of 35.
    assert!(rt; groups_that_make(alloc, &desk) == Some(2));
    assert!(rt; made_of_room(alloc, &desk, 7) == Some((1, 1)));
    assert!(rt; made_of_room(alloc, &desk, 1_000) == Some((0, 0)));
    Ok(())
}
