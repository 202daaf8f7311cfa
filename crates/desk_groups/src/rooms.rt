//! The rows of one room.

ghost use Rattle.std.specs.Prelude.{◌≡◌, IfOk, Some, filter, nat_eq};
ghost use Rattle.std.specs.List.{list_any};
ghost use Rattle.desk_rows.specs.Few.{listed};
ghost use Rattle.desk_rows.specs.Desk.{room_at, same_room};
ghost use Rattle.desk_groups.specs.Rooms.{is_in_room};

use desk_rows::{Few, Key, Member, Row, Rows, room_at, room_of};
use std::alloc::{AllocError, Allocator};

/// Whether a room that was found is this one.
fn is_room(found: Option<u32>, room: u32) -> bool
    ensures { result ≡ same_room found (Some room) }
{
    match found {
        Some(number) => number == room,
        None => false,
    }
}

/// Whether a row of these keys is in the room.
fn any_in_room<A: Allocator + Copy>(rows: &Rows<A>, keys: Few<Key>, room: u32) -> bool
    ensures { result ≡ list_any (λ key. same_room (room_at rows.now key) (Some room)) (listed keys) }
{
    match keys {
        Few::Nothing => false,
        Few::One(key) => is_room(room_at(rows, key), room),
        Few::Two(a, b) => is_room(room_at(rows, a), room) || is_room(room_at(rows, b), room),
    }
}

/// Whether a row is in the room: by itself, or by a row that it names.
fn is_in_room<A: Allocator + Copy>(rows: &Rows<A>, row: &Row, room: u32) -> bool
    ensures { result ≡ is_in_room rows.now room row.now }
{
    is_room(room_of(rows, row), room) || any_in_room(rows, row.names(), room)
}

/// The members of the room, in joining order.
pub(crate) fn members_of<A: Allocator>(
    alloc: A,
    members: &[Member],
    room: u32,
) -> Result<Vec<Member, A>, AllocError>
    ensures { IfOk result (λ v. v.items ≡ filter (λ m. nat_eq m.room room) members.now) }
{
    members
        .iter()
        .filter(|member| member.room == room)
        .copied()
        .collect(alloc)
}

/// All other rows of the room, among these.
pub(crate) fn others_of<A: Allocator + Copy>(
    alloc: A,
    rows: &Rows<A>,
    others: &[Row],
    room: u32,
) -> Result<Vec<Row, A>, AllocError>
    ensures { IfOk result (λ v. v.items ≡ filter (is_in_room rows.now room) others.now) }
{
    others
        .iter()
        .filter(|row| is_in_room(rows, row, room))
        .copied()
        .collect(alloc)
}
