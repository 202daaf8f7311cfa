//! A desk with a member in another room.

ghost use Rattle.std.specs.Prelude.{◌≡◌, not};
ghost use Rattle.desk_rows.specs.Row.{names};
ghost use Rattle.desk_rows.specs.Desk.{are_together};
ghost use Rattle.desk_edit.specs.Commands.{into_room, with_member_in};
ghost use Rattle.desk_edit.specs.inner.Moving.{row_into_room};

use desk_rows::{Key, Look, Member, Row, Rows, are_together};
use std::alloc::Allocator;

/// A desk, with one member in this room.
#[derive(Drop)]
pub(crate) struct Moved<'a, A: Allocator + Copy> {
    pub(crate) rows: &'a Rows<A>,
    pub(crate) member: u32,
    pub(crate) room: u32,
}

/// The member of this number in this room, any other as it is.
fn into_room(member: u32, room: u32, row: Member) -> Member
    ensures { result ≡ into_room member room row }
{
    if row.member == member {
        Member { room, ..row }
    } else {
        row
    }
}

fn row_into_room(member: u32, room: u32, found: Option<Row>) -> Option<Row>
    ensures { result ≡ row_into_room member room found }
{
    match found {
        Some(Row::Member(row)) => Some(Row::Member(into_room(member, room, row))),
        _ => found,
    }
}

impl<A: Allocator + Copy> Look for Moved<'_, A> {
    ghost desk = { λ x. with_member_in x.rows.now x.member x.room };

    fn look(&self, key: Key) -> Option<Row> {
        row_into_room(self.member, self.room, self.rows.look(key))
    }
}

impl<A: Allocator + Copy> Moved<'_, A> {
    /// Whether the row names two different rooms then.
    pub(crate) fn parts(&self, row: &Row) -> bool
        ensures { result
            ≡ not (are_together (with_member_in self.now.rows.now self.now.member self.now.room) (names row.now)) }
    {
        !are_together(self, row)
    }
}
