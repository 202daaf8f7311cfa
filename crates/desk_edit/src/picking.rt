//! Picks members with their places.

ghost use Rattle.std.specs.Prelude.{◌≡◌, ◌++◌, [], ◌∷◌, map, IfOk, OnOk};
ghost use Rattle.desk_edit.specs.inner.Edits.{placed_from, placed_in};
ghost use Rattle.desk_edit.specs.inner.Moving.{picked_with, picks};

use desk_rows::{Key, Member, Placed};
use std::alloc::{AllocError, Allocator};

/// Which members are picked.
#[derive(Clone, Copy)]
pub(crate) enum Picked {
    /// The members of this room.
    In(u32),
    /// The member of this number.
    Only(u32),
    Nobody,
}

impl Picked {
    /// The members that go with the row of this key.
    pub(crate) fn with(key: Key) -> Self
        ensures { result ≡ picked_with key }
    {
        match key {
            Key::Room(room) => Self::In(room),
            Key::Member(member) => Self::Only(member),
            _ => Self::Nobody,
        }
    }

    fn picks(self, member: &Member) -> bool
        ensures { result ≡ picks self member.now }
    {
        match self {
            Self::In(room) => member.room == room,
            Self::Only(number) => member.member == number,
            Self::Nobody => false,
        }
    }
}

/// Appends the member, if it is picked.
fn pick<A: Allocator>(
    picked: Picked,
    placed: &mut Vec<Placed, A>,
    place: usize,
    member: &Member,
) -> Result<(), AllocError>
    ensures { OnOk result (placed.new.items ≡ placed.old.items ++ placed_from place (picks picked) (member.now ∷ [])) }
{
    if picked.picks(member) {
        placed.push(Placed {
            place,
            row: *member,
        })?;
    }
    Ok(())
}

/// The members that are picked, with their places.
pub(crate) fn members_picked<A: Allocator>(
    alloc: A,
    members: &[Member],
    picked: Picked,
) -> Result<Vec<Placed, A>, AllocError>
    ensures { IfOk result (λ v. v.items ≡ placed_from 0 (picks picked) members.now) }
{
    let mut placed = Vec::new(alloc);
    let mut rest = members;
    let count = rest.len();
    while let Some((member, later)) = rest.split_first() {
        let place = count - rest.len();
        pick(picked, &mut placed, place, member)?;
        rest = later;
    }
    Ok(placed)
}

fn placed_in(room: u32, placed: &Placed) -> Placed
    ensures { result ≡ placed_in room placed.now }
{
    Placed {
        place: placed.place,
        row: Member { room, ..placed.row },
    }
}

/// The same members at the same places, moved to this room.
pub(crate) fn all_placed_in<A: Allocator>(
    alloc: A,
    room: u32,
    placed: &[Placed],
) -> Result<Vec<Placed, A>, AllocError>
    ensures { IfOk result (λ v. v.items ≡ map (placed_in room) placed.now) }
{
    placed.iter().map(|one| placed_in(room, one)).collect(alloc)
}
