//! Sorts things by the place of their member.

ghost use Rattle.std.specs.Prelude.{◌≡◌, ◌<◌, ℕ, IfOk, map, slice_get};
ghost use Rattle.std.specs.List.{All};
ghost use Rattle.topology.specs.inner.Seating.{seat_of, by_places};

use desk_rows::{Member, Rows};
use std::alloc::{AllocError, Allocator};

/// A thing, and the place of its member.
#[derive(Clone, Copy)]
pub(crate) struct Seated<T> {
    pub(crate) place: usize,
    pub(crate) thing: T,
}

/// The member at this place.
fn standing_at(members: &[Member], place: usize) -> Option<Member>
    ensures { result ≡ slice_get members.now place }
{
    if place >= members.len() {
        return None;
    }
    Some(members[place])
}

/// The member of this number, with its place.
pub(crate) fn seat_of<A: Allocator + Copy>(rows: &Rows<A>, member: u32) -> Option<Seated<Member>>
    ensures { result ≡ seat_of rows.now member }
{
    let place = rows.place_of(member)?;
    let thing = standing_at(rows.members(), place)?;
    Some(Seated { place, thing })
}

/// Sorts things by place. Those of one place keep their order.
pub(crate) fn by_places<T: Copy, A: Allocator>(
    alloc: A,
    seats: &mut Vec<Seated<T>, A>,
) -> Result<Vec<T, A>, AllocError>
    ensures { IfOk result (λ v. (n : ℕ) → All (λ t. t.place < n) seats.old.items
        → v.items ≡ by_places n seats.old.items) }
{
    seats.sort_by_key(|seat| seat.place)?;
    things(alloc, seats)
}

/// The things without their places.
fn things<T: Copy, A: Allocator>(alloc: A, seats: &[Seated<T>]) -> Result<Vec<T, A>, AllocError>
    ensures { IfOk result (λ v. v.items ≡ map (λ t. t.thing) seats.now) }
{
    seats.iter().map(|seat| seat.thing).collect(alloc)
}
