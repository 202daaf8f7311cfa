//! Takes member rows from their places, and puts them at places.

ghost use Rattle.std.specs.Prelude.{◌≡◌, ◌+◌, ◌≤◌, true, length, vec_len, vec_capacity};
ghost use Rattle.desk_rows.specs.Places.{can_take, can_put, take_at, put_at};

use crate::edit::Placed;
use crate::row::Member;
use std::alloc::Allocator;

/// Takes these rows from their places, the last one first.
pub(crate) fn take_members<A: Allocator>(members: &mut Vec<Member, A>, placed: &[Placed])
    requires { can_take placed.now members.old.items ≡ true }
    ensures items { members.new.items ≡ take_at placed.now members.old.items }
    ensures capacity { vec_capacity members.old ≤ vec_capacity members.new }
{
    let mut rest = placed;
    while let Some((last, earlier)) = rest.split_last() {
        members.remove(last.place);
        rest = earlier;
    }
}

/// Puts these rows at their places, the first one first. The tables have the capacity.
pub(crate) fn put_members<A: Allocator>(members: &mut Vec<Member, A>, placed: &[Placed])
    requires can { can_put placed.now members.old.items ≡ true }
    requires capacity { vec_len members.old + length placed.now ≤ vec_capacity members.old }
    ensures items { members.new.items ≡ put_at placed.now members.old.items }
    ensures capacity { vec_capacity members.old ≤ vec_capacity members.new }
{
    let mut rest = placed;
    while let Some((first, later)) = rest.split_first() {
        if members.insert(first.place, first.row).is_err() {
            return;
        }
        rest = later;
    }
}
