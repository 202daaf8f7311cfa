//! Finds the places of members by their numbers.

ghost use Rattle.std.specs.Prelude.{◌≡◌, ℕ, ◌≤◌, count_by, length, nat_eq, vec_capacity};
ghost use Rattle.std.specs.List.Sorted.{IsNonDecreasingBy};
ghost use Rattle.desk_rows.specs.inner.tables.Index.{entries_from, entry_in, IsIndex};

use crate::row::Member;
use std::alloc::Allocator;

/// A member's number, and its place in the list of members.
#[derive(Clone, Copy)]
pub(crate) struct IndexEntry {
    pub(crate) member: u32,
    pub(crate) place: usize,
}

/// The entry of this number, by binary search.
pub(crate) fn entry_of(index: &[IndexEntry], member: u32) -> Option<IndexEntry>
    requires { IsNonDecreasingBy (λ e. e.member) index.now }
    ensures { result ≡ entry_in index.now member }
{
    let at = index.partition_point(|entry| entry.member < member);
    if at >= index.len() {
        return None;
    }
    let entry = index[at];
    if entry.member == member {
        Some(entry)
    } else {
        None
    }
}

/// Makes the index of these members, within its capacity.
pub(crate) fn index_members<A: Allocator>(index: &mut Vec<IndexEntry, A>, members: &[Member])
    requires numbers { (n : ℕ) → count_by (λ m. nat_eq m.member n) members.now ≤ 1 }
    requires capacity { length members.now ≤ vec_capacity index.old }
    ensures index { IsIndex members.now index.new.items }
    ensures capacity { vec_capacity index.old ≤ vec_capacity index.new }
{
    list_places(index, members);
    index.sort_unstable_by_key(|entry| entry.member);
}

/// Lists the members' numbers with their places.
fn list_places<A: Allocator>(index: &mut Vec<IndexEntry, A>, members: &[Member])
    requires { length members.now ≤ vec_capacity index.old }
    ensures items { index.new.items ≡ entries_from 0 members.now }
    ensures capacity { vec_capacity index.old ≤ vec_capacity index.new }
{
    index.clear();
    let mut rest = members;
    while let Some((member, later)) = rest.split_first() {
        let place = index.len();
        index.push_reserved(IndexEntry {
            member: member.member,
            place,
        });
        rest = later;
    }
}
