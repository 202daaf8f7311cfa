//! Searches the rows of a desk.

ghost use Rattle.std.specs.Prelude.{◌≡◌, ◌++◌, ◌≤◌, true, IfOk, IfNone, length, map, filter, nat_eq, slice_get};
ghost use Rattle.std.specs.List.{find};
ghost use Rattle.desk_rows.specs.declared.row.Row.TheVariants.{Member as MemberRow};
ghost use Rattle.desk_rows.specs.Row.{has_key};
ghost use Rattle.desk_rows.specs.Order.{in_order, is_in};
ghost use Rattle.desk_rows.specs.inner.tables.Index.{IsIndex};

use crate::key::Key;
use crate::ordering::{contains, find_row};
use crate::row::{Member, Row};
use crate::tables::index::{IndexEntry, entry_of};
use std::alloc::{AllocError, Allocator};

fn is_member_among(members: &[Member], row: &Row) -> bool
    ensures { result ≡ is_in (map MemberRow members.now) row.now }
{
    members
        .iter()
        .map(|member| Row::Member(*member))
        .any(|other| row.is_same(&other))
}

pub(crate) fn is_among(members: &[Member], others: &[Row], row: &Row) -> bool
    requires { in_order others.now ≡ true }
    ensures { result ≡ is_in (map MemberRow members.now ++ others.now) row.now }
{
    is_member_among(members, row) || contains(others, row)
}

pub(crate) fn numbers_in<A: Allocator>(
    alloc: A,
    members: &[Member],
    room: u32,
) -> Result<Vec<u32, A>, AllocError>
    ensures { IfOk result
        (λ numbers. numbers.items ≡ map (λ m. m.member) (filter (λ m. nat_eq m.room room) members.now)) }
{
    members
        .iter()
        .filter(|member| member.room == room)
        .map(|member| member.member)
        .collect(alloc)
}

fn member_with(members: &[Member], index: &[IndexEntry], number: u32) -> Option<Row>
    requires { IsIndex members.now index.now }
    ensures { result ≡ find (has_key (Key.Member number)) (map MemberRow members.now) }
{
    match entry_of(index, number) {
        None => None,
        Some(entry) => member_row(members, entry.place),
    }
}

/// The row of this key.
pub(crate) fn row_with(
    members: &[Member],
    index: &[IndexEntry],
    others: &[Row],
    key: Key,
) -> Option<Row>
    requires index { IsIndex members.now index.now }
    requires order { in_order others.now ≡ true }
    ensures { result ≡ find (has_key key) (map MemberRow members.now ++ others.now) }
{
    match key {
        Key::Member(number) => match member_with(members, index, number) {
            Some(row) => Some(row),
            None => find_row(others, key),
        },
        _ => find_row(others, key),
    }
}

pub(crate) fn member_row(members: &[Member], i: usize) -> Option<Row>
    ensures row { result ≡ slice_get (map MemberRow members.now) i }
    ensures past { IfNone result (length members.now ≤ i) }
{
    if i >= members.len() {
        return None;
    }
    Some(Row::Member(members[i]))
}

pub(crate) fn other_row(others: &[Row], i: usize) -> Option<Row>
    ensures { result ≡ slice_get others.now i }
{
    if i >= others.len() {
        return None;
    }
    Some(others[i])
}
