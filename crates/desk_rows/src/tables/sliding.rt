//! Puts in, takes out or replaces one row at its place.

ghost use Rattle.std.specs.Prelude.{◌≡◌, ◌+◌, ◌≤◌, ◌∷◌, [], true, not, length, slice_get, vec_len, vec_capacity};
ghost use Rattle.desk_rows.specs.Row.{key_of, same_key};
ghost use Rattle.desk_rows.specs.Order.{precedes, in_order, is_in, with_row, without_rows};
ghost use Rattle.desk_rows.specs.inner.tables.Parting.{Parts, is_found_as};

use crate::row::Row;
use std::alloc::Allocator;

/// The place of the row of this row's key, or where one would stand.
pub(crate) fn place_of(rows: &[Row], row: &Row) -> usize
    requires { in_order rows.now ≡ true }
    ensures parts { Parts (λ x. precedes x row.now) rows.now result }
    ensures within { result ≤ length rows.now }
{
    rows.partition_point(|other| other.precedes(row))
}

/// The place of the first row that this one stands before.
pub(crate) fn place_before(rows: &[Row], row: &Row) -> usize
    requires { in_order rows.now ≡ true }
    ensures parts { Parts (λ x. not (precedes row.now x)) rows.now result }
    ensures within { result ≤ length rows.now }
{
    rows.partition_point(|other| !row.precedes(other))
}

/// Whether the row stands at the place.
fn stands(rows: &[Row], place: usize, row: &Row) -> bool
    ensures { result ≡ is_found_as row.now (slice_get rows.now place) }
{
    if place >= rows.len() {
        return false;
    }
    rows[place].is_same(row)
}

/// Takes the row out, if it is there.
pub(crate) fn take_one<A: Allocator>(rows: &mut Vec<Row, A>, row: &Row)
    requires { in_order rows.old.items ≡ true }
    ensures items { rows.new.items ≡ without_rows (row.now ∷ []) rows.old.items }
    ensures capacity { vec_capacity rows.old ≤ vec_capacity rows.new }
{
    let place = place_of(rows, row);
    if stands(rows, place, row) {
        rows.remove(place);
    }
}

/// Puts the row in. The tables have the capacity.
pub(crate) fn put_one<A: Allocator>(rows: &mut Vec<Row, A>, row: &Row)
    requires order { in_order rows.old.items ≡ true }
    requires capacity { vec_len rows.old + 1 ≤ vec_capacity rows.old }
    ensures items { rows.new.items ≡ with_row row.now rows.old.items }
    ensures capacity { vec_capacity rows.old ≤ vec_capacity rows.new }
{
    let place = place_before(rows, row);
    if rows.insert(place, *row).is_err() {
        return;
    }
}

/// Puts a row in place of another of its key, which is there.
pub(crate) fn replace_one<A: Allocator>(rows: &mut Vec<Row, A>, old: &Row, new: &Row)
    requires order { in_order rows.old.items ≡ true }
    requires there { is_in rows.old.items old.now ≡ true }
    requires key { same_key (key_of old.now) (key_of new.now) ≡ true }
    ensures items { rows.new.items ≡ with_row new.now (without_rows (old.now ∷ []) rows.old.items) }
    ensures capacity { vec_capacity rows.old ≤ vec_capacity rows.new }
{
    let place = place_of(rows, old);
    rows[place] = *new;
}
