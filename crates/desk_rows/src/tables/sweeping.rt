//! Takes rows out and puts rows in by one sweep, from the first of them on.

ghost use Rattle.std.specs.Prelude.{◌≡◌, ◌+◌, ◌≤◌, ◌++◌, true, not, length, vec_len, vec_capacity, ◌∷◌, [], IfSome};
ghost use Rattle.std.specs.List.{list_all};
ghost use Rattle.desk_rows.specs.Order.{precedes, in_order, is_in, with_rows, without_rows};

use crate::ordering::{contains, precedes_first};
use crate::row::Row;
use crate::tables::sliding::{place_before, place_of, put_one, take_one};
use std::alloc::Allocator;

/// Whether the row is in neither list.
#[tactic(auto, using(crate::proofs::Counts::any_of_both))]
fn is_left(row: &Row, taken: &[Row], old: &[Row]) -> bool
    requires taken { in_order taken.now ≡ true }
    requires old { in_order old.now ≡ true }
    ensures { result ≡ not (is_in (with_rows old.now taken.now) row.now) }
{
    if contains(old, row) {
        return false;
    }
    !contains(taken, row)
}

/// The one row of two lists, if there is exactly one.
fn only_row(taken: &[Row], old: &[Row]) -> Option<Row>
    ensures { IfSome result (λ row. with_rows old.now taken.now ≡ row ∷ []) }
{
    if old.is_empty() && taken.len() == 1 {
        return Some(taken[0]);
    }
    if taken.is_empty() && old.len() == 1 {
        return Some(old[0]);
    }
    None
}

/// Takes out the rows of two lists.
fn pick_out<A: Allocator>(rows: &mut Vec<Row, A>, taken: &[Row], old: &[Row])
    requires taken { in_order taken.now ≡ true }
    requires old { in_order old.now ≡ true }
    ensures items { rows.new.items ≡ without_rows (with_rows old.now taken.now) rows.old.items }
    ensures capacity { vec_capacity rows.old ≤ vec_capacity rows.new }
{
    rows.retain(|row| is_left(row, taken, old));
}

fn append<A: Allocator>(out: &mut Vec<Row, A>, rows: &[Row])
    requires { vec_len out.old + length rows.now ≤ vec_capacity out.old }
    ensures items { out.new.items ≡ out.old.items ++ rows.now }
    ensures len { vec_len out.new ≡ vec_len out.old + length rows.now }
    ensures capacity { vec_capacity out.old ≤ vec_capacity out.new }
{
    if rows.is_empty() {
        return;
    }
    if out.extend_from_slice(rows).is_err() {
        return;
    }
}

/// The rows before this one, and the others.
#[tactic(auto, using(crate::proofs::Halving::order_of_rest, crate::proofs::SlidingLemmas::front_passes))]
fn parted_at<'a>(rows: &'a [Row], row: &Row) -> (&'a [Row], &'a [Row])
    requires { in_order rows.now ≡ true }
    ensures all { rows.now ≡ result.0.now ++ result.1.now }
    ensures long { length result.0.now + length result.1.now ≡ length rows.now }
    ensures front { list_all (λ x. precedes x row.now) result.0.now ≡ true }
    ensures behind { list_all (λ x. not (precedes x row.now)) result.1.now ≡ true }
    ensures order { in_order result.1.now ≡ true }
{
    if let Some((first, _)) = rows.split_first() {
        if first.precedes(row) {
            return rows.split_at(place_of(rows, row));
        }
    }
    rows.split_at(0)
}

/// The rows without this one, which can only be the first of them.
fn without_first<'a>(rows: &'a [Row], row: &Row) -> &'a [Row]
    requires order { in_order rows.now ≡ true }
    requires behind { list_all (λ x. not (precedes x row.now)) rows.now ≡ true }
    ensures { result.now ≡ without_rows (row.now ∷ []) rows.now }
{
    if let Some((first, later)) = rows.split_first() {
        if first.is_same(row) {
            return later;
        }
    }
    rows
}

/// Appends the rows without those of the second list.
fn leave_out<A: Allocator>(out: &mut Vec<Row, A>, rows: &[Row], taken: &[Row])
    requires rows { in_order rows.now ≡ true }
    requires taken { in_order taken.now ≡ true }
    requires capacity { vec_len out.old + length rows.now ≤ vec_capacity out.old }
    ensures items { out.new.items ≡ out.old.items ++ without_rows taken.now rows.now }
    ensures capacity { vec_capacity out.old ≤ vec_capacity out.new }
{
    let mut rest = rows;
    let mut left = taken;
    while let Some((first, behind)) = left.split_first() {
        let (stay, others) = parted_at(rest, first);
        append(out, stay);
        rest = without_first(others, first);
        left = behind;
    }
    append(out, rest);
}

/// Takes these rows out by one sweep through the spare buffer. Rows before the first of them stay in place.
fn sweep_out<A: Allocator>(rows: &mut Vec<Row, A>, spare: &mut Vec<Row, A>, taken: &[Row])
    requires rows { in_order rows.old.items ≡ true }
    requires taken { in_order taken.now ≡ true }
    requires capacity { vec_len rows.old ≤ vec_capacity spare.old }
    ensures items { rows.new.items ≡ without_rows taken.now rows.old.items }
    ensures capacity { (vec_capacity rows.old ≤ vec_capacity rows.new)
        × (vec_capacity spare.old ≤ vec_capacity spare.new) }
{
    if let Some((first, _)) = taken.split_first() {
        let (stay, others) = parted_at(rows, first);
        let place = stay.len();
        spare.clear();
        leave_out(spare, others, taken);
        rows.truncate(place);
        append(rows, spare);
    }
}

/// Takes out the rows of two lists, of which one may be empty.
fn take_many<A: Allocator>(
    rows: &mut Vec<Row, A>,
    spare: &mut Vec<Row, A>,
    taken: &[Row],
    old: &[Row],
)
    requires rows { in_order rows.old.items ≡ true }
    requires taken { in_order taken.now ≡ true }
    requires old { in_order old.now ≡ true }
    requires capacity { vec_len rows.old ≤ vec_capacity spare.old }
    ensures items { rows.new.items ≡ without_rows (with_rows old.now taken.now) rows.old.items }
    ensures capacity { (vec_capacity rows.old ≤ vec_capacity rows.new)
        × (vec_capacity spare.old ≤ vec_capacity spare.new) }
{
    if old.is_empty() {
        sweep_out(rows, spare, taken);
    } else {
        pick_out(rows, taken, old);
    }
}

/// Takes out the rows of two lists: a single one at its place, more by one sweep.
pub(crate) fn take_rows<A: Allocator>(
    rows: &mut Vec<Row, A>,
    spare: &mut Vec<Row, A>,
    taken: &[Row],
    old: &[Row],
)
    requires rows { in_order rows.old.items ≡ true }
    requires taken { in_order taken.now ≡ true }
    requires old { in_order old.now ≡ true }
    requires capacity { vec_len rows.old ≤ vec_capacity spare.old }
    ensures items { rows.new.items ≡ without_rows (with_rows old.now taken.now) rows.old.items }
    ensures capacity { (vec_capacity rows.old ≤ vec_capacity rows.new)
        × (vec_capacity spare.old ≤ vec_capacity spare.new) }
{
    match only_row(taken, old) {
        Some(row) => take_one(rows, &row),
        None => take_many(rows, spare, taken, old),
    }
}

/// The rows that this one does not stand before, and the others.
#[tactic(auto, using(crate::proofs::Together::parted))]
fn parted_before<'a>(rows: &'a [Row], row: &Row) -> (&'a [Row], &'a [Row])
    requires { in_order rows.now ≡ true }
    ensures all { rows.now ≡ result.0.now ++ result.1.now }
    ensures long { length result.0.now + length result.1.now ≡ length rows.now }
    ensures front { list_all (λ x. not (precedes row.now x)) result.0.now ≡ true }
    ensures behind { list_all (precedes row.now) result.1.now ≡ true }
    ensures order { in_order result.1.now ≡ true }
{
    if precedes_first(row, rows) {
        return rows.split_at(0);
    }
    rows.split_at(place_before(rows, row))
}

/// Merges both lists, so that the rows keep their order.
fn merge<A: Allocator>(out: &mut Vec<Row, A>, rows: &[Row], put: &[Row])
    requires rows { in_order rows.now ≡ true }
    requires order { in_order put.now ≡ true }
    requires capacity { vec_len out.old + (length rows.now + length put.now) ≤ vec_capacity out.old }
    ensures items { out.new.items ≡ out.old.items ++ with_rows put.now rows.now }
    ensures capacity { vec_capacity out.old ≤ vec_capacity out.new }
{
    let mut rest = rows;
    let mut left = put;
    while let Some((first, behind)) = left.split_first() {
        let (front, others) = parted_before(rest, first);
        append(out, front);
        out.push_reserved(*first);
        rest = others;
        left = behind;
    }
    append(out, rest);
}

/// Puts these rows in by one sweep through the spare buffer, so that all keep their order. Rows before the first of
/// them stay in place.
fn sweep_in<A: Allocator>(rows: &mut Vec<Row, A>, spare: &mut Vec<Row, A>, put: &[Row])
    requires rows { in_order rows.old.items ≡ true }
    requires order { in_order put.now ≡ true }
    requires capacity { (vec_len rows.old + length put.now ≤ vec_capacity rows.old)
        × (vec_len rows.old + length put.now ≤ vec_capacity spare.old) }
    ensures items { rows.new.items ≡ with_rows put.now rows.old.items }
    ensures capacity { (vec_capacity rows.old ≤ vec_capacity rows.new)
        × (vec_capacity spare.old ≤ vec_capacity spare.new) }
{
    if let Some((first, _)) = put.split_first() {
        let (front, others) = parted_before(rows, first);
        let place = front.len();
        spare.clear();
        merge(spare, others, put);
        rows.truncate(place);
        append(rows, spare);
    }
}

/// Puts these rows in: a single one at its place, more by one sweep through the spare buffer.
pub(crate) fn put_rows<A: Allocator>(rows: &mut Vec<Row, A>, spare: &mut Vec<Row, A>, put: &[Row])
    requires rows { in_order rows.old.items ≡ true }
    requires order { in_order put.now ≡ true }
    requires capacity { (vec_len rows.old + length put.now ≤ vec_capacity rows.old)
        × (vec_len rows.old + length put.now ≤ vec_capacity spare.old) }
    ensures items { rows.new.items ≡ with_rows put.now rows.old.items }
    ensures capacity { (vec_capacity rows.old ≤ vec_capacity rows.new)
        × (vec_capacity spare.old ≤ vec_capacity spare.new) }
{
    match only_row(put, &[]) {
        Some(row) => put_one(rows, &row),
        None => sweep_in(rows, spare, put),
    }
}
