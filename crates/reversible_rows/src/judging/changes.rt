//! Finds what an edit takes and puts, by key.

ghost use Rattle.std.specs.Prelude.{◌≡◌, ◌<◌, ◌^◌, true, map};
ghost use Rattle.std.specs.List.{find};
ghost use Rattle.desk_rows.specs.declared.row.Row.TheVariants.{Member as MemberRow};
ghost use Rattle.desk_rows.specs.Row.{has_key};
ghost use Rattle.desk_rows.specs.Order.{in_order};
ghost use Rattle.reversible_rows.specs.inner.Tests.{passes};
ghost use Rattle.desk_rows.specs.inner.judging.Judged.{listed_rows, takes, coming, go_count, come_count};

use crate::judging::counting::{Test, count_placed, count_rows};
use desk_rows::{Edit, Key, Placed, Row, find_row};
use std::alloc::Allocator;

/// Whether the edit takes a row with this key.
#[tactic(auto, using(crate::proofs::ChangeLemmas::takes_is))]
pub(crate) fn takes<A: Allocator + Copy>(edit: &Edit<A>, key: Key) -> bool
    requires taken { in_order edit.now.taken.others ≡ true }
    requires old { in_order edit.now.replaced.old ≡ true }
    ensures { result ≡ takes edit.now key }
{
    find_change(edit.taken_members(), edit.taken_others(), edit.old(), key).is_some()
}

/// The row with this key that the edit puts.
pub(crate) fn coming<A: Allocator + Copy>(edit: &Edit<A>, key: Key) -> Option<Row>
    requires put { in_order edit.now.put.others ≡ true }
    requires new { in_order edit.now.replaced.new ≡ true }
    ensures { result ≡ coming edit.now key }
{
    find_change(edit.put_members(), edit.put_others(), edit.new(), key)
}

/// The number of rows that come and pass the test.
#[tactic(auto, using(desk_rows::proofs::Counts::two_counts, desk_rows::proofs::Counts::count_of_both))]
pub(crate) fn count_coming<A: Allocator + Copy>(edit: &Edit<A>, test: &Test) -> usize
    ensures count { result ≡ come_count (passes test.now) edit.now }
    ensures few { result < 2 ^ 62 }
{
    count_placed(edit.put_members(), test)
        + (count_rows(edit.put_others(), test) + count_rows(edit.new(), test))
}

/// The number of rows that go and pass the test.
#[tactic(auto, using(desk_rows::proofs::Counts::two_counts, desk_rows::proofs::Counts::count_of_both))]
pub(crate) fn count_going<A: Allocator + Copy>(edit: &Edit<A>, test: &Test) -> usize
    ensures count { result ≡ go_count (passes test.now) edit.now }
    ensures few { result < 2 ^ 62 }
{
    count_placed(edit.taken_members(), test)
        + (count_rows(edit.taken_others(), test) + count_rows(edit.old(), test))
}

/// The member row with this key.
fn find_placed(placed: &[Placed], key: Key) -> Option<Row>
    ensures { result ≡ find (has_key key) (map (λ p. MemberRow p.row) placed.now) }
{
    match key {
        Key::Member(_) => placed
            .iter()
            .map(|one| Row::Member(one.row))
            .find(|row| row.has_key(key)),
        _ => None,
    }
}

/// The row with this key, a member or among two lists of other rows.
fn find_change(placed: &[Placed], rows: &[Row], more: &[Row], key: Key) -> Option<Row>
    requires rows { in_order rows.now ≡ true }
    requires more { in_order more.now ≡ true }
    ensures { result ≡ find (has_key key) (listed_rows placed.now rows.now more.now) }
{
    if let Some(row) = find_placed(placed, key) {
        return Some(row);
    }
    if let Some(row) = find_row(rows, key) {
        return Some(row);
    }
    find_row(more, key)
}
