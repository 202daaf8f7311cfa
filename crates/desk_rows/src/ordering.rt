//! Rows in the order of kinds and keys, found by binary search.

ghost use Rattle.std.specs.Prelude.{◌≡◌, true, filter, take};
ghost use Rattle.std.specs.List.{find, list_all};
ghost use Rattle.desk_rows.specs.Row.{has_key};
ghost use Rattle.desk_rows.specs.Kinds.{is_of};
ghost use Rattle.desk_rows.specs.Naming.{is_gain_of};
ghost use Rattle.desk_rows.specs.Order.{precedes, in_order, is_in};

use crate::key::{Key, Kind};
use crate::row::Row;

/// Whether the row stands before the first of these, if there is one.
pub(crate) fn precedes_first(row: &Row, rows: &[Row]) -> bool
    ensures { result ≡ list_all (precedes row.now) (take 1 rows.now) }
{
    match rows.first() {
        None => true,
        Some(first) => row.precedes(first),
    }
}

/// Whether the rows are in the order of kinds and keys.
pub fn are_in_order(rows: &[Row]) -> bool
    ensures { result ≡ in_order rows.now }
{
    let mut rest = rows;
    while let Some((row, later)) = rest.split_first() {
        if !precedes_first(row, later) {
            return false;
        }
        rest = later;
    }
    true
}

/// The row of this key, by binary search. The rows are in the order of kinds and keys.
pub fn find_row(rows: &[Row], key: Key) -> Option<Row>
    requires { in_order rows.now ≡ true }
    ensures { result ≡ find (has_key key) rows.now }
{
    let place = rows.partition_point(|row| row.key().precedes(key));
    if place >= rows.len() {
        return None;
    }
    let row = rows[place];
    if row.has_key(key) { Some(row) } else { None }
}

/// The rows of this kind.
pub(crate) fn rows_of_kind(rows: &[Row], kind: Kind) -> &[Row]
    requires { in_order rows.now ≡ true }
    ensures { result.now ≡ filter (is_of kind) rows.now }
{
    let before = rows.partition_point(|row| row.key().kind().rank() < kind.rank());
    let (_, from) = rows.split_at(before);
    let count = from.partition_point(|row| row.key().kind().rank() <= kind.rank());
    let (these, _) = from.split_at(count);
    these
}

/// Whether the row is a gain of this member.
fn is_gain_of(row: &Row, member: u32) -> bool
    ensures { result ≡ is_gain_of member row.now }
{
    match row {
        Row::Gain(gain) => gain.member == member,
        _ => false,
    }
}

/// The gains of this member.
pub(crate) fn gains_of(rows: &[Row], member: u32) -> &[Row]
    requires { in_order rows.now ≡ true }
    ensures { result.now ≡ filter (is_gain_of member) rows.now }
{
    let least = Key::Gain { member, source: 0 };
    let before = rows.partition_point(|row| row.key().precedes(least));
    let (_, from) = rows.split_at(before);
    let count = from.partition_point(|row| is_gain_of(row, member));
    let (these, _) = from.split_at(count);
    these
}

/// Whether this very row is among the rows, by binary search. The rows are in the order of kinds and keys.
#[tactic(auto, using(crate::proofs::Halving::among_none, crate::proofs::Halving::among_found))]
pub fn contains(rows: &[Row], row: &Row) -> bool
    requires { in_order rows.now ≡ true }
    ensures { result ≡ is_in rows.now row.now }
{
    match find_row(rows, row.key()) {
        None => false,
        Some(other) => row.is_same(&other),
    }
}
