//! Compares lists of rows that are in the order of kinds and keys.

ghost use Rattle.std.specs.Prelude.{◌≡◌, true, ◌&&◌};
ghost use Rattle.std.specs.List.{list_all};
ghost use Rattle.desk_rows.specs.Order.{in_order, key_is_new, are_apart, have_same_keys, is_in};

use desk_rows::{Row, are_in_order, contains};

/// Whether no row has this row's key.
fn is_new(row: &Row, rows: &[Row]) -> bool
    ensures { result ≡ key_is_new row.now rows.now }
{
    rows.iter()
        .all(|other| row.precedes(other) || other.precedes(row))
}

/// Whether no key of these rows is among the others.
fn all_new(rows: &[Row], others: &[Row]) -> bool
    ensures { result ≡ list_all (λ r. key_is_new r others.now) rows.now }
{
    rows.iter().all(|row| is_new(row, others))
}

/// Whether both lists are in order and have no key in common.
pub(crate) fn are_apart(rows: &[Row], others: &[Row]) -> bool
    ensures { result ≡ are_apart rows.now others.now }
{
    (are_in_order(rows) && are_in_order(others)) && all_new(others, rows)
}

/// Whether the rows at each place of both lists have one key.
pub(crate) fn have_same_keys(rows: &[Row], others: &[Row]) -> bool
    ensures { result ≡ have_same_keys rows.now others.now }
{
    let mut left = others;
    let mut rest = rows;
    while let Some((row, later)) = rest.split_first() {
        match left.split_first() {
            None => return false,
            Some((other, behind)) => {
                if !row.key().is_same(other.key()) {
                    return false;
                }
                left = behind;
            }
        }
        rest = later;
    }
    left.is_empty()
}

/// Whether each of these rows is among the others.
pub(crate) fn contains_all(others: &[Row], rows: &[Row]) -> bool
    requires { in_order others.now ≡ true }
    ensures { result ≡ list_all (is_in others.now) rows.now }
{
    rows.iter().all(|row| contains(others, row))
}
