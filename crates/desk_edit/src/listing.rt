//! Lists of the rows that go, and questions to them.

ghost use Rattle.std.specs.Prelude.{◌≡◌, filter, IfOk};
ghost use Rattle.std.specs.List.{list_any};
ghost use Rattle.desk_rows.specs.Row.{has_key};
ghost use Rattle.desk_edit.specs.Depends.{goes_within};
ghost use Rattle.desk_edit.specs.inner.Levels.{found_list, is_sound};

use crate::editing::one_row;
use crate::going::Going;
use desk_rows::{Key, Media, Row};
use std::alloc::{AllocError, Allocator};

/// The row that was found, as a list.
pub(crate) fn found_alone<A: Allocator>(
    alloc: A,
    found: Option<Row>,
) -> Result<Vec<Row, A>, AllocError>
    ensures { IfOk result (λ v. v.items ≡ found_list found) }
{
    match found {
        None => Ok(Vec::new(alloc)),
        Some(row) => one_row(alloc, row),
    }
}

/// The rows among these that go, of kinds that name members at most.
pub(crate) fn going_by_members<A: Allocator + Copy>(
    alloc: A,
    going: &Going<'_, A>,
    others: &[Row],
) -> Result<Vec<Row, A>, AllocError>
    ensures { IfOk result (λ v. v.items ≡ filter (goes_within 2 going.now.rows.now going.now.key) others.now) }
{
    others
        .iter()
        .filter(|row| going.goes_by_member(row))
        .copied()
        .collect(alloc)
}

fn is_source(row: &Row, ssrc: u32) -> bool
    ensures { result ≡ has_key (Key.Source ssrc) row.now }
{
    match row {
        Row::Source(source) => source.ssrc == ssrc,
        _ => false,
    }
}

/// Whether the source of this SSRC is among them.
pub(crate) fn any_source(rows: &[Row], ssrc: u32) -> bool
    ensures { result ≡ list_any (has_key (Key.Source ssrc)) rows.now }
{
    rows.iter().any(|row| is_source(row, ssrc))
}

/// Whether the row is a source of audio.
fn is_sound(row: &Row) -> bool
    ensures { result ≡ is_sound row.now }
{
    match row {
        Row::Source(source) => source.media.is_same(Media::Audio),
        _ => false,
    }
}

/// Whether a source of audio is among them.
pub(crate) fn any_sound(rows: &[Row]) -> bool
    ensures { result ≡ list_any is_sound rows.now }
{
    rows.iter().any(|row| is_sound(row))
}
