//! The levels of sources of sound.

ghost use Rattle.std.specs.Prelude.{◌≡◌, ◌+◌, ◌<◌, ◌++◌, length, OnOk, OnErr, vec_len, vec_capacity};
ghost use Rattle.std.specs.List.{flat_map};
ghost use Rattle.bridge_stats.specs.Levels.{is_told, level_line, level_text, levels_text};
ghost use Rattle.bridge_stats.specs.inner.Growing.{buffer_of, Grows};

use crate::appending::{LineField, append, append_line};
use crate::rows::{SourceRow, sender_address};
use crate::shown::StatsShown;
use std::alloc::{AllocError, Allocator};

/// A level is told of a source for less than so many milliseconds after its last datagram.
const RECENT_MS: u64 = 1_000;

/// Whether the level of a source is told.
fn is_told(row: &SourceRow) -> bool
    ensures { result ≡ is_told row.now }
{
    row.numbers.samples > 0 && row.ago < RECENT_MS
}

/// Appends the line of a source's level.
fn append_line_of<A: Allocator>(row: &SourceRow, out: &mut Vec<u8, A>) -> Result<(), AllocError>
    ensures { Grows (buffer_of out.old) (buffer_of out.new) (level_line row.now) result }
{
    let fields = [
        LineField::Place(sender_address(&row.sender)),
        LineField::Number(u64::from(row.sender.ssrc)),
        LineField::Number(row.numbers.samples),
        LineField::Number(row.numbers.energy),
    ];
    append_line(b"level", &fields, out)
}

/// Appends the line of a source's level, if that is told.
fn append_level<A: Allocator>(row: &SourceRow, out: &mut Vec<u8, A>) -> Result<(), AllocError>
    ensures { Grows (buffer_of out.old) (buffer_of out.new) (level_text row.now) result }
{
    if is_told(row) {
        append_line_of(row, out)
    } else {
        append(b"", out)
    }
}

/// Appends the lines of the levels that are told.
fn append_levels<A: Allocator>(rows: &[SourceRow], out: &mut Vec<u8, A>) -> Result<(), AllocError>
    ensures { Grows (buffer_of out.old) (buffer_of out.new) (flat_map level_text rows.now) result }
{
    for row in rows {
        append_level(row, out)?;
    }
    Ok(())
}

/// Appends the lines of the levels that are told, and last `end`.
fn append_all_levels<A: Allocator>(
    shown: &StatsShown,
    out: &mut Vec<u8, A>,
) -> Result<(), AllocError>
    ensures { Grows (buffer_of out.old) (buffer_of out.new) (levels_text shown.now) result }
{
    append_levels(&shown.sources, out)?;
    append(b"end\n", out)
}

/// Appends a line for each source of sound of which a datagram has come in the last second, the latest first, and last
/// `end`. On out of memory, the only error, nothing changes.
pub fn print_levels<A: Allocator>(
    shown: &StatsShown,
    out: &mut Vec<u8, A>,
) -> Result<(), AllocError>
    ensures ok { OnOk result (out.new.items ≡ out.old.items ++ levels_text shown.now) }
    ensures err { OnErr result (out.new.items ≡ out.old.items) }
    ensures full { OnErr result (vec_capacity out.old < vec_len out.old + length (levels_text shown.now)) }
{
    let before = out.len();
    let answer = append_all_levels(shown, out);
    if answer.is_err() {
        out.truncate(before);
    }
    answer
}
