//! A lane, which enters once for each item.

ghost use Rattle.std.specs.Prelude.{◌≡◌, ◌≤◌, length, IfOk, IfErr};
ghost use mathlib.Core.List.{IsPrefix};
ghost use Rattle.desk_rows.specs.Desk.{count_of};
ghost use Rattle.published_desk.specs.Published.{after_lists};

use desk_rows::Kind;
use published_desk::{LaneReader, Notice};

/// What an item saw: a version of the desk, and how many rows of a kind there are at it.
#[derive(Clone, Copy)]
pub struct Seen {
    /// The version of the desk.
    pub version: u64,
    /// How many rows of the kind it has.
    pub rows: usize,
}

/// Handles an item. Its version and its rows are of one entry.
pub fn handle(reader: LaneReader, kind: Kind) -> Result<(Seen, LaneReader), LaneReader>
    ensures same { IfOk result (λ r. (r.1.publisher ≡ reader.publisher) × (r.1.start ≡ reader.start)) }
    ensures later { IfOk result (λ r. IsPrefix reader.lists r.1.lists) }
    ensures version { IfOk result (λ r. r.0.version ≡ length r.1.lists) }
    ensures rows { IfOk result (λ r. r.0.rows ≡ count_of kind (after_lists reader.start r.1.lists)) }
    ensures back { IfErr result (λ back. back ≡ reader) }
{
    let entered = reader.enter()?;
    let version = entered.version();
    let rows = entered.rows().count(kind);
    Ok((Seen { version, rows }, entered.leave()))
}

/// Handles an item that came with a notice.
pub fn handle_told(
    reader: LaneReader,
    notice: Notice,
    kind: Kind,
) -> Result<(Seen, LaneReader), LaneReader>
    requires publisher { notice.publisher ≡ reader.publisher }
    ensures later { IfOk result (λ r. IsPrefix reader.lists r.1.lists) }
    ensures told { IfOk result (λ r. IsPrefix notice.lists r.1.lists) }
    ensures version { IfOk result (λ r. r.0.version ≡ length r.1.lists) }
    ensures rows { IfOk result (λ r. r.0.rows ≡ count_of kind (after_lists reader.start r.1.lists)) }
{
    let mut reader = reader;
    reader.learn(notice);
    let (seen, reader) = handle(reader, kind)?;
    Ok((seen, reader))
}
