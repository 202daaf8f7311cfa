//! Two entries of one reader.

ghost use Rattle.std.specs.Prelude.{◌≡◌, ◌≤◌, length, take, IfOk};
ghost use Rattle.desk_rows.specs.Desk.{count_of};
ghost use Rattle.published_desk.specs.Published.{after_lists};

use crate::lane::{Seen, handle, handle_told};
use desk_rows::Kind;
use published_desk::{LaneReader, Notice};

/// Enters, learns a notice, and enters again: the second version is neither below the first nor below the notice's,
/// and the first one is the desk after the first lists of the second.
pub fn enters_twice(
    reader: LaneReader,
    notice: Notice,
    kind: Kind,
) -> Result<(Seen, Seen, LaneReader), LaneReader>
    requires publisher { notice.publisher ≡ reader.publisher }
    ensures later { IfOk result (λ r. r.0.version ≤ r.1.version) }
    ensures told { IfOk result (λ r. length notice.lists ≤ r.1.version) }
    ensures first { IfOk result (λ r.
        r.0.rows ≡ count_of kind (after_lists reader.start (take r.0.version r.2.lists))) }
    ensures second { IfOk result (λ r. r.1.rows ≡ count_of kind (after_lists reader.start r.2.lists)) }
{
    let one = handle(reader, kind)?;
    let other = handle_told(one.1, notice, kind)?;
    Ok((one.0, other.0, other.1))
}
