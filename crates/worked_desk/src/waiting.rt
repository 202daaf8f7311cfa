//! What waits for nobody: a function without a handle calls it.

ghost use Rattle.std.specs.Prelude.{◌≡◌, true, None, IfOk};
ghost use Rattle.undo_log.specs.Timeline.{all_fit};
ghost use Rattle.desk_rows.specs.Exchange.{fits, after};
ghost use Rattle.published_desk.specs.Published.{after_lists};
ghost use mathlib.Core.List.{IsPrefix};

use desk_rows::{Edit, Kind};
use published_desk::{LaneReader, Publisher};
use undo_log::Edits;

/// Stages a list, tells, learns, enters and leaves.
pub fn waits_for_nobody(
    publisher: &mut Publisher,
    reader: LaneReader,
    edits: Edits<Edit>,
) -> Result<(usize, LaneReader), LaneReader>
    requires none { publisher.old.staged ≡ None }
    requires fit { all_fit fits after (after_lists publisher.old.start publisher.old.lists) edits ≡ true }
    requires publisher { publisher.old.publisher ≡ reader.publisher }
    ensures { IfOk result (λ r. IsPrefix publisher.old.lists r.1.lists) }
{
    let mut reader = reader;
    let _staged = publisher.stage(edits);
    reader.learn(publisher.tell());
    let entered = reader.enter()?;
    let members = entered.rows().count(Kind::Member);
    Ok((members, entered.leave()))
}
