//! What a reader knows of versions.

ghost use Rattle.std.specs.Prelude.{◌≡◌, ◌<◌, length, IfOk};
ghost use mathlib.Core.List.{IsPrefix};

use published_desk::{Entered, LaneReader, Notice};

/// A notice of a later version.
pub fn learns_of_a_later_version(reader: &mut LaneReader, notice: Notice)
    requires publisher { notice.publisher ≡ reader.old.publisher }
    requires later { length reader.old.lists < length notice.lists }
    ensures { reader.new.lists ≡ notice.lists }
{
    reader.learn(notice);
}

/// A notice of an earlier version takes nothing away.
pub fn keeps_what_it_knows(reader: &mut LaneReader, notice: Notice)
    requires publisher { notice.publisher ≡ reader.old.publisher }
    requires earlier { length notice.lists < length reader.old.lists }
    ensures { reader.new.lists ≡ reader.old.lists }
{
    reader.learn(notice);
}

/// An entry after a notice is at its version or at a later one.
pub fn enters_what_it_was_told(reader: LaneReader, notice: Notice) -> Result<Entered, LaneReader>
    requires publisher { notice.publisher ≡ reader.publisher }
    ensures { IfOk result (λ e. IsPrefix notice.lists e.lists) }
{
    let mut reader = reader;
    reader.learn(notice);
    reader.enter()
}
