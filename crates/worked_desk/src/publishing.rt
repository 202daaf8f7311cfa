//! What a publisher has published.

ghost use Rattle.std.specs.Prelude.{◌≡◌, ◌∷◌, [], true, None, IfSome, IfNone};
ghost use Rattle.undo_log.specs.Timeline.{all_fit};
ghost use Rattle.desk_rows.specs.Exchange.{fits, after};
ghost use Rattle.published_desk.specs.Published.{after_list, after_lists};

use desk_rows::Edit;
use published_desk::{Notice, Publisher};
use std::sync::Wait;
use undo_log::Edits;

/// The first list is version 1. A publisher that has ended adds none.
pub fn publishes_version_1<R: Wait>(
    rt: &R,
    publisher: &mut Publisher,
    edits: Edits<Edit>,
) -> Option<u64>
    requires none { publisher.old.staged ≡ None }
    requires lists { publisher.old.lists ≡ [] }
    requires fit { all_fit fits after publisher.old.start edits ≡ true }
    ensures lists { IfSome result (λ version. publisher.new.lists ≡ edits ∷ []) }
    ensures version { IfSome result (λ version. version ≡ 1) }
    ensures ended { IfNone result (publisher.new.lists ≡ []) }
    ensures same { (publisher.new.publisher ≡ publisher.old.publisher) × (publisher.new.start ≡ publisher.old.start) }
    ensures none { publisher.new.staged ≡ None }
{
    let _staged = publisher.stage(edits);
    publisher.publish(rt)
}

/// Lists stand in the order in which they are published.
pub fn publishes_two<R: Wait>(
    rt: &R,
    publisher: &mut Publisher,
    first: Edits<Edit>,
    second: Edits<Edit>,
) -> Option<Notice>
    requires none { publisher.old.staged ≡ None }
    requires lists { publisher.old.lists ≡ [] }
    requires first { all_fit fits after publisher.old.start first ≡ true }
    requires second { all_fit fits after (after_list publisher.old.start first) second ≡ true }
    ensures told { IfSome result (λ notice. notice.lists ≡ first ∷ second ∷ []) }
    ensures publisher { IfSome result (λ notice. notice.publisher ≡ publisher.old.publisher) }
    ensures start { publisher.new.start ≡ publisher.old.start }
{
    publishes_version_1(rt, publisher, first)?;
    let _staged = publisher.stage(second);
    publisher.publish(rt)?;
    Some(publisher.tell())
}

/// A list that is staged isn't published yet, and it isn't handed back.
pub fn stages(publisher: &mut Publisher, edits: Edits<Edit>) -> bool
    requires none { publisher.old.staged ≡ None }
    requires fit { all_fit fits after (after_lists publisher.old.start publisher.old.lists) edits ≡ true }
    ensures taken { result ≡ true }
    ensures lists { publisher.new.lists ≡ publisher.old.lists }
{
    publisher.stage(edits).is_ok()
}
