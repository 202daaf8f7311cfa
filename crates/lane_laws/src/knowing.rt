//! Whether a notice has all that lanes knew when they ended.

ghost use Rattle.std.specs.Prelude.{◌<◌, length};
ghost use Rattle.std.specs.Bool.{OnTrue, OnFalse};
ghost use mathlib.Core.List.{IsPrefix};
ghost use Rattle.std.specs.Prelude.{◌≡◌};
ghost use Rattle.lane_laws.specs.Learnt.{HaveKnown, HaveEnded};

use media_workers::{LaneEnd, Pace, PublisherName, Sink};
use published_desk::Notice;

/// Whether no lane knew of a later version than this notice when it ended. If so, what each lane knew is a beginning of
/// the notice's lists.
///
/// A notice of the desk's last version always has all that the lanes knew.
// A reader may see a version before its notice comes, so only this comparison shows that no lane acted by a version
// that was never told of. All notices of one publisher are beginnings of one list: the shorter is a beginning of the
// longer.
pub fn none_knew_more<N: PublisherName, P: Pace, S: Sink>(
    ends: &Vec<LaneEnd<N, S>>,
    last: &Notice,
) -> bool
    requires ended { HaveEnded P.answers S.taken last.now.publisher ends.now.items }
    ensures known { OnTrue result (HaveKnown last.now.lists ends.now.items) }
    ensures more { OnFalse result (¬ HaveKnown last.now.lists ends.now.items) }
{
    for at in 0..ends.len() {
        if !knew_no_more(&ends[at], last) {
            return false;
        }
    }
    true
}

/// The same of one lane.
fn knew_no_more<N: PublisherName, S: Sink>(end: &LaneEnd<N, S>, last: &Notice) -> bool
    requires publisher { end.now.known.publisher ≡ last.now.publisher }
    ensures known { OnTrue result (IsPrefix end.now.known.lists last.now.lists) }
    ensures more { OnFalse result (length last.now.lists < length end.now.known.lists) }
{
    if last.version() < end.known.version() {
        return false;
    }
    last.agrees(&end.known);
    true
}
