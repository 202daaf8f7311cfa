//! A law of a bridge whose lanes have ended, and of its trace.

ghost use Rattle.std.specs.Prelude.{◌≡◌, ℕ, List, Some, length, slice_get};
ghost use Rattle.sender_feedback.specs.Upstream.{Asker};
ghost use Rattle.operator_desk.specs.Entry.{EntryOf};
ghost use Rattle.operator_desk.specs.PastCalls.{made_of};
ghost use Rattle.media_workers.specs.LaneRuns.{Versioned};
ghost use Rattle.media_workers.specs.Ports.{PortOf};
ghost use Rattle.media_workers.specs.declared.lane_end.LaneEnd.{LaneEnd as End};
ghost use Rattle.lane_laws.specs.Learnt.{handled};
ghost use Rattle.lane_laws.specs.Replays.{ToldAfter, by_told};
ghost use Rattle.script_text.specs.Bridge.{first_desk};
ghost use Rattle.trace_laws.specs.Traces.{IsWritten, AreToldCalls};
ghost use Rattle.trace_laws.specs.Replayed.{IsReplayedByText};

use crate::laws::a_trace_sends_what_its_lane_sent;
use lane_laws::a_lane_is_replayed;
use media_workers::{Pace, PublisherName, Sink};

/// A lane's part of a trace replays the lane.
///
/// If what each lane's entries saw are beginnings of what was published, take the text of the calls of the log and of
/// the items that the lane's sink was told of. As a script it sends all that the lane sent: the same packets, compounds
/// and notes, by the same versions and item numbers, in the same order. Whatever else it sends is about streams of
/// other lanes.
///
/// The items are those of the lane in the one list of
/// [`the_running_headline`](lane_laws::the_running_headline).
pub fn a_trace_replays_its_lane<N: PublisherName, P: Pace, S: Sink>()
    ensures { (who : Asker) (log : List EntryOf) (ports : List (PortOf P S)) (ends : List (End N S)) →
        (h : ToldAfter P.answers S.taken S.heard (first_desk who) log ports ends) → (h.after.new).0 ≡ who →
        IsWritten who → AreToldCalls (made_of log) → (place : ℕ) (port : PortOf P S) (end : End N S) →
        slice_get ports place ≡ Some port → slice_get ends place ≡ Some end →
        (items : List Versioned)
        × (slice_get (handled P.answers S.taken ports ends (by_told h).ended) place ≡ Some items)
        × IsReplayedByText S.taken S.heard who (length ports) place log port.sink end items }
{
    a_lane_is_replayed::<N, P, S>();
    a_trace_sends_what_its_lane_sent();
}
