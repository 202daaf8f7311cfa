//! Laws of a bridge whose lanes have ended.

ghost use Rattle.std.specs.Prelude.{◌≡◌, ℕ, ◌<◌, ◌++◌, List, Some, length, take, slice_get};
ghost use Rattle.desk_rows.specs.Desk.{Desk};
ghost use Rattle.desk_rows.specs.Edit.{EditOf};
ghost use Rattle.desk_edit.specs.Asked.{CallOf};
ghost use Rattle.desk_edit.specs.Calls.{no_calls};
ghost use Rattle.published_desk.specs.Published.{after_lists};
ghost use Rattle.bridge_core.specs.Steps.{sends};
ghost use Rattle.bridge_core.specs.Events.{steps_of};
ghost use Rattle.bridge_core.specs.Named.{sent_on};
ghost use Rattle.bridge_core.specs.EveryLane.{to_every};
ghost use Rattle.operator_desk.specs.Entry.{EntryOf};
ghost use Rattle.operator_desk.specs.LegalLogs.{calls_of, after_log};
ghost use Rattle.media_workers.specs.LaneRuns.{Versioned};
ghost use Rattle.media_workers.specs.Ports.{PortOf};
ghost use Rattle.media_workers.specs.Bridges.{EndsAs, AllEnded};
ghost use Rattle.media_workers.specs.declared.lane_end.LaneEnd.{LaneEnd as End};
ghost use Rattle.lane_laws.specs.Undone.{HaveCommands, with_undos};
ghost use Rattle.lane_laws.specs.Learnt.{HasNotice, AllSeen, HaveKnown, EndedAfter, handled, merged};
ghost use Rattle.lane_laws.specs.OneList.{AreShares, IsOneList, SendByVersions, sent_by};
ghost use Rattle.lane_laws.specs.Replays.{ToldAfter, IsReplayed, by_told};

use crate::laws::{
    calls_keep_their_order, lanes_send_by_one_list, legal_lists_hold, one_lane_sends_it_alone,
    packets_go_by_their_versions, undos_give_the_desk_back,
};
use bridge_core::lane_count_does_not_matter;
use media_workers::{Pace, PublisherName, Sink};

/// A lane that handled as many items as were accepted for it learnt each notice that came with them.
pub fn lanes_learn_what_they_handled<N: PublisherName, P: Pace, S: Sink>()
    ensures { (port : PortOf P S) (end : End N S) (ended : EndsAs P.answers S.taken port end)
        (lists : List (List EditOf)) → HasNotice lists port.accepted → end.handled ≡ length port.accepted →
        HasNotice lists ended.ran.done }
{}

/// If what each lane's reader knew at the end is a beginning of some lists, so is what each of its entries saw.
pub fn lanes_saw_what_they_know<N: PublisherName, P: Pace, S: Sink>()
    ensures { (ports : List (PortOf P S)) (ends : List (End N S)) (ended : AllEnded P.answers S.taken ports ends)
        (lists : List (List EditOf)) → HaveKnown lists ends → AllSeen lists P.answers S.taken ports ends ended }
{}

/// If what each lane's entries saw are beginnings of what was published, one list of the calls that were published and
/// of the items that the lanes handled gives all that each lane sent.
pub fn lanes_send_their_shares<N: PublisherName, P: Pace, S: Sink>()
    ensures { (start : Desk) (log : List EntryOf) (ports : List (PortOf P S)) (ends : List (End N S)) →
        (h : EndedAfter P.answers S.taken start log ports ends) →
        (let steps = steps_of (no_calls start) (merged h) in
        AreShares steps (sends (h.new).0 (length ports) start steps) (sent_by S.taken ends)) }
{
    lanes_send_by_one_list();
}

/// The headline of a running bridge. If what each lane's entries saw are beginnings of what was published, the calls of
/// the log and the items that the lanes handled are one list. [`none_knew_more`](crate::none_knew_more) shows that they
/// are, for any bridge whose desk has ended.
///
/// - if the log ends with commands and as many undos of them, the rows that are published last are those before the
///   commands, members at their places;
/// - each lane sent its share of what is sent over this list, and nothing else;
/// - the headline's clauses on packets hold of all that is sent over it: each packet is what the desk of its version
///   says, each stream numbers without a gap, and what is asked for again leads back;
/// - each packet that a lane sent goes where the desk of its version has it go;
/// - had any other number of lanes been given all of it, each stream would send the same as on one lane.
pub fn the_running_headline<N: PublisherName, P: Pace, S: Sink>()
    ensures undone { (start : Desk) (log : List EntryOf) (ports : List (PortOf P S)) (ends : List (End N S)) →
        (h : EndedAfter P.answers S.taken start log ports ends) (before rest : List EntryOf) (commands : List CallOf) →
        log ≡ before ++ rest → calls_of rest ≡ with_undos (after_log start before) commands → HaveCommands commands →
        after_lists start h.lists ≡ after_lists start (take (length before) h.lists) }
    ensures holds { (start : Desk) (log : List EntryOf) (ports : List (PortOf P S)) (ends : List (End N S)) →
        (h : EndedAfter P.answers S.taken start log ports ends) →
        IsOneList (h.new).0 (length ports) start (calls_of log) (sent_by S.taken ends) (merged h) }
    ensures sent { (start : Desk) (log : List EntryOf) (ports : List (PortOf P S)) (ends : List (End N S)) →
        EndedAfter P.answers S.taken start log ports ends → SendByVersions start (calls_of log) (sent_by S.taken ends) }
    ensures lanes { (start : Desk) (log : List EntryOf) (ports : List (PortOf P S)) (ends : List (End N S)) →
        (h : EndedAfter P.answers S.taken start log ports ends) (few many ssrc : ℕ) → 0 < few → 0 < many →
        (let steps = steps_of (no_calls start) (merged h) in
        sent_on ssrc (sends (h.new).0 few start (to_every few steps))
        ≡ sent_on ssrc (sends (h.new).0 many start (to_every many steps))) }
{
    undos_give_the_desk_back();
    calls_keep_their_order();
    lanes_send_their_shares::<N, P, S>();
    legal_lists_hold();
    packets_go_by_their_versions();
    lane_count_does_not_matter();
}

/// What a lane's sink was told replays the lane.
///
/// If what each lane's entries saw are beginnings of what was published, take the calls of the log and the items that
/// the sink was told of, each by its version. For these a bridge of one lane sends all that the lane sent: the same
/// packets, compounds and notes, by the same versions and item numbers, in the same order. Whatever else it sends is
/// about streams of other lanes.
///
/// The items are those of the lane in the one list of [`the_running_headline`].
pub fn a_lane_is_replayed<N: PublisherName, P: Pace, S: Sink>()
    ensures { (start : Desk) (log : List EntryOf) (ports : List (PortOf P S)) (ends : List (End N S)) →
        (h : ToldAfter P.answers S.taken S.heard start log ports ends) →
        (place : ℕ) (port : PortOf P S) (end : End N S) →
        slice_get ports place ≡ Some port → slice_get ends place ≡ Some end →
        (items : List Versioned)
        × (slice_get (handled P.answers S.taken ports ends (by_told h).ended) place ≡ Some items)
        × IsReplayed S.taken S.heard (h.after.new).0 (length ports) place start (calls_of log) port.sink end items }
{
    one_lane_sends_it_alone();
}
