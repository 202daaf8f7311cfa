//! Laws of all that the lanes send, whatever the order of calls and items, and of all that calls do.

ghost use Rattle.std.specs.Prelude.{◌≡◌, ℕ, ◌+◌, ◌%◌, ◌<◌, ◌≤◌, true, List, []};
ghost use Rattle.std.specs.Prelude.{◌∷◌, length, map, filter, fold, reverse, None, Some};
ghost use Rattle.std.specs.List.{AllByRecursion};
ghost use Rattle.desk_rows.specs.declared.row.Member.{Member};
ghost use Rattle.desk_rows.specs.Desk.{Desk, good};
ghost use Rattle.undo_log.specs.Timeline.{rewound};
ghost use Rattle.desk_calls.specs.Edits.{after, inverse};
ghost use Rattle.desk_calls.specs.Accepted.{after_calls, AreAccepted};
ghost use Rattle.desk_edit.specs.Asked.{CallOf};
ghost use Rattle.desk_edit.specs.Calls.{CallHistory, no_calls};
ghost use Rattle.topology.specs.declared.receivers.Receiver.{Receiver};
ghost use Rattle.topology.specs.Receivers.{receiver_on};
ghost use Rattle.topology.specs.Mixes.{mix_member};
ghost use Rattle.media_items.specs.Frame.{SourceFrame};
ghost use Rattle.forward_rewrite.specs.Mixes.{Sound};
ghost use Rattle.media_items.specs.OwnStreams.{is_mine};
ghost use Rattle.mixer.specs.Hearing.{voices_of, sound_for};
ghost use Rattle.mixer.specs.Mixes.{mixes};
ghost use Rattle.sender_feedback.specs.Upstream.{Asker};
ghost use Rattle.media_items.specs.Inputs.{Input, Request, Told, Loss};
ghost use Rattle.bridge_core.specs.Sent.{Sent};
ghost use Rattle.bridge_core.specs.Lanes.{packets, goes, routed_to, given_of, sends_at};
ghost use Rattle.bridge_core.specs.Steps.{Step, sends, sent_at, visits, visit_after, desk_of, CoreOf, HasTaken};
ghost use Rattle.desk_calls.specs.declared.reply.Reply.{Reply};
ghost use Rattle.bridge_core.specs.Following.{HasCalled};
ghost use Rattle.bridge_core.specs.UndoRuns.{AcceptsAll, UndoesInARow, RedoesInARow, IsAsWas, all_accepted};
ghost use Rattle.bridge_core.specs.Runs.{Runs};
ghost use Rattle.bridge_core.specs.EveryLane.{to_every};
ghost use Rattle.bridge_core.specs.Events.{Event, Plays, steps_of, calls_among};
ghost use Rattle.bridge_core.specs.WholeRuns.{IsAskedAgain, Holds};
ghost use Rattle.bridge_core.specs.Named.{Name, StreamKind, is_on, sent_on, firsts};
ghost use Rattle.bridge_core.specs.Headline.{AreGood, HaveNoGap, numbers, numbered_of, IsChosenOf};
ghost use Rattle.bridge_core.specs.Headline.{GoesWhole, IsMixOf, GoesOnce};
ghost use Rattle.bridge_core.specs.Telling.{IsSenderReportOf, IsNoteOf, IsPassedUpOf};

use forward_rewrite::{
    each_frame_goes_whole, found_is_what_was_sent, numbers_in_a_row, time_goes_on,
};
use mixer::{mixes_are_in_a_row, mixes_go_to_their_members, ticks_add_what_is_heard};
use topology::{all_who_chose_receive, mixes_are_apart, receivers_are_distinct};

/// Over any steps that cores take one by one, from a core that has taken nothing on: what is sent, joined in order, is
/// what `sends` gives for the whole list, and the last core has taken all of it.
pub fn all_that_is_sent()
    ensures { (start : Desk) (steps : List Step) (sent : List (List Sent)) (first last : CoreOf)
        → HasTaken first start [] → Runs first steps sent last
        → (sent ≡ sends first.ingress.asker (length first.lanes) start steps) × HasTaken last start steps }
{}

/// What is sent on a video stream for the first time, over all versions of the desk and however many
/// lanes there are, is its routed list: all packets of all frames that the items of its lane bring it.
pub fn streams_are_routed_lists()
    ensures { (who : Asker) (lanes : ℕ) (start : Desk) (steps : List Step) (ssrc : ℕ) → good start ≡ true
        → AreGood steps
        → firsts who lanes start (record { kind = StreamKind.video; ssrc = ssrc }) steps
        ≡ map (goes ssrc None) (packets ssrc (visits (ssrc % lanes) start steps)) }
{
    each_frame_goes_whole();
    receivers_are_distinct();
    all_who_chose_receive();
}

/// What is sent on a mix stream for the first time, over all versions of the desk and however many lanes
/// there are, is its mix list: the packets of all ticks of its lane.
pub fn mixes_are_mix_lists()
    ensures { (who : Asker) (lanes : ℕ) (start : Desk) (steps : List Step) (ssrc : ℕ) → good start ≡ true
        → AreGood steps
        → map numbered_of (firsts who lanes start (record { kind = StreamKind.mix; ssrc = ssrc }) steps)
        ≡ mixes ssrc (given_of (visits (ssrc % lanes) start steps)) }
{
    ticks_add_what_is_heard();
    mixes_go_to_their_members();
}

/// Each outgoing stream numbers its packets without a gap modulo 65536, over all versions of the
/// desk and however many lanes there are. What is sent again has the number that it had.
pub fn streams_have_no_gap()
    ensures { (who : Asker) (lanes : ℕ) (start : Desk) (steps : List Step) (name : Name) → good start ≡ true
        → AreGood steps → HaveNoGap (numbers (firsts who lanes start name steps)) }
{
    streams_are_routed_lists();
    numbers_in_a_row();
    mixes_are_mix_lists();
    mixes_are_in_a_row();
}

/// What is sent on a stream follows from the items of its lane and their desks alone: there may be any number of lanes,
/// and the other lanes may be given anything. So it is the same on any number of lanes that are all given every item.
pub fn lane_count_does_not_matter()
    ensures same_items { (who : Asker) (few many : ℕ) (start : Desk) (these those : List Step) (ssrc : ℕ)
        → visits (ssrc % few) start these ≡ visits (ssrc % many) start those
        → sent_on ssrc (sends who few start these) ≡ sent_on ssrc (sends who many start those) }
    ensures every_lane { (who : Asker) (few many : ℕ) (start : Desk) (steps : List Step) (ssrc : ℕ) → 0 < few → 0 < many
        → sent_on ssrc (sends who few start (to_every few steps))
        ≡ sent_on ssrc (sends who many start (to_every many steps)) }
{}

/// Each packet that is sent for a frame names the version and the item, and goes where the desk of
/// that version has it go: its stream chose the frame's source, and its slot's member has the address.
pub fn packets_are_chosen()
    ensures { (who : Asker) (lanes lane : ℕ) (start : Desk) (before : List Step) (f : SourceFrame)
        → good (desk_of start before) ≡ true
        → AllByRecursion (AllByRecursion (IsChosenOf (visit_after start before lane (Input.frame f)) f))
        (sent_at who lanes start before (Step.item lane (Input.frame f))) }
{
    each_frame_goes_whole();
    receivers_are_distinct();
    all_who_chose_receive();
}

/// All whose streams are the lane's and chose the frame's source at its address get all packets of
/// the frame, in order, with its payloads, markers and payload types.
pub fn frames_go_whole()
    ensures { (who : Asker) (lanes lane : ℕ) (start : Desk) (before : List Step) (f : SourceFrame) (ssrc : ℕ)
        (r : Receiver) → good (desk_of start before) ≡ true → is_mine lane lanes ssrc ≡ true
        → receiver_on (desk_of start before) f.source f.address ssrc ≡ Some r
        → (let visit = visit_after start before lane (Input.frame f) in
        GoesWhole ssrc (routed_to visit f r).sending
        (filter (is_on ssrc) (sends_at who lane lanes (visits lane start before) visit))) }
{
    each_frame_goes_whole();
    receivers_are_distinct();
    all_who_chose_receive();
}

/// Each packet that is sent at a tick names the version and the item, and goes where the desk of that version has it:
/// to the member whose mix its stream is, at its address. It carries what the member hears of all given before.
pub fn mixes_are_heard()
    ensures { (who : Asker) (lanes lane : ℕ) (start : Desk) (before : List Step) (moment : ℕ)
        → good (desk_of start before) ≡ true
        → AllByRecursion
        (AllByRecursion
        (IsMixOf (given_of (visits lane start before))
        (visit_after start before lane (Input.tick moment))))
        (sent_at who lanes start before (Step.item lane (Input.tick moment))) }
{
    ticks_add_what_is_heard();
    mixes_go_to_their_members();
    mixes_are_apart();
}

/// At a tick, each member who hears anything and whose mix is on a stream of the lane gets one packet of it.
pub fn all_who_hear_get_it()
    ensures { (who : Asker) (lanes lane : ℕ) (start : Desk) (before : List Step) (moment : ℕ) (m : Member)
        (sound : Sound) → good (desk_of start before) ≡ true → is_mine lane lanes m.out_audio ≡ true
        → mix_member (desk_of start before) m.out_audio ≡ Some m
        → sound_for (voices_of (given_of (visits lane start before)) (desk_of start before)) (desk_of start before) m
        ≡ Some sound
        → (let visit = visit_after start before lane (Input.tick moment) in
        GoesOnce visit m sound
        (filter (is_on m.out_audio) (sends_at who lane lanes (visits lane start before) visit))) }
{
    ticks_add_what_is_heard();
    mixes_go_to_their_members();
}

/// Each packet that is sent again has a number that was asked for. It is, octet for octet, one of the last 512 that
/// were sent on its stream. The member who asks is the one that it went to, at the address that it went to. It names
/// the version and the item by which it was sent first, and carries a packet of the frame that the lane was given then.
/// A NACK is answered in its stream's lane alone: by all such packets, each of them once.
pub fn resends_lead_back()
    ensures { (who : Asker) (lanes lane : ℕ) (start : Desk) (before : List Step) (request : Request)
        → good start ≡ true → AreGood before → IsAskedAgain who lanes start before lane request }
{
    streams_are_routed_lists();
    found_is_what_was_sent();
    time_goes_on();
}

/// At a report, sender reports alone are sent: to members of its version's desk, at their addresses, on their own
/// streams. Each counts all packets that were sent on its stream for the first time and their octets of payload, modulo
/// 2^32. Packets that were sent again don't count.
pub fn reports_count_first_sendings()
    ensures { (who : Asker) (lanes lane : ℕ) (start : Desk) (before : List Step) (moment : ℕ) → good start ≡ true
        → AreGood before
        → AllByRecursion
        (AllByRecursion
        (IsSenderReportOf who lanes start before (visit_after start before lane (Input.report moment))
        moment)) (sent_at who lanes start before (Step.item lane (Input.report moment))) }
{
    streams_are_routed_lists();
    mixes_are_mix_lists();
}

/// A note of a receiver's report block says its losses, and which source packet its highest number leads back to:
/// the one that went to this member at this address under that number, of the last 512 that were sent on the stream for
/// the first time. If it names no packet, there is none.
pub fn notes_lead_back()
    ensures { (who : Asker) (lanes lane : ℕ) (start : Desk) (before : List Step) (told : Told) → good start ≡ true
        → AreGood before
        → AllByRecursion
        (AllByRecursion
        (IsNoteOf who lanes start before lane (visit_after start before lane (Input.block told)) told))
        (sent_at who lanes start before (Step.item lane (Input.block told))) }
{
    streams_are_routed_lists();
    found_is_what_was_sent();
}

/// All that is sent for a receiver's picture loss is a PLI about the source that its slot chose, to the address of the
/// source's member. It is sent only if the slot's member reports the loss.
pub fn picture_losses_go_to_the_chosen()
    ensures { (who : Asker) (lanes lane : ℕ) (start : Desk) (before : List Step) (loss : Loss)
        → AllByRecursion (AllByRecursion (IsPassedUpOf who (visit_after start before lane (Input.pli loss)) loss))
        (sent_at who lanes start before (Step.item lane (Input.pli loss))) }
{}

/// The edits that are kept lead from the start to the desk of the command equations; taken back,
/// the last one first, they lead to the start again, whatever the commands removed.
pub fn edits_lead_back()
    ensures leads { (core : CoreOf) (h : CallHistory) → HasCalled core h → fold after h.start core.done ≡ core.desk }
    ensures back { (core : CoreOf) (h : CallHistory) → HasCalled core h
        → rewound after inverse core.desk (reverse core.done) ≡ h.start }
{
    desk_calls::edits_lead_back();
}

/// The calls among what cores take one by one are a legal list of calls, and the last core's desk is
/// where that list leads.
pub fn calls_are_legal()
    ensures { (first last : CoreOf) (h : CallHistory) (events : List Event) (sent : List (List Sent))
        → HasCalled first h → Plays first events sent last
        → AreAccepted h (calls_among events) × HasCalled last (after_calls h (calls_among events)) }
{}

/// Undos in a row, each of which names the last accepted call, are accepted as long as there is something to
/// undo and the log isn't full. So are redos, as long as there is something to redo.
pub fn undos_and_redos_are_accepted()
    ensures undos { (first last : CoreOf) (n : ℕ) (replies : List Reply) → n ≤ length first.done
        → UndoesInARow first n replies last → replies ≡ all_accepted first.version n }
    ensures redos { (first last : CoreOf) (n : ℕ) (replies : List Reply) → n ≤ length first.undone
        → RedoesInARow first n replies last → replies ≡ all_accepted first.version n }
{}

/// Commands, groups and reverts are accepted one after another, whatever was called before, and as many undos follow.
/// The undos are accepted while the log isn't full, and give back the desk before those calls, members at their places.
/// As many redos give back the desk after them.
pub fn commands_come_back()
    ensures back { (first middle last : CoreOf) (commands : List CallOf) (replies : List Reply)
        → AcceptsAll first commands middle → UndoesInARow middle (length commands) replies last
        → (replies ≡ all_accepted middle.version (length commands)) × (last.desk ≡ first.desk)
        × (last.done ≡ first.done) }
    ensures again { (first middle back last : CoreOf) (commands : List CallOf) (replies later : List Reply)
        → AcceptsAll first commands middle → UndoesInARow middle (length commands) replies back
        → RedoesInARow back (length commands) later last
        → (later ≡ all_accepted back.version (length commands)) × IsAsWas last middle }
{}

/// As many redos as undos give back what was there before the undos, whatever was called before. All are accepted
/// while the log isn't full.
pub fn undos_are_redone()
    ensures { (first back last : CoreOf) (n : ℕ) (replies later : List Reply) → n ≤ length first.done
        → UndoesInARow first n replies back → RedoesInARow back n later last
        → (later ≡ all_accepted back.version n) × IsAsWas last first }
{}

/// The headline. For a first desk, any list of accepted calls and items in any order, and any number of
/// lanes, as cores that take them one by one answer, and take in datagrams and report in between:
///
/// - accepted commands, groups and reverts, undone from their end, give back the desk before them, members at their
///   places;
/// - each packet is what the desk of the version that it names says: it chose the packet's source, who
///   gets it, and that all who chose it get the whole frame; and at a tick each member who hears anything
///   gets what it hears, which is what a mix packet carries;
/// - each stream numbers without a gap modulo 65536;
/// - a number asked for again leads back to just the packet that had it, for its owner alone. All packets that are owed
///   are sent again, each once, and no others;
/// - a sender report counts just what was sent on its stream for the first time, a note leads back to the packet that
///   the receiver had last, and a lost picture is asked for from the source that the slot chose;
/// - the number of lanes makes no difference to a stream.
pub fn the_headline()
    ensures undone { (first middle last : CoreOf) (commands : List CallOf) (replies : List Reply)
        → AcceptsAll first commands middle → UndoesInARow middle (length commands) replies last
        → (replies ≡ all_accepted middle.version (length commands)) × (last.desk ≡ first.desk)
        × (last.done ≡ first.done) }
    ensures holds { (start : Desk) (events : List Event) (sent : List (List Sent)) (first last : CoreOf)
        → good start ≡ true → HasTaken first start [] → HasCalled first (no_calls start) → Plays first events sent last
        → Holds first.ingress.asker (length first.lanes) start (steps_of (no_calls start) events) sent }
    ensures lanes { (who : Asker) (few many : ℕ) (start : Desk) (events : List Event) (ssrc : ℕ) → 0 < few → 0 < many
        → (let steps = steps_of (no_calls start) events in
        sent_on ssrc (sends who few start (to_every few steps))
        ≡ sent_on ssrc (sends who many start (to_every many steps))) }
{
    commands_come_back();
    streams_are_routed_lists();
    streams_have_no_gap();
    mixes_are_mix_lists();
    packets_are_chosen();
    frames_go_whole();
    mixes_are_heard();
    all_who_hear_get_it();
    resends_lead_back();
    notes_lead_back();
    picture_losses_go_to_the_chosen();
    reports_count_first_sendings();
    lane_count_does_not_matter();
}
