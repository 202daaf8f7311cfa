//! What is sent for one item, by the laws of all that is sent.

ghost use Rattle.std.specs.Prelude.{◌≡◌, ◌<◌, ℕ, true, List, length, map, filter, Some, IfOk};
ghost use Rattle.std.specs.List.{AllByRecursion, Contains};
ghost use Rattle.desk_rows.specs.declared.row.Member.{Member};
ghost use Rattle.desk_rows.specs.Desk.{Desk, good};
ghost use Rattle.retransmit.specs.SentPacket.{SentPacket};
ghost use Rattle.topology.specs.declared.receivers.Receiver.{Receiver};
ghost use Rattle.topology.specs.Receivers.{receiver_on};
ghost use Rattle.topology.specs.Mixes.{mix_member};
ghost use Rattle.media_items.specs.Frame.{SourceFrame};
ghost use Rattle.forward_rewrite.specs.Mixes.{Sound};
ghost use Rattle.media_items.specs.OwnStreams.{is_mine};
ghost use Rattle.mixer.specs.Hearing.{sound_for, voices_of};
ghost use Rattle.media_items.specs.Inputs.{Input, Request, Told, Loss, input_of, is_sized};
ghost use Rattle.bridge_core.specs.Sent.{sent_of};
ghost use Rattle.bridge_core.specs.Lanes.{given_of, goes, routed_to};
ghost use Rattle.bridge_core.specs.Steps.{Step, HasTaken, desk_of, visit_after, visits};
ghost use Rattle.bridge_core.specs.Named.{is_on};
ghost use Rattle.bridge_core.specs.Headline.{AreGood, IsChosenOf, GoesWhole, IsMixOf, GoesOnce, IsOwed, LeadsBack};
ghost use Rattle.bridge_core.specs.Telling.{IsSenderReportOf, IsNoteOf, IsPassedUpOf};

use bridge_core::{
    Core, Egress, Item, LaneFault, all_who_hear_get_it, frames_go_whole, mixes_are_heard,
    notes_lead_back, packets_are_chosen, picture_losses_go_to_the_chosen,
    reports_count_first_sendings, resends_lead_back,
};
use std::alloc::Global;

/// A frame goes out as the desk chose it, and whole.
pub fn a_frame_goes_to_the_chosen(
    alloc: Global,
    core: &mut Core,
    lane: u32,
    item: &Item,
) -> Result<Vec<Egress>, LaneFault>
    requires lane { lane < length core.old.lanes }
    requires sized { is_sized (input_of item.now) ≡ true }
    ensures chosen { IfOk result (λ sent. (start : Desk) (before : List Step) (f : SourceFrame)
        → HasTaken core.old start before → good (desk_of start before) ≡ true → input_of item.now ≡ Input.frame f
        → AllByRecursion (IsChosenOf (visit_after start before lane (Input.frame f)) f) (map sent_of sent.items)) }
    ensures whole { IfOk result (λ sent. (start : Desk) (before : List Step) (f : SourceFrame) (ssrc : ℕ) (r : Receiver)
        → HasTaken core.old start before → good (desk_of start before) ≡ true → input_of item.now ≡ Input.frame f
        → is_mine lane (length core.old.lanes) ssrc ≡ true
        → receiver_on (desk_of start before) f.source f.address ssrc ≡ Some r
        → GoesWhole ssrc (routed_to (visit_after start before lane (Input.frame f)) f r).sending
        (filter (is_on ssrc) (map sent_of sent.items))) }
{
    packets_are_chosen();
    frames_go_whole();
    core.item(alloc, lane, item)
}

/// At a tick all who hear anything get what they hear.
pub fn a_tick_goes_to_all_who_hear(
    alloc: Global,
    core: &mut Core,
    lane: u32,
    item: &Item,
) -> Result<Vec<Egress>, LaneFault>
    requires lane { lane < length core.old.lanes }
    requires sized { is_sized (input_of item.now) ≡ true }
    ensures heard { IfOk result (λ sent. (start : Desk) (before : List Step) (moment : ℕ)
        → HasTaken core.old start before → good (desk_of start before) ≡ true → input_of item.now ≡ Input.tick moment
        → AllByRecursion (IsMixOf
        (given_of (visits lane start before)) (visit_after start before lane (Input.tick moment)))
        (map sent_of sent.items)) }
    ensures all { IfOk result (λ sent. (start : Desk) (before : List Step) (moment : ℕ) (m : Member) (sound : Sound)
        → HasTaken core.old start before → good (desk_of start before) ≡ true → input_of item.now ≡ Input.tick moment
        → is_mine lane (length core.old.lanes) m.out_audio ≡ true
        → mix_member (desk_of start before) m.out_audio ≡ Some m
        → sound_for (voices_of (given_of (visits lane start before)) (desk_of start before)) (desk_of start before) m
        ≡ Some sound
        → GoesOnce (visit_after start before lane (Input.tick moment)) m sound
        (filter (is_on m.out_audio) (map sent_of sent.items))) }
{
    mixes_are_heard();
    all_who_hear_get_it();
    core.item(alloc, lane, item)
}

/// What is sent again leads back to what was sent before, and all that is owed is sent again.
pub fn a_nack_leads_back(
    alloc: Global,
    core: &mut Core,
    lane: u32,
    item: &Item,
) -> Result<Vec<Egress>, LaneFault>
    requires lane { lane < length core.old.lanes }
    requires sized { is_sized (input_of item.now) ≡ true }
    ensures back { IfOk result (λ sent. (start : Desk) (before : List Step) (request : Request)
        → HasTaken core.old start before → good start ≡ true → AreGood before → input_of item.now ≡ Input.nack request
        → AllByRecursion (LeadsBack core.old.ingress.asker (length core.old.lanes) start before lane
        (visit_after start before lane (Input.nack request)) request) (map sent_of sent.items)) }
    ensures owed { IfOk result (λ sent. (start : Desk) (before : List Step) (request : Request) (p : SentPacket)
        → HasTaken core.old start before → good start ≡ true → AreGood before → input_of item.now ≡ Input.nack request
        → is_mine lane (length core.old.lanes) request.out_ssrc ≡ true
        → IsOwed start before lane (visit_after start before lane (Input.nack request)) request p
        → Contains (map sent_of sent.items)
        (goes request.out_ssrc (Some (visit_after start before lane (Input.nack request)).version) p)) }
{
    resends_lead_back();
    core.item(alloc, lane, item)
}

/// A report counts what was sent for the first time, a note leads back to it, and a lost picture is asked of who was
/// chosen.
pub fn reports_notes_and_losses(
    alloc: Global,
    core: &mut Core,
    lane: u32,
    item: &Item,
) -> Result<Vec<Egress>, LaneFault>
    requires lane { lane < length core.old.lanes }
    requires sized { is_sized (input_of item.now) ≡ true }
    ensures counts { IfOk result (λ sent. (start : Desk) (before : List Step) (moment : ℕ)
        → HasTaken core.old start before → good start ≡ true → AreGood before → input_of item.now ≡ Input.report moment
        → AllByRecursion (IsSenderReportOf core.old.ingress.asker (length core.old.lanes) start before
        (visit_after start before lane (Input.report moment)) moment) (map sent_of sent.items)) }
    ensures notes { IfOk result (λ sent. (start : Desk) (before : List Step) (told : Told)
        → HasTaken core.old start before → good start ≡ true → AreGood before → input_of item.now ≡ Input.block told
        → AllByRecursion (IsNoteOf core.old.ingress.asker (length core.old.lanes) start before lane
        (visit_after start before lane (Input.block told)) told) (map sent_of sent.items)) }
    ensures losses { IfOk result (λ sent. (start : Desk) (before : List Step) (loss : Loss)
        → HasTaken core.old start before → input_of item.now ≡ Input.pli loss
        → AllByRecursion (IsPassedUpOf core.old.ingress.asker (visit_after start before lane (Input.pli loss)) loss)
        (map sent_of sent.items)) }
{
    reports_count_first_sendings();
    notes_lead_back();
    picture_losses_go_to_the_chosen();
    core.item(alloc, lane, item)
}
