//! What the laws of feedback and of reports tell a caller, whatever is asked and told.

ghost use Rattle.std.specs.Prelude.{◌≡◌, ◌+◌, ◌*◌, ◌≤◌, ◌%◌, ◌^◌, ◌∷◌, if◌then◌else◌};
ghost use Rattle.std.specs.Prelude.{ℕ, true, nat_eq, List, [], filter, IfOk};
ghost use Rattle.std.specs.List.{AllByRecursion, flat_map, list_any};
ghost use Rattle.receiver_feedback.specs.Resends.{firsts};
ghost use Rattle.rtcp_codec.specs.CanonicalName.{named};
ghost use Rattle.rtcp_codec.specs.Compound.{written};
ghost use Rattle.rtcp_codec.specs.Nack.{numbers_named};
ghost use Rattle.rtcp_codec.specs.Packet.{Sender};
ghost use Rattle.rtcp_codec.specs.Report.{FitsLost};
ghost use Rattle.rtcp_codec.specs.View.{packets_of};
ghost use Rattle.sender_feedback.specs.ReceiverReports.{blocks_in};
ghost use Rattle.receiver_feedback.specs.Times.{from_1900_to_1970, ntp_of, second, ts_at};
ghost use Rattle.worked_media.specs.Reported.{bridge};

use desk_rows::Rows;
use forward_rewrite::Counts;
use receiver_feedback::{
    each_number_once, picture_losses_reach_a_sender, pli_up, sender_report, times_of_reports,
};
use rtcp_codec::{Nack, ReportBlock, Rtcp, read_compound};
use rtp_codec::Address;
use sender_feedback::{blocks_are_told_once, numbers_of, receiver_report};
use std::alloc::{AllocError, Global};
use topology::{choice, member_from, slot_at};

/// The list that is resent has each number that a NACK names once, however often it is named, and no other.
pub fn asks_for_each_number_once(alloc: Global, nack: Nack) -> Result<Vec<u16>, AllocError>
    ensures { IfOk result (λ v. (n : ℕ) → filter (nat_eq n) (firsts v.items)
        ≡ (if list_any (nat_eq n) (numbers_named nack.words.items) then n ∷ [] else [])) }
{
    each_number_once();
    numbers_of(alloc, &Rtcp::Nack(nack))
}

/// A picture loss that the slot's member tells, whose slot chose a source, is passed up.
pub fn a_picture_loss_reaches_a_sender(rows: &Rows, from: &Address, out_ssrc: u32) -> bool
    ensures { result ≡ true }
{
    picture_losses_reach_a_sender();
    let Some(slot) = slot_at(rows, out_ssrc) else {
        return true;
    };
    let Some(member) = member_from(rows, from) else {
        return true;
    };
    let Some(source) = choice(rows, out_ssrc) else {
        return true;
    };
    if member != slot.member {
        return true;
    }
    match pli_up(rows, from, out_ssrc) {
        Some((_, asked)) => asked == source,
        None => false,
    }
}

/// Who reads a receiver report back finds just the blocks, in their order, however many reports they took.
pub fn reads_all_blocks_back(alloc: Global, blocks: &[ReportBlock]) -> Result<Vec<Rtcp>, AllocError>
    requires { AllByRecursion (λ b. FitsLost b.lost) blocks.now }
    ensures { IfOk result (λ v. flat_map blocks_in (packets_of v.items) ≡ blocks.now) }
{
    blocks_are_told_once();
    let octets = receiver_report(alloc, 1, blocks, b"bridge")?;
    read_compound(alloc, &octets).map_err(|_| AllocError)
}

/// At or before the last frame's moment a report has the frame's timestamp. So many whole seconds behind it, it is
/// ahead by the rate as many times.
pub fn reports_the_time_reached(
    alloc: Global,
    counts: &Counts,
    moment: u64,
) -> Result<Vec<u8>, AllocError>
    ensures still { moment ≤ counts.now.moment
        → IfOk result (λ v. v.items ≡ written
        (Sender counts.now.ssrc (ntp_of moment) counts.now.ts counts.now.packets counts.now.octets []
        ∷ named counts.now.ssrc bridge ∷ [])) }
    ensures ahead { (seconds : ℕ) → moment ≡ counts.now.moment + seconds * second
        → IfOk result (λ v. v.items ≡ written
        (Sender counts.now.ssrc (ntp_of moment) ((counts.now.ts + seconds * counts.now.rate) % 2 ^ 32)
        counts.now.packets counts.now.octets [] ∷ named counts.now.ssrc bridge ∷ [])) }
{
    times_of_reports();
    sender_report(alloc, counts, moment, b"bridge")
}

/// So many whole seconds after 1970 the NTP time has no part of a second.
pub fn reports_whole_seconds(
    alloc: Global,
    counts: &Counts,
    seconds: u32,
) -> Result<Vec<u8>, AllocError>
    ensures { IfOk result (λ v. v.items ≡ written
        (Sender counts.now.ssrc ((seconds + from_1900_to_1970) % 2 ^ 32 * 2 ^ 32)
        (ts_at counts.now (seconds * second)) counts.now.packets counts.now.octets []
        ∷ named counts.now.ssrc bridge ∷ [])) }
{
    times_of_reports();
    sender_report(alloc, counts, u64::from(seconds) * 1_000_000_000, b"bridge")
}
