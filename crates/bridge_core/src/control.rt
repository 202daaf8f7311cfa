//! What receivers report and ask for by RTCP, on the streams of a lane.

ghost use Rattle.std.specs.Prelude.{◌≡◌, true, if◌then◌else◌, [], ◌∷◌, map, IfOk};
ghost use Rattle.ingress.specs.Names.{is_name};
ghost use Rattle.topology.specs.Looking.{member_from};
ghost use Rattle.receiver_feedback.specs.PassedUp.{pli_up};
ghost use Rattle.media_items.specs.OwnStreams.{is_mine};
ghost use Rattle.bridge_core.specs.Sent.{sent_of};
ghost use Rattle.media_items.specs.Inputs.Input.{block as block_input, pli as pli_input};
ghost use Rattle.bridge_core.specs.Lanes.{notes, passed_up};
ghost use Rattle.bridge_core.specs.LaneState.{stream_at};
ghost use Rattle.bridge_core.specs.inner.Visits.{visit_on, asker_of};

use crate::egress::Egress;
use crate::video::VideoStreams;
use crate::visit::LaneVisit;
use receiver_feedback::{note, pli_up};
use retransmit::Owner;
use rtcp_codec::ReportBlock;
use rtp_codec::Address;
use sender_feedback::upstream;
use std::alloc::{AllocError, Allocator};
use topology::member_from;

/// A list of this egress alone.
fn only<A: Allocator + Copy>(alloc: A, egress: Egress<A>) -> Result<Vec<Egress<A>, A>, AllocError>
    ensures { IfOk result (λ sent. map sent_of sent.items ≡ sent_of egress ∷ []) }
{
    let mut out = Vec::with_capacity(alloc, 1)?;
    out.push_reserved(egress);
    Ok(out)
}

/// A receiver's report on a stream of the lane that has begun, if the receiver is a member.
pub fn note_block<A: Allocator + Copy>(
    alloc: A,
    video: &VideoStreams<A>,
    visit: &LaneVisit<'_, A>,
    from: &Address,
    block: &ReportBlock,
) -> Result<Vec<Egress<A>, A>, AllocError>
    ensures { IfOk result (λ sent.
        map sent_of sent.items
        ≡ (if is_mine visit.now.place.lane visit.now.place.lanes block.now.ssrc
        then notes (visit_on visit.now (block_input (record { from = from.now; block = block.now })))
        (record { from = from.now; block = block.now }) (member_from visit.now.rows.now from.now)
        (stream_at block.now.ssrc video.now) else [])) }
{
    if !visit.place.is_mine(block.ssrc) {
        return Ok(Vec::new(alloc));
    }
    let Some(member) = member_from(visit.rows, from) else {
        return Ok(Vec::new(alloc));
    };
    let Some(stream) = video.stream(block.ssrc) else {
        return Ok(Vec::new(alloc));
    };
    let owner = Owner {
        member,
        address: *from,
    };
    only(
        alloc,
        Egress::Note {
            version: visit.stamp.version,
            item: visit.stamp.item,
            from: *from,
            note: note(block, &owner, stream),
        },
    )
}

/// A receiver's picture loss on a stream of the lane, passed up to the member of the source that the stream's slot
/// chose, if the receiver is the slot's member (RFC 4585 section 6.3.1).
pub fn pass_up<A: Allocator + Copy>(
    alloc: A,
    visit: &LaneVisit<'_, A>,
    from: &Address,
    out_ssrc: u32,
) -> Result<Vec<Egress<A>, A>, AllocError>
    requires { is_name visit.now.settings.now.cname ≡ true }
    ensures { IfOk result (λ sent.
        map sent_of sent.items
        ≡ (if is_mine visit.now.place.lane visit.now.place.lanes out_ssrc
        then passed_up (asker_of visit.now)
        (visit_on visit.now (pli_input (record { from = from.now; out_ssrc = out_ssrc })))
        (record { from = from.now; out_ssrc = out_ssrc }) (pli_up visit.now.rows.now from.now out_ssrc)
        else [])) }
{
    if !visit.place.is_mine(out_ssrc) {
        return Ok(Vec::new(alloc));
    }
    let Some((to, source)) = pli_up(visit.rows, from, out_ssrc) else {
        return Ok(Vec::new(alloc));
    };
    let settings = visit.settings;
    let bytes = upstream(
        alloc,
        settings.bridge_ssrc,
        &settings.cname,
        source,
        &[],
        true,
    )?;
    only(
        alloc,
        Egress::Control {
            version: visit.stamp.version,
            item: visit.stamp.item,
            to,
            ssrc: out_ssrc,
            bytes,
        },
    )
}
