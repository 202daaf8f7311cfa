//! A lane's outgoing video streams.

ghost use Rattle.std.specs.Prelude.{◌≡◌, [], map, filter, IfOk, OnErr, Some, option_copied};
ghost use Rattle.media_items.specs.OwnStreams.{is_mine};
ghost use Rattle.media_items.specs.Inputs.{Request};
ghost use Rattle.media_items.specs.Inputs.Input.{frame as frame_input, nack as nack_input};
ghost use Rattle.bridge_core.specs.Sent.{sent_of};
ghost use Rattle.bridge_core.specs.Lanes.{goes};
ghost use Rattle.bridge_core.specs.LaneState.{stream_at};
ghost use Rattle.bridge_core.specs.inner.VideoStreams.{Answers};

use crate::egress::Egress;
use crate::preparing::{StreamTable, commit_all, prepare_all};
use crate::visit::LaneVisit;
use forward_rewrite::Stream;
use indexmap::IndexMap;
use media_items::{LanePlace, MediaFrame};
use receiver_feedback::resend;
use retransmit::Entry;
use rtp_codec::Address;
use std::alloc::{AllocError, Allocator, Global};
use std::marker::Model;
use topology::{Receiver, all_who_chose_receive, receivers_are_distinct, receivers_of};

/// How many streams a lane has memory for from the start.
const FIRST_STREAMS: usize = 16;

/// The video streams of a lane that have begun.
#[derive(Drop)]
pub struct VideoStreams<A: Allocator + Copy = Global> {
    table: StreamTable<A>,
}

impl<A: Allocator + Copy> Model for VideoStreams<A> {
    ghost use Rattle.bridge_core.specs.LaneState.{StreamList};

    ghost Value = { StreamList };

    ghost view = { λ v. v.table.entries };
}

/// Keeps the receivers whose streams are the lane's.
fn keep_mine<A: Allocator>(place: &LanePlace, receivers: &mut Vec<Receiver, A>)
    ensures { receivers.new.items
        ≡ filter (λ r. is_mine place.now.lane place.now.lanes r.slot.out_ssrc) receivers.old.items }
{
    receivers.retain(|receiver| place.is_mine(receiver.slot.out_ssrc));
}

/// A packet as it goes to its owner again.
fn again<A: Allocator + Copy>(version: u64, ssrc: u32, entry: Entry<A>) -> Egress<A>
    ensures { sent_of result ≡ goes ssrc (Some version) entry }
{
    Egress::Media {
        version: entry.version,
        item: entry.item,
        to: entry.owner.address,
        ssrc,
        number: entry.number,
        bytes: entry.bytes,
        resent_by: Some(version),
    }
}

/// Packets as they go to their owner again.
fn all_again<A: Allocator + Copy>(
    alloc: A,
    version: u64,
    ssrc: u32,
    entries: Vec<Entry<A>, A>,
) -> Result<Vec<Egress<A>, A>, AllocError>
    ensures { IfOk result (λ sent. map sent_of sent.items ≡ map (goes ssrc (Some version)) entries.items) }
{
    let mut out = Vec::with_capacity(alloc, entries.len())?;
    for entry in entries {
        out.push_reserved(again(version, ssrc, entry));
    }
    Ok(out)
}

impl<A: Allocator + Copy> VideoStreams<A> {
    /// No stream has begun.
    pub fn new(alloc: A) -> Result<Self, AllocError>
        ensures { IfOk result (λ streams. streams ≡ []) }
    {
        let table = IndexMap::with_capacity(alloc, FIRST_STREAMS)?;
        Ok(Self { table })
    }

    /// The stream of this SSRC, if it has begun.
    pub fn stream(&self, ssrc: u32) -> Option<&Stream<A>>
        ensures { option_copied result ≡ stream_at ssrc self.now }
    {
        self.table.get(&ssrc)
    }

    /// Sends a frame to those of its receivers whose streams are the lane's. All of it is made ready
    /// before a stream changes, so a refusal changes nothing.
    pub fn frame(
        &mut self,
        alloc: A,
        visit: &LaneVisit<'_, A>,
        frame: &MediaFrame<A>,
    ) -> Result<Vec<Egress<A>, A>, AllocError>
        ensures sends { IfOk result
            (λ sent. Answers visit.now self.old self.new (frame_input frame.now) (map sent_of sent.items)) }
        ensures err { OnErr result (self.new ≡ self.old) }
    {
        receivers_are_distinct();
        all_who_chose_receive();
        let mut receivers = receivers_of(alloc, visit.rows, frame.source, &frame.address)?;
        keep_mine(&visit.place, &mut receivers);
        let whole = &frame.frame;
        // More packets than can be counted exceed any memory too.
        let packets = receivers.len().saturating_mul(whole.len().into());
        let mut out = Vec::with_capacity(alloc, packets)?;
        let ready = prepare_all(alloc, &self.table, &receivers, frame, visit.stamp, &mut out)?;
        self.table.reserve(ready.len())?;
        commit_all(&mut self.table, ready);
        Ok(out)
    }

    /// Sends packets of a stream again to the member who asks, if they are among the stream's last 512 and went to that
    /// member at this address. A number that is named twice is answered once.
    pub fn nack(
        &self,
        alloc: A,
        visit: &LaneVisit<'_, A>,
        from: &Address,
        out_ssrc: u32,
        numbers: &[u16],
    ) -> Result<Vec<Egress<A>, A>, AllocError>
        ensures { IfOk result (λ sent.
            Answers visit.now self.now self.now
            (nack_input (record { from = from.now; out_ssrc = out_ssrc; numbers = numbers.now }))
            (map sent_of sent.items)) }
    {
        if !visit.place.is_mine(out_ssrc) {
            return Ok(Vec::new(alloc));
        }
        match self.table.get(&out_ssrc) {
            Some(stream) => {
                let entries = resend(alloc, visit.rows, stream, from, numbers)?;
                all_again(alloc, visit.stamp.version, out_ssrc, entries)
            }
            None => Ok(Vec::new(alloc)),
        }
    }
}
