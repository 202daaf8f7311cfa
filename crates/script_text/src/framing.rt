//! The frames that words spell.

ghost use Rattle.std.specs.Prelude.{◌≤◌, ◌+◌};
ghost use Rattle.frame_gate.specs.Frame.{fault_of};
ghost use Rattle.media_items.specs.Inputs.Input.{frame};
ghost use Rattle.desk_text.specs.Words.{Gives, words_in, size_of};
ghost use Rattle.script_text.specs.inner.Cursor.{sighting};
ghost use Rattle.script_text.specs.Requests.{Item, some_packets, framed, frame_of};

use crate::line::ITEM_LIMIT;
use crate::packet::packets;
use bridge_core::{Frame, FramePacket, MediaFrame};
use desk_text::{Fault, ParseFault};
use rtp_codec::Address;
use std::alloc::Allocator;

/// What stands on the line of a frame before its packets.
#[derive(Clone, Copy)]
pub(crate) struct FrameHead {
    pub moment: u64,
    pub address: Address,
    pub source: u32,
    pub epoch: u64,
    pub ts: u32,
}

/// The packets of a frame, of which there is one at least. The first of them stands at this place.
fn some_packets<A: Allocator + Copy>(
    alloc: A,
    place: u32,
    words: Option<&[u8]>,
) -> Result<Vec<FramePacket<A>, A>, ParseFault>
    requires place { place ≤ 8 }
    requires short { size_of words ≤ ITEM_LIMIT + 1 }
    ensures { Gives (λ v. v.items) result (some_packets place (words_in words.entry)) }
{
    match words {
        None => Err(Fault::MissingWord.at(place)),
        Some(_) => packets(alloc, place, words),
    }
}

/// The frame of these packets, which have to make one.
fn framed<A: Allocator + Copy>(
    place: u32,
    head: FrameHead,
    packets: Vec<FramePacket<A>, A>,
) -> Result<MediaFrame<A>, ParseFault>
    ensures { Gives (λ f. Item (frame f)) result (framed place (sighting head packets.items) (fault_of packets.items)) }
{
    let FrameHead {
        moment,
        address,
        source,
        epoch,
        ts,
    } = head;
    match Frame::new(ts, packets) {
        Err(_) => Err(Fault::BadFrame.at(place)),
        Ok(frame) => Ok(MediaFrame {
            source,
            address,
            epoch,
            moment,
            frame,
        }),
    }
}

/// A frame with its packets, of which the first stands at this place.
#[tactic(auto, unfolding(crate::specs::Requests::frame_of))]
pub(crate) fn frame<A: Allocator + Copy>(
    alloc: A,
    place: u32,
    head: FrameHead,
    words: Option<&[u8]>,
) -> Result<MediaFrame<A>, ParseFault>
    requires place { place ≤ 8 }
    requires short { size_of words ≤ ITEM_LIMIT + 1 }
    ensures { Gives (λ f. Item (frame f)) result (frame_of place (sighting head) (words_in words.entry)) }
{
    let packets = some_packets(alloc, place, words)?;
    framed(place, head, packets)
}
