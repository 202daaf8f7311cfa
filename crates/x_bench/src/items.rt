//! The items that are given to the core.

ghost use Rattle.std.specs.Prelude.{◌≡◌, true};
ghost use Rattle.media_items.specs.Inputs.{input_of, is_sized};

use bridge_core::{Frame, FramePacket, Item, MediaFrame};
use bytes::Bytes;
use rtp_codec::Address;
use std::alloc::Global;
use std::io;

/// The source that 16 slots have.
pub const SEEN: u32 = 101;

/// The source that all other slots have.
pub const ELSEWHERE: u32 = 102;

/// The source that no slot has.
pub const UNSEEN: u32 = 103;

/// The octets of a packet that goes out.
pub const PACKET: usize = 1_100;

/// The octets that a packet has before its payload: the fixed header and one contributing source.
const HEADER: usize = 16;

/// The address of a member.
pub fn address_of(member: u16) -> Address {
    let [high, low] = member.to_be_bytes();
    Address {
        ip: [10, 0, high, low],
        port: 5_000,
    }
}

/// A frame of this many packets from the address of member 0.
pub fn frame_of(alloc: Global, source: u32, packets: u16) -> io::Result<MediaFrame> {
    let payload = vec![in alloc; 0xee; PACKET - HEADER]?;
    let mut all = Vec::with_capacity(alloc, usize::from(packets))?;
    for ext in 0..packets {
        all.push(FramePacket {
            ext: i64::from(ext),
            marker: i64::from(ext) + 1 == i64::from(packets),
            pt: 100,
            payload: Bytes::copy_from_slice(alloc, &payload)?,
        })?;
    }
    let Ok(frame) = Frame::new(0, all) else {
        return Err(io::Error::other("the packets are no frame"));
    };
    Ok(MediaFrame {
        source,
        address: address_of(0),
        epoch: 1,
        moment: 0,
        frame,
    })
}

/// A NACK of a member for these numbers of a stream.
pub fn nack_of(member: u16, out_ssrc: u32, numbers: Vec<u16>) -> Item
    ensures { is_sized (input_of result) ≡ true }
{
    Item::Nack {
        from: address_of(member),
        out_ssrc,
        numbers,
    }
}
