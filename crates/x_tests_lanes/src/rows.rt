//! Rows of the desks.

use crate::items::FitItem;
use bridge_core::{Frame, FramePacket, Item, MediaFrame};
use bytes::Bytes;
use desk_edit::Command;
use desk_rows::{Codec, Media, Member, Mute, Room, Slot, Source, Sub};
use rtp_codec::Address;
use std::alloc::Global;

/// The address 10.0.0.LAST:5000.
pub fn address(last: u32) -> Address {
    Address {
        ip: [10, 0, 0, (last % 256) as u8],
        port: 5000,
    }
}

fn member(member: u32, last: u32) -> Command {
    Command::AddMember(Member {
        member,
        room: 1,
        address: address(last),
        codec: Codec::Pcmu,
        out_audio: 9_000 + last % 100,
        first_seq: 0,
        first_ts: 0,
    })
}

/// A room with two members. The video of one, source 101, goes to a slot of the other, 501, from number 65,535 on.
pub fn set_up() -> [Command; 6] {
    [
        Command::AddRoom(Room {
            room: 1,
            rate: 8_000,
        }),
        member(10, 1),
        member(11, 2),
        Command::AddSource(Source {
            ssrc: 101,
            member: 10,
            media: Media::Video,
        }),
        Command::AddSlot(Slot {
            out_ssrc: 501,
            member: 11,
            index: 0,
            first_seq: 65535,
            first_ts: 1000,
        }),
        Command::Subscribe(Sub {
            out_ssrc: 501,
            source: 101,
        }),
    ]
}

/// The mute of source 101.
pub fn mute() -> Command {
    Command::Mute(Mute { source: 101 })
}

/// The end of the mute of source 101.
pub fn unmute() -> Command {
    Command::Unmute { source: 101 }
}

/// A packet of a frame. Its payload type is 100.
pub fn packet(ext: i64, marker: bool, payload: &'static [u8]) -> FramePacket {
    FramePacket {
        ext,
        marker,
        pt: 100,
        payload: Bytes::from_static(payload),
    }
}

/// A frame of source 101 with two packets, if memory suffices.
pub fn frame(alloc: Global) -> Option<FitItem> {
    let mut packets = Vec::with_capacity(alloc, 2).ok()?;
    packets.push(packet(7, false, b"\xaa\xbb")).ok()?;
    packets.push(packet(8, true, b"\xcc")).ok()?;
    let frame = Frame::new(90_000, packets).ok()?;
    let item = Item::Frame(MediaFrame {
        source: 101,
        address: address(1),
        epoch: 1,
        moment: 1_000_000_000,
        frame,
    });
    FitItem::new(alloc, item)
}

/// The octets of the frame's first packet on stream 501.
pub const FIRST: [u8; 18] =
    *b"\x81\x64\xff\xff\x00\x00\x03\xe8\x00\x00\x01\xf5\x00\x00\x00\x65\xaa\xbb";

/// The octets of its second packet.
pub const SECOND: [u8; 17] =
    *b"\x81\xe4\x00\x00\x00\x00\x03\xe8\x00\x00\x01\xf5\x00\x00\x00\x65\xcc";
