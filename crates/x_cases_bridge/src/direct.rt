//! Calls that a bridge makes in parts, each on its own.

use crate::lines::{Answer, unread};
use bridge_core::{Item, PacketBytes};
use bytes::Bytes;
use desk_rows::Rows;
use forward_rewrite::{MixStream, OutPacket, Owner, Stream};
use frame_gate::{Gate, Packet};
use media_items::{Format, MediaFrame, Stamp};
use rtp_codec::Address;
use std::alloc::{AllocError, Global};
use std::io;
use topology::mix_plan;
use x_refusing::Refusing;

/// Appends the line of a packet.
fn say_packet<'a>(
    alloc: Global,
    number: u16,
    bytes: &PacketBytes<&'a Refusing>,
    out: &mut String,
) -> Result<(), AllocError> {
    let (header, rest) = bytes.parts();
    let header = hex::encode(alloc, header)?;
    let rest = hex::encode(alloc, rest)?;
    write!(out, "packet {number} {header}{rest}\n")
}

/// A frame's packets as the first ones of a stream.
fn sent_first<'a>(
    heap: &'a Refusing,
    frame: &MediaFrame<&'a Refusing>,
    stamp: Stamp,
    owner: Owner,
) -> Result<Vec<OutPacket<&'a Refusing>, &'a Refusing>, AllocError> {
    let mut stream = Stream::new(heap, 501, 65_535, 1_000)?;
    stream.send(heap, frame, stamp, owner)
}

/// Appends the packets of a frame on a new stream, of the SSRC 501 with the number 65535 and the timestamp 1000 first.
fn stream<'a>(
    alloc: Global,
    heap: &'a Refusing,
    nth: u64,
    item: &Item<&'a Refusing>,
    out: &mut String,
) -> io::Result<Answer> {
    let Item::Frame(frame) = item else {
        return Ok(Answer::Whole);
    };
    let stamp = Stamp {
        version: 6,
        item: 1,
    };
    let owner = Owner {
        member: 11,
        address: Address {
            ip: [10, 0, 0, 2],
            port: 5_000,
        },
    };
    heap.refuse(nth);
    let sent = sent_first(heap, frame, stamp, owner);
    let met = heap.end(nth);
    let Ok(sent) = sent else {
        return Ok(Answer::Refused);
    };
    for packet in &sent {
        say_packet(alloc, packet.number, &packet.bytes, out)?;
    }
    Ok(Answer::after(met))
}

/// Appends the packet of a mix of two samples of the source 102 on a new stream, of the SSRC 9002 with the number 65535
/// and the timestamp 1000 first.
fn mix<'a>(alloc: Global, heap: &'a Refusing, nth: u64, out: &mut String) -> io::Result<Answer> {
    let mut stream = MixStream::new(9_002, 65_535, 1_000);
    heap.refuse(nth);
    let sent = stream.send(heap, Format::L16At8000, &[102], &[1, -2], 0);
    let met = heap.end(nth);
    let Ok(packet) = sent else {
        return Ok(Answer::Refused);
    };
    say_packet(alloc, packet.number, &packet.bytes, out)?;
    Ok(Answer::after(met))
}

/// What such calls are made with: memory, the rows of a desk, and the item that waits first.
#[derive(Clone, Copy)]
pub struct Parts<'b, 'a> {
    /// The memory of what is no part of the bridge.
    pub alloc: Global,
    /// The memory of the bridge, which can be refused.
    pub heap: &'a Refusing,
    /// The rows of the desk.
    pub rows: &'b Rows<&'a Refusing>,
    /// The item that waits first.
    pub first: Option<&'b Item<&'a Refusing>>,
}

impl<'b, 'a> Parts<'b, 'a> {
    /// Answers the line of such a call, whose request for memory of this number is refused.
    pub fn line(&self, nth: u64, word: &str, words: &str, out: &mut String) -> io::Result<Answer> {
        let Parts {
            alloc,
            heap,
            rows,
            first,
        } = *self;
        match (word, first, words.parse::<u32>()) {
            ("gate", _, _) => gate(heap, nth, out),
            ("mix", _, _) => mix(alloc, heap, nth, out),
            ("plan", _, Ok(member)) => plan(heap, rows, nth, member, out),
            ("roster", _, Ok(room)) => roster(heap, rows, nth, room, out),
            ("stream", Some(item), _) => stream(alloc, heap, nth, item, out),
            _ => unread(out),
        }
    }
}

/// Appends the sources of a member's mix, each with its gain.
fn plan<'a>(
    heap: &'a Refusing,
    rows: &Rows<&'a Refusing>,
    nth: u64,
    member: u32,
    out: &mut String,
) -> io::Result<Answer> {
    heap.refuse(nth);
    let planned = mix_plan(heap, rows, member);
    let met = heap.end(nth);
    let Ok(sources) = planned else {
        return Ok(Answer::Refused);
    };
    for source in &sources {
        let (ssrc, gain) = (source.ssrc, source.gain);
        write!(out, "hears {ssrc} {gain}\n")?;
    }
    Ok(Answer::after(met))
}

/// Appends the members of a room, by place.
fn roster<'a>(
    heap: &'a Refusing,
    rows: &Rows<&'a Refusing>,
    nth: u64,
    room: u32,
    out: &mut String,
) -> io::Result<Answer> {
    heap.refuse(nth);
    let listed = rows.roster(heap, room);
    let met = heap.end(nth);
    let Ok(members) = listed else {
        return Ok(Answer::Refused);
    };
    for member in &members {
        write!(out, "has {member}\n")?;
    }
    Ok(Answer::after(met))
}

/// How many frames a gate closes and how many numbers it finds missing, at the end of a frame, at the last packet of a
/// frame of two, and at its first one.
fn admitted<'a>(heap: &'a Refusing) -> Result<Vec<(usize, usize), &'a Refusing>, AllocError> {
    let mut gate = Gate::new(heap)?;
    let mut counts = Vec::new(heap);
    let packets = [
        (101, true, 9_000),
        (103, true, 12_000),
        (102, false, 12_000),
    ];
    for (ext, marker, ts) in packets {
        let packet = Packet {
            marker,
            pt: 100,
            ts,
            payload: Bytes::copy_from_slice(heap, &[0xaa])?,
        };
        let admitted = gate.admit(heap, ext, packet).map_err(|_| AllocError)?;
        counts.push((admitted.frames.len(), admitted.nacks.len()))?;
    }
    Ok(counts)
}

/// Appends what a new gate makes of three packets.
fn gate<'a>(heap: &'a Refusing, nth: u64, out: &mut String) -> io::Result<Answer> {
    heap.refuse(nth);
    let told = admitted(heap);
    let met = heap.end(nth);
    let Ok(counts) = told else {
        return Ok(Answer::Refused);
    };
    for (frames, missing) in &counts {
        write!(out, "gate {frames} {missing}\n")?;
    }
    Ok(Answer::after(met))
}
