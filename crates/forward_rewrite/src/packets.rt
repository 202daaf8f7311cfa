//! Makes the packets of a frame on a stream.

ghost use Rattle.std.specs.Prelude.{◌≡◌, ℕ, ◌≤◌, ◌%◌, ◌^◌, List, ◌∷◌, [], ◌++◌, length, map, sum_by, IfOk};
ghost use Rattle.std.specs.List.{All};
ghost use Rattle.frame_gate.specs.Frame.{highest_pt};
ghost use Rattle.rtp_codec.specs.Packet.{written};
ghost use Rattle.forward_rewrite.specs.Sending.{out_of};
ghost use Rattle.forward_rewrite.specs.RoutedList.{part_of, sent_packet, numbered};
ghost use Rattle.forward_rewrite.specs.inner.Sharing.{stamped_by};

use crate::sending::OutPacket;
use frame_gate::FramePacket;
use media_items::{MediaFrame, Stamp};
use retransmit::{Entry, Owner, PacketBytes};
use rtp_codec::{Header, fixed_header, seq_next};
use std::alloc::{AllocError, Allocator};

/// What all packets of a frame share.
#[derive(Clone, Copy)]
pub struct Shared {
    /// The SSRC of the stream.
    pub ssrc: u32,
    /// The timestamp under which the frame is sent.
    pub ts: u32,
    /// The desk's version and the item.
    pub stamp: Stamp,
    /// The receiver.
    pub owner: Owner,
}

/// The header of a packet with one contributing source.
fn header_octets(header: &Header, source: u32) -> [u8; 16]
    requires { header.now.pt ≤ highest_pt }
    ensures { (payload : List ℕ) → result ++ payload ≡ written header.now (source ∷ []) payload }
{
    let mut octets = [0; 16];
    let (fixed, named) = octets.split_at_mut(12);
    fixed.copy_from_slice(&fixed_header(header, 1));
    named.copy_from_slice(&source.to_be_bytes());
    octets
}

/// A packet of a frame, sent under this number.
fn entry_of<A: Allocator + Copy>(
    shared: &Shared,
    number: u16,
    frame: &MediaFrame<A>,
    packet: &FramePacket<A>,
) -> Result<Entry<A>, AllocError>
    requires { packet.now.pt ≤ highest_pt }
    ensures { IfOk result
        (λ entry. entry ≡ sent_packet shared.now.ssrc number (part_of (stamped_by shared.now frame.now) packet.now)) }
{
    let header = Header {
        marker: packet.marker,
        pt: packet.pt,
        seq: number,
        ts: shared.ts,
        ssrc: shared.ssrc,
    };
    let octets = header_octets(&header, frame.source);
    let stamp = shared.stamp;
    Ok(Entry {
        number,
        owner: shared.owner,
        version: stamp.version,
        item: stamp.item,
        source: frame.source,
        address: frame.address,
        epoch: frame.epoch,
        ext: packet.ext,
        bytes: PacketBytes::with_header(octets, packet.payload.clone()?),
    })
}

/// The packets of a frame, sent under numbers from `first` on.
pub fn entries_of<A: Allocator + Copy>(
    alloc: A,
    shared: &Shared,
    first: u16,
    frame: &MediaFrame<A>,
    packets: &[FramePacket<A>],
) -> Result<Vec<Entry<A>, A>, AllocError>
    requires { All (λ p. p.pt ≤ highest_pt) packets.now }
    ensures { IfOk result
        (λ v. v.items ≡ numbered shared.now.ssrc first (map (part_of (stamped_by shared.now frame.now)) packets.now)) }
{
    let mut entries = Vec::with_capacity(alloc, packets.len())?;
    let mut number = first;
    for packet in packets {
        let one = entry_of(shared, number, frame, packet)?;
        entries.push(one)?;
        number = seq_next(number);
    }
    Ok(entries)
}

/// The octets of payload of these packets, modulo 2^32.
pub fn payload_octets<A: Allocator + Copy>(packets: &[FramePacket<A>]) -> u32
    ensures { result ≡ sum_by (λ p. length p.payload) packets.now % 2 ^ 32 }
{
    let mut octets: u32 = 0;
    for packet in packets {
        octets = octets.wrapping_add((packet.payload.len() % 4_294_967_296) as u32);
    }
    octets
}

/// A packet to be sent.
fn out_packet<A: Allocator + Copy>(entry: &Entry<A>) -> Result<OutPacket<A>, AllocError>
    ensures { IfOk result (λ p. p ≡ out_of entry.now) }
{
    let bytes = entry.bytes.try_clone()?;
    Ok(OutPacket {
        number: entry.number,
        bytes,
    })
}

/// The packets to be sent, which share their octets with the window.
pub fn out_packets<A: Allocator + Copy>(
    alloc: A,
    entries: &[Entry<A>],
) -> Result<Vec<OutPacket<A>, A>, AllocError>
    ensures { IfOk result (λ v. v.items ≡ map out_of entries.now) }
{
    let mut out = Vec::with_capacity(alloc, entries.len())?;
    for entry in entries {
        let one = out_packet(entry)?;
        out.push(one)?;
    }
    Ok(out)
}
