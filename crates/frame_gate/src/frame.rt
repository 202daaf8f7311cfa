//! Whole video frames.

ghost use Rattle.std.specs.Prelude.{◌≡◌, ◌≤◌, length, OnOk, IfOk, IfErr, Option, None, Some};
ghost use Rattle.std.specs.List.{All};
ghost use Rattle.frame_gate.specs.Frame.{most_packets, highest_pt, WholeFrame, fault_of, numbers_rise, rise_from};
ghost use Rattle.frame_gate.specs.Frame.{marker_is_early, lacks_payload, has_bad_kind};

use bytes::Bytes;
use std::alloc::{AllocError, Allocator, Global};
use std::marker::Model;
use thiserror::Error;

/// The most packets that a frame may have.
const PACKETS: usize = 256;

/// The highest payload type.
const HIGHEST_PT: u8 = 127;

/// A packet of a frame.
#[derive(Drop)]
pub struct FramePacket<A: Allocator + Copy = Global> {
    /// The source's extended sequence number, at least -65536 if it comes from a gate.
    pub ext: i64,
    /// The marker bit. Only the last packet of a frame may have it.
    pub marker: bool,
    /// The payload type, at most 127.
    pub pt: u8,
    /// The payload, at least one octet.
    pub payload: Bytes<A>,
}

impl<A: Allocator + Copy> Model for FramePacket<A> {
    ghost use Rattle.frame_gate.specs.Frame.{SourcePacket};

    ghost Value = { SourcePacket };

    ghost view = { λ p. record { ext = p.ext; marker = p.marker; pt = p.pt; payload = p.payload } };
}

impl<A: Allocator + Copy> FramePacket<A> {
    /// A copy that shares the payload. The only error is out of memory.
    pub fn try_clone(&self) -> Result<Self, AllocError>
        ensures { IfOk result (λ packet. packet ≡ self.now) }
    {
        Ok(Self {
            ext: self.ext,
            marker: self.marker,
            pt: self.pt,
            payload: self.payload.clone()?,
        })
    }
}

/// A whole video frame: packets of one timestamp.
///
/// It has 1 to 256 packets. Each has payload and a payload type of at most 127. Their numbers rise, and only the last
/// may have the marker.
#[derive(Drop)]
pub struct Frame<A: Allocator + Copy = Global> {
    /// The frame's RTP timestamp, at 90000 Hz.
    pub ts: u32,
    /// The packets, by rising number.
    pub packets: Vec<FramePacket<A>, A>,
}

impl<A: Allocator + Copy> Model for Frame<A> {
    ghost use Rattle.std.specs.Prelude.{◌≡◌, None};
    ghost use Rattle.frame_gate.specs.Frame.{WholeFrame, fault_of};

    ghost Value = { WholeFrame };

    ghost view = { λ f. record { ts = f.ts; packets = f.packets.items } };

    ghost invariant = { λ f. fault_of f.packets.items ≡ None };
}

/// Why packets are no frame. The variants stand in the order of the checks, and the first fault is reported.
#[derive(Clone, Copy, Debug, PartialEq, Eq, Error)]
pub enum FrameFault {
    #[error("no packet")]
    Empty,
    #[error("the numbers do not rise")]
    Order,
    #[error("more than 256 packets")]
    TooMany,
    #[error("a packet without payload")]
    NoPayload,
    #[error("a payload type over 127")]
    BadKind,
    #[error("a marker before the last packet")]
    Marker,
}

impl<A: Allocator + Copy> Frame<A> {
    /// Makes a frame of these packets, or reports their first fault.
    pub fn new(ts: u32, packets: Vec<FramePacket<A>, A>) -> Result<Self, FrameFault>
        ensures kept { IfOk result (λ frame. frame ≡ record { ts = ts; packets = packets.items }) }
        ensures whole { OnOk result (fault_of packets.items ≡ None) }
        ensures fault { IfErr result (λ fault. fault_of packets.items ≡ Some fault) }
    {
        if let Some(fault) = fault_in(&packets) {
            return Err(fault);
        }
        Ok(Self { ts, packets })
    }

    /// A copy that shares the payloads. The only error is out of memory.
    pub fn try_clone(&self, alloc: A) -> Result<Self, AllocError>
        ensures { IfOk result (λ frame. frame ≡ self.now) }
    {
        let mut packets = Vec::with_capacity(alloc, self.packets.len())?;
        for packet in &self.packets {
            packets.push(packet.try_clone()?)?;
        }
        Ok(Self {
            ts: self.ts,
            packets,
        })
    }

    /// The frame's packets, in their order.
    pub fn sent(&self) -> &[FramePacket<A>]
        ensures packets { result.now ≡ self.now.packets }
        ensures kinds { All (λ p. p.pt ≤ highest_pt) self.now.packets }
    {
        &self.packets
    }

    /// The number of packets, 1 to 256.
    pub fn len(&self) -> u16
        ensures count { result ≡ length self.now.packets }
        ensures few { result ≤ most_packets }
    {
        self.packets.len() as u16
    }
}

/// The first fault of these packets.
#[tactic(auto, unfolding(crate::specs::Frame::fault_of))]
fn fault_in<A: Allocator + Copy>(packets: &[FramePacket<A>]) -> Option<FrameFault>
    ensures { result ≡ fault_of packets.now }
{
    if packets.is_empty() {
        return Some(FrameFault::Empty);
    }
    if !numbers_rise(packets) {
        return Some(FrameFault::Order);
    }
    if packets.len() > PACKETS {
        return Some(FrameFault::TooMany);
    }
    if lacks_payload(packets) {
        return Some(FrameFault::NoPayload);
    }
    if has_bad_kind(packets) {
        return Some(FrameFault::BadKind);
    }
    if marker_is_early(packets) {
        return Some(FrameFault::Marker);
    }
    None
}

/// Whether each number is above the one before it.
fn numbers_rise<A: Allocator + Copy>(packets: &[FramePacket<A>]) -> bool
    ensures { result ≡ numbers_rise packets.now }
{
    match packets.split_first() {
        None => true,
        Some((first, later)) => rise_from(first.ext, later),
    }
}

/// Whether the numbers rise, and the first is above `before`.
fn rise_from<A: Allocator + Copy>(mut before: i64, packets: &[FramePacket<A>]) -> bool
    ensures { result ≡ rise_from before packets.now }
{
    let mut rest = packets;
    while let Some((packet, later)) = rest.split_first() {
        let ext = packet.ext;
        if ext <= before {
            return false;
        }
        before = ext;
        rest = later;
    }
    true
}

fn lacks_payload<A: Allocator + Copy>(packets: &[FramePacket<A>]) -> bool
    ensures { result ≡ lacks_payload packets.now }
{
    packets.iter().any(|packet| packet.payload.is_empty())
}

fn has_bad_kind<A: Allocator + Copy>(packets: &[FramePacket<A>]) -> bool
    ensures { result ≡ has_bad_kind packets.now }
{
    packets.iter().any(|packet| packet.pt > HIGHEST_PT)
}

/// Whether a packet before the last one has the marker.
fn marker_is_early<A: Allocator + Copy>(packets: &[FramePacket<A>]) -> bool
    ensures { result ≡ marker_is_early packets.now }
{
    let mut rest = packets;
    while let Some((packet, later)) = rest.split_first() {
        if packet.marker && !later.is_empty() {
            return true;
        }
        rest = later;
    }
    false
}
