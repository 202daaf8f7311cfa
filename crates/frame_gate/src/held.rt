//! A packet with its number in the epoch.

ghost use Rattle.std.specs.Prelude.{◌≡◌, ◌<◌, ◌≤◌, ◌^◌, IfOk};
ghost use Rattle.frame_gate.specs.Packets.{numbered, number_of, ext_of, frame_packet, IsExt};
ghost use Rattle.frame_gate.specs.Frame.{highest_pt};
ghost use Rattle.frame_gate.specs.Runs.{is_empty};

use crate::frame::FramePacket;
use crate::packet::Packet;
use bytes::Bytes;
use std::alloc::{AllocError, Allocator, Global};
use std::marker::Model;

/// Extended sequence numbers begin this far below 0.
const BELOW: i64 = 65536;

/// A packet and its number: its extended sequence number plus 65536, so that it is not negative.
#[derive(Drop)]
pub struct HeldPacket<A: Allocator + Copy = Global> {
    /// The number, below 2^63.
    pub number: u64,
    /// The marker bit.
    pub marker: bool,
    /// The payload type, at most 127.
    pub pt: u8,
    /// The RTP timestamp, at 90000 Hz.
    pub ts: u32,
    /// The payload, which may be empty.
    pub payload: Bytes<A>,
}

impl<A: Allocator + Copy> Model for HeldPacket<A> {
    ghost use Rattle.std.specs.Prelude.{◌<◌, ◌≤◌, ◌^◌};
    ghost use Rattle.frame_gate.specs.Packets.{NumberedPacket};
    ghost use Rattle.frame_gate.specs.Frame.{highest_pt};

    ghost Value = { NumberedPacket };

    ghost view = { λ p. record { number = p.number; marker = p.marker; pt = p.pt; ts = p.ts; payload = p.payload } };

    ghost invariant = { λ p. (p.number < 2 ^ 63) × (p.pt ≤ highest_pt) };
}

/// The number of an extended sequence number.
pub fn number_of(ext: i64) -> u64
    requires { IsExt ext }
    ensures number { result ≡ number_of ext }
    ensures range { result < 2 ^ 63 }
{
    (ext + BELOW) as u64
}

/// The extended sequence number of a number.
pub fn ext_of(number: u64) -> i64
    requires { number < 2 ^ 63 }
    ensures { result ≡ ext_of number }
{
    number as i64 - BELOW
}

impl<A: Allocator + Copy> HeldPacket<A> {
    /// A packet with its number.
    pub fn new(ext: i64, packet: Packet<A>) -> Self
        requires ext { IsExt ext }
        requires pt { packet.pt ≤ highest_pt }
        ensures { result ≡ numbered ext packet }
    {
        let Packet {
            marker,
            pt,
            ts,
            payload,
        } = packet;
        Self {
            number: number_of(ext),
            marker,
            pt,
            ts,
            payload,
        }
    }

    /// Whether the packet has no payload.
    pub fn is_empty(&self) -> bool
        ensures { result ≡ is_empty self.now }
    {
        self.payload.is_empty()
    }

    /// The packet for its frame. The payload is shared.
    pub fn frame_packet(&self) -> Result<FramePacket<A>, AllocError>
        ensures packet { IfOk result (λ packet. packet ≡ frame_packet self.now) }
        ensures pt { IfOk result (λ packet. packet.pt ≤ highest_pt) }
    {
        Ok(FramePacket {
            ext: ext_of(self.number),
            marker: self.marker,
            pt: self.pt,
            payload: self.payload.clone()?,
        })
    }
}
