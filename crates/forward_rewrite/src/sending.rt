//! The packets that are sent.

use retransmit::PacketBytes;
use std::alloc::{Allocator, Global};
use std::marker::Model;

/// A packet that is sent.
#[derive(Drop)]
pub struct OutPacket<A: Allocator + Copy = Global> {
    /// The sequence number on the outgoing stream.
    pub number: u16,
    /// The octets of the whole RTP packet.
    pub bytes: PacketBytes<A>,
}

impl<A: Allocator + Copy> Model for OutPacket<A> {
    ghost use Rattle.forward_rewrite.specs.Sending.{Numbered};

    ghost Value = { Numbered };

    ghost view = { λ p. record { number = p.number; bytes = p.bytes } };
}
