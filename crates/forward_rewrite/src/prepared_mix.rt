//! Packets of mixes that are ready to be sent.

use crate::mix_stream::MixStream;
use crate::sending::OutPacket;
use std::alloc::{Allocator, Global};
use std::marker::Model;

/// A packet that is ready to be sent on a mix stream. It fits the stream only as the stream was when it was made.
// It has the stream as it will be, so that a tick can pass all streams first, and then put in place those that send.
// Whoever commits what was prepared of another stream gets that one.
#[derive(Drop)]
pub struct PreparedMix<A: Allocator + Copy = Global> {
    /// The stream as it is once the packet is sent.
    pub next: MixStream,
    /// The packet.
    pub packet: OutPacket<A>,
}

impl<A: Allocator + Copy> Model for PreparedMix<A> {
    ghost use Rattle.forward_rewrite.specs.Mixes.{PreparedMixOf};

    ghost Value = { PreparedMixOf };

    ghost view = { λ p. record { next = p.next; packet = p.packet } };
}
