//! Frames that are ready to be sent.

ghost use Rattle.std.specs.Prelude.{◌≡◌};

use crate::last_sent::LastSent;
use retransmit::Entry;
use std::alloc::{Allocator, Global};
use std::marker::Model;

/// A frame that is ready to be sent. [`Stream::prepare`](crate::Stream::prepare) makes it.
///
/// It has all the memory that sending takes. It fits the stream only as the stream was then. A contract sees its
/// packets and what the stream keeps of them.
#[derive(Drop)]
pub struct PreparedFrame<A: Allocator + Copy = Global> {
    /// The number of its first packet.
    pub(crate) first: u16,
    /// The number behind its last packet.
    pub(crate) next: u16,
    /// The octets of payload of its packets, modulo 2^32.
    pub(crate) octets: u32,
    pub(crate) last: LastSent,
    pub(crate) entries: Vec<Entry<A>, A>,
}

impl<A: Allocator + Copy> Model for PreparedFrame<A> {
    ghost use Rattle.forward_rewrite.specs.Streams.{PreparedOf};
    ghost use Rattle.forward_rewrite.specs.inner.Row.{Lead};

    ghost Value = { PreparedOf };

    ghost view = { λ p. record {
      first = p.first;
      next = p.next;
      octets = p.octets;
      last = p.last;
      packets = p.entries.items;
    } };

    ghost invariant = { λ p. Lead p.first p.entries.items p.next };
}

impl<A: Allocator + Copy> PreparedFrame<A> {
    /// Its packets, in the order in which they are sent. The caller copies what is to go out;
    /// [`Entry::try_clone`] and [`PacketBytes::try_clone`](retransmit::PacketBytes::try_clone) share the payloads.
    pub fn packets(&self) -> &[Entry<A>]
        ensures { result.now ≡ self.now.packets }
    {
        &self.entries
    }
}
