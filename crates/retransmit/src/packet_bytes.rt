//! The octets of packets that were sent.

ghost use Rattle.std.specs.Prelude.{◌≡◌, ◌++◌, length, IfOk};

use bytes::Bytes;
use std::alloc::{AllocError, Allocator, Global};
use std::marker::Model;

/// The octets of an RTP packet, in one piece or in two.
///
/// In two pieces they are a header with one contributing source (RFC 3550 section 5.1), and a payload that other
/// packets share. A contract sees one list of octets.
#[derive(Drop)]
pub struct PacketBytes<A: Allocator + Copy = Global> {
    header: Option<[u8; 16]>,
    rest: Bytes<A>,
}

impl<A: Allocator + Copy> Model for PacketBytes<A> {
    ghost use Rattle.std.specs.Prelude.{List, ℕ};
    ghost use Rattle.retransmit.specs.inner.Joined.{joined};

    ghost Value = { List ℕ };

    ghost view = { λ p. joined p.header p.rest };
}

impl<A: Allocator + Copy> PacketBytes<A> {
    /// A packet in one piece.
    pub fn whole(octets: Bytes<A>) -> Self
        ensures { result ≡ octets }
    {
        Self {
            header: None,
            rest: octets,
        }
    }

    /// A packet of a header with one contributing source, and a payload that isn't copied.
    pub fn with_header(header: [u8; 16], payload: Bytes<A>) -> Self
        ensures { result ≡ header ++ payload }
    {
        Self {
            header: Some(header),
            rest: payload,
        }
    }

    /// A copy that shares the payload. The only error is out of memory.
    pub fn try_clone(&self) -> Result<Self, AllocError>
        ensures { IfOk result (λ octets. octets ≡ self.now) }
    {
        Ok(Self {
            header: self.header,
            rest: self.rest.clone()?,
        })
    }

    /// The header, empty for a packet in one piece, and the octets behind it.
    pub fn parts(&self) -> (&[u8], &[u8])
        ensures { result.0.now ++ result.1.now ≡ self.now }
    {
        match &self.header {
            None => (&[], self.rest.as_slice()),
            Some(header) => (header, self.rest.as_slice()),
        }
    }
}
