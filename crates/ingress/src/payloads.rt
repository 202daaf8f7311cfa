//! Copies payloads into shared blocks.

ghost use Rattle.std.specs.Prelude.{◌≡◌, IfOk};

use bytes::{Bytes, BytesMut};
use std::alloc::{AllocError, Allocator, Global};

/// The octets of a block of payloads. A longer payload has a block of its own.
// A block is freed with its last payload. So a retransmission buffer that is no longer sent on may keep three times the
// octets of its packets, and of small ones at most a block each.
const BLOCK_OCTETS: usize = 4_096;

/// A block for payloads, which lie in it one behind the other. So one allocation serves several payloads.
#[derive(Drop)]
pub(crate) struct PayloadBlock<A: Allocator + Copy = Global> {
    block: BytesMut<A>,
}

impl<A: Allocator + Copy> PayloadBlock<A> {
    /// No block yet.
    pub(crate) fn new(alloc: A) -> Self {
        Self {
            block: BytesMut::new(alloc),
        }
    }

    /// A copy of the octets, which is shared from here on. The only error is out of memory.
    pub(crate) fn copied(&mut self, alloc: A, octets: &[u8]) -> Result<Bytes<A>, AllocError>
        ensures { IfOk result (λ bytes. bytes ≡ octets.now) }
    {
        self.block.clear();
        if self.block.capacity() < octets.len() {
            self.block = BytesMut::with_capacity(alloc, octets.len().max(BLOCK_OCTETS))?;
        }
        self.block.extend_from_slice(octets)?;
        self.block.freeze_to(octets.len())
    }
}
