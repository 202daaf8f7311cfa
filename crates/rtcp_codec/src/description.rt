//! Source descriptions.

use std::alloc::{Allocator, Global};

/// One item of a source description (SDES, RFC 3550 section 6.5).
#[derive(Drop)]
pub struct SdesItem<A: Allocator = Global> {
    /// The item's type, 1 to 255. A CNAME is 1.
    pub kind: u8,
    /// The text, at most 255 octets.
    pub text: Vec<u8, A>,
}

/// What a source description says of one source (RFC 3550 section 6.5).
#[derive(Drop)]
pub struct SdesChunk<A: Allocator = Global> {
    /// The source that is described.
    pub ssrc: u32,
    /// The items, in their order. They may be none.
    pub items: Vec<SdesItem<A>, A>,
}
