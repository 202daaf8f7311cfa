//! Canonical names.

ghost use Rattle.std.specs.Prelude.{◌≡◌, IfOk};
ghost use Rattle.rtcp_codec.specs.CanonicalName.{IsCname, named};
ghost use Rattle.rtcp_codec.specs.View.{packet_of};
ghost use Rattle.rtcp_codec.specs.WriteFault.{IsWritable};

use crate::description::{SdesChunk, SdesItem};
use crate::packet::Rtcp;
use std::alloc::{AllocError, Allocator};

/// The type of a canonical name among the items of a source description.
const CNAME: u8 = 1;

/// A source description with one item: the canonical name of an SSRC (CNAME, RFC 3550 section 6.5.1).
///
/// The name has 1 to 255 octets. The only error is out of memory.
pub fn named<A: Allocator + Copy>(alloc: A, ssrc: u32, cname: &[u8]) -> Result<Rtcp<A>, AllocError>
    requires { IsCname cname.now }
    ensures packet { IfOk result (λ p. packet_of p ≡ named ssrc cname.now) }
    ensures writable { IfOk result (λ p. IsWritable (packet_of p)) }
{
    let mut items = Vec::with_capacity(alloc, 1)?;
    items.push(SdesItem {
        kind: CNAME,
        text: Vec::from_slice(alloc, cname)?,
    })?;
    let mut chunks = Vec::with_capacity(alloc, 1)?;
    chunks.push(SdesChunk { ssrc, items })?;
    Ok(Rtcp::Sdes(chunks))
}
