//! What a bridge asks of a source.

ghost use Rattle.std.specs.Prelude.{◌≡◌, ◌++◌, [], IfOk};
ghost use Rattle.worked_media.specs.Upstreams.{octets_of, introduction, nack, pli};

use sender_feedback::upstream;
use std::alloc::{AllocError, Global};

/// A lost packet is asked for by a NACK.
pub fn a_lost_packet_is_asked_for(alloc: Global) -> Result<Vec<u8>, AllocError>
    ensures { IfOk result (λ v. v.items ≡ octets_of (introduction ++ nack 0x00660000)) }
{
    upstream(alloc, 1, b"bridge", 101, &[102], false)
}

/// A picture alone wants no NACK.
pub fn a_picture_is_asked_for(alloc: Global) -> Result<Vec<u8>, AllocError>
    ensures { IfOk result (λ v. v.items ≡ octets_of (introduction ++ pli)) }
{
    upstream(alloc, 1, b"bridge", 101, &[], true)
}

/// Extended numbers -1 and 65536 are 65535 and 0, which one word names; the NACK stands before the PLI.
pub fn both_are_asked_for(alloc: Global) -> Result<Vec<u8>, AllocError>
    ensures { IfOk result (λ v. v.items ≡ octets_of (introduction ++ nack 0xffff0001 ++ pli)) }
{
    upstream(alloc, 1, b"bridge", 101, &[-1, 65_536], true)
}
