//! Faults of a packet that stands behind a good report: they are told without memory.

ghost use Rattle.std.specs.Prelude.{◌≡◌, ◌<◌, false, [], ◌∷◌, take, drop, length, Some};
ghost use Rattle.rtcp_codec.specs.Compound.{IsFirstOf, fault_order};

use rtcp_codec::{RtcpFault, read_compound};
use std::alloc::Global;

/// A datagram whose second packet has this fault, behind a receiver report of source 9, is refused
/// as that.
fn refused_as(alloc: Global, _fault: RtcpFault, octets: &[u8]) -> Option<RtcpFault>
    requires report { take 8 octets.now ≡ 128 ∷ 201 ∷ 0 ∷ 1 ∷ 0 ∷ 0 ∷ 0 ∷ 9 ∷ [] }
    requires more { 8 < length octets.now }
    requires fault { IsFirstOf fault_order false _fault (drop 8 octets.now) }
    ensures { result ≡ Some _fault }
{
    read_compound(alloc, octets).err()
}

/// Version 0, which is told before the length.
pub fn version_0(alloc: Global) -> Option<RtcpFault>
    ensures { result ≡ Some RtcpFault.Version }
{
    refused_as(
        alloc,
        RtcpFault::Version,
        &[0x80, 201, 0, 1, 0, 0, 0, 9, 0, 202, 0, 9],
    )
}

/// Padding on a packet that isn't the last.
pub fn padding_before_the_end(alloc: Global) -> Option<RtcpFault>
    ensures { result ≡ Some RtcpFault.Padding }
{
    refused_as(
        alloc,
        RtcpFault::Padding,
        &[
            0x80, 201, 0, 1, 0, 0, 0, 9, 0xa0, 201, 0, 2, 0, 0, 0, 9, 0, 0, 0, 4, 0x80, 202, 0, 0,
        ],
    )
}

/// A NACK without words.
pub fn a_nack_without_words(alloc: Global) -> Option<RtcpFault>
    ensures { result ≡ Some RtcpFault.Body }
{
    refused_as(
        alloc,
        RtcpFault::Body,
        &[
            0x80, 201, 0, 1, 0, 0, 0, 9, 0x81, 205, 0, 2, 0, 0, 0, 9, 0, 0, 0, 101,
        ],
    )
}
