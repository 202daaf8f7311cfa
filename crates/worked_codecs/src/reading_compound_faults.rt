//! Why datagrams are no RTCP compounds: the first fault of the first packet.

ghost use Rattle.std.specs.Prelude.{◌≡◌, true, Some};
ghost use Rattle.rtcp_codec.specs.Compound.{IsFirstOf, fault_order};

use rtcp_codec::{RtcpFault, read_compound};
use std::alloc::Global;

/// A datagram whose first packet has this fault is refused as that, without memory.
fn refused_as(alloc: Global, _fault: RtcpFault, octets: &[u8]) -> Option<RtcpFault>
    requires { IsFirstOf fault_order true _fault octets.now }
    ensures { result ≡ Some _fault }
{
    read_compound(alloc, octets).err()
}

/// An octet of the common header is missing, which is told before the version.
pub fn three_octets(alloc: Global) -> Option<RtcpFault>
    ensures { result ≡ Some RtcpFault.Short }
{
    refused_as(alloc, RtcpFault::Short, &[0x00, 201, 0])
}

/// A receiver report passes the end by a word, which is told before its padding.
pub fn a_word_is_missing(alloc: Global) -> Option<RtcpFault>
    ensures { result ≡ Some RtcpFault.Length }
{
    refused_as(alloc, RtcpFault::Length, &[0xa0, 201, 0, 2, 0, 0, 0, 9])
}

/// The fault of the first packet is told, whatever the second has.
pub fn a_block_is_missing_before_version_0(alloc: Global) -> Option<RtcpFault>
    ensures { result ≡ Some RtcpFault.Body }
{
    refused_as(
        alloc,
        RtcpFault::Body,
        &[0x81, 201, 0, 1, 0, 0, 0, 9, 0, 202, 0, 0],
    )
}
