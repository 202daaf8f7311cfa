//! Reads sender and receiver reports.

ghost use Rattle.std.specs.Prelude.{◌≡◌, ◌+◌, ◌*◌, ◌≤◌, ◌++◌, length, IfOk};
ghost use Rattle.std.specs.List.{flat_map, AllByRecursion};
ghost use Rattle.rtcp_codec.specs.declared.kind.PacketKind.TheVariants as kinds;
ghost use Rattle.rtcp_codec.specs.Kind.{sr, rr};
ghost use Rattle.rtcp_codec.specs.Packet.{Begin};
ghost use Rattle.rtcp_codec.specs.inner.Reading.{IsOf, IsSoundBlock};
ghost use Rattle.rtcp_codec.specs.Compound.{IsWholeBody};
ghost use Rattle.rtcp_codec.specs.Report.{block_octets, octets_24, twos_complement, FitsLost};
ghost use Rattle.rtcp_codec.specs.View.{packet_of};

use crate::fields::{u32_from, u64_from};
use crate::packet::Rtcp;
use crate::report::{ReceiverReport, ReportBlock, SenderReport};
use std::alloc::{AllocError, Allocator};

/// A signed number of 24 bits in two's complement at the front, and what follows it.
fn lost_from(octets: &[u8]) -> (i32, &[u8])
    requires { 3 ≤ length octets.now }
    ensures parts { octets.now ≡ octets_24 (twos_complement result.0) ++ result.1.now }
    ensures fits { FitsLost result.0 }
    ensures left { length octets.now ≡ 3 + length result.1.now }
{
    let (front, rest) = octets.split_at(3);
    let bits = i32::from(front[0]) * 65536 + i32::from(front[1]) * 256 + i32::from(front[2]);
    let lost = if front[0] < 128 {
        bits
    } else {
        bits - 16_777_216
    };
    (lost, rest)
}

/// The report block at the front, and what follows it:
///
/// ```text
///  0                   1                   2                   3
///  0 1 2 3 4 5 6 7 8 9 0 1 2 3 4 5 6 7 8 9 0 1 2 3 4 5 6 7 8 9 0 1
/// +-+-+-+-+-+-+-+-+-+-+-+-+-+-+-+-+-+-+-+-+-+-+-+-+-+-+-+-+-+-+-+-+
/// |                             SSRC                              |
/// +-+-+-+-+-+-+-+-+-+-+-+-+-+-+-+-+-+-+-+-+-+-+-+-+-+-+-+-+-+-+-+-+
/// | fraction lost |       cumulative number of packets lost       |
/// +-+-+-+-+-+-+-+-+-+-+-+-+-+-+-+-+-+-+-+-+-+-+-+-+-+-+-+-+-+-+-+-+
/// |           extended highest sequence number received           |
/// +-+-+-+-+-+-+-+-+-+-+-+-+-+-+-+-+-+-+-+-+-+-+-+-+-+-+-+-+-+-+-+-+
/// |                      interarrival jitter                      |
/// +-+-+-+-+-+-+-+-+-+-+-+-+-+-+-+-+-+-+-+-+-+-+-+-+-+-+-+-+-+-+-+-+
/// |                         last SR (LSR)                         |
/// +-+-+-+-+-+-+-+-+-+-+-+-+-+-+-+-+-+-+-+-+-+-+-+-+-+-+-+-+-+-+-+-+
/// |                   delay since last SR (DLSR)                  |
/// +-+-+-+-+-+-+-+-+-+-+-+-+-+-+-+-+-+-+-+-+-+-+-+-+-+-+-+-+-+-+-+-+
/// ```
fn block_from(octets: &[u8]) -> (ReportBlock, &[u8])
    requires { 24 ≤ length octets.now }
    ensures parts { octets.now ≡ block_octets result.0 ++ result.1.now }
    ensures fits { IsSoundBlock result.0 }
    ensures left { length octets.now ≡ 24 + length result.1.now }
{
    let (ssrc, rest) = u32_from(octets);
    let (fraction, rest) = (rest[0], &rest[1..]);
    let (lost, rest) = lost_from(rest);
    let (highest, rest) = u32_from(rest);
    let (jitter, rest) = u32_from(rest);
    let (lsr, rest) = u32_from(rest);
    let (dlsr, rest) = u32_from(rest);
    let block = ReportBlock {
        ssrc,
        fraction,
        lost,
        highest,
        jitter,
        lsr,
        dlsr,
    };
    (block, rest)
}

/// `count` report blocks at the front.
fn blocks_from<A: Allocator>(
    alloc: A,
    count: u8,
    octets: &[u8],
) -> Result<Vec<ReportBlock, A>, AllocError>
    requires { 24 * count ≤ length octets.now }
    ensures count { IfOk result (λ v. length v.items ≡ count) }
    ensures fits { IfOk result (λ v. AllByRecursion IsSoundBlock v.items) }
    ensures parts { IfOk result (λ v. Begin (flat_map block_octets v.items) octets.now) }
{
    let mut blocks = Vec::with_capacity(alloc, usize::from(count))?;
    let mut rest = octets;
    for _ in 0..count {
        let (block, after) = block_from(rest);
        blocks.push(block)?;
        rest = after;
    }
    Ok(blocks)
}

/// The sender report in this body.
pub(crate) fn sender_from<A: Allocator>(
    alloc: A,
    count: u8,
    body: &[u8],
) -> Result<Rtcp<A>, AllocError>
    requires { IsWholeBody kinds.Sender count body.now }
    ensures { IfOk result (λ p. IsOf sr count body.now (packet_of p)) }
{
    let (ssrc, rest) = u32_from(body);
    let (ntp, rest) = u64_from(rest);
    let (ts, rest) = u32_from(rest);
    let (packets, rest) = u32_from(rest);
    let (octets, rest) = u32_from(rest);
    let blocks = blocks_from(alloc, count, rest)?;
    Ok(Rtcp::Sender(SenderReport {
        ssrc,
        ntp,
        ts,
        packets,
        octets,
        blocks,
    }))
}

/// The receiver report in this body.
pub(crate) fn receiver_from<A: Allocator>(
    alloc: A,
    count: u8,
    body: &[u8],
) -> Result<Rtcp<A>, AllocError>
    requires { IsWholeBody kinds.Receiver count body.now }
    ensures { IfOk result (λ p. IsOf rr count body.now (packet_of p)) }
{
    let (ssrc, rest) = u32_from(body);
    let blocks = blocks_from(alloc, count, rest)?;
    Ok(Rtcp::Receiver(ReceiverReport { ssrc, blocks }))
}
