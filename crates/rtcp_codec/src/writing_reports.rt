//! Writes sender and receiver reports.

ghost use Rattle.std.specs.Prelude.{◌≡◌, ◌+◌, ◌≤◌, [], ◌++◌, length, vec_len, vec_capacity};
ghost use Rattle.std.specs.List.{flat_map, AllByRecursion};
ghost use Rattle.rtcp_codec.specs.Packet.{Sender, fields, FitsTypes};
ghost use Rattle.rtcp_codec.specs.Report.{block_octets, FitsBlock, octets_24, twos_complement, FitsLost};

use crate::appending::append;
use crate::report::{ReportBlock, SenderReport};
use std::alloc::Allocator;

/// A number of 24 bits in two's complement.
fn lost_octets(lost: i32) -> [u8; 3]
    requires { FitsLost lost }
    ensures { result ≡ octets_24 (twos_complement lost) }
{
    let bits = if lost < 0 {
        (lost + 16_777_216) as u32
    } else {
        lost as u32
    };
    let [_, high, middle, low] = bits.to_be_bytes();
    [high, middle, low]
}

/// The octets of a report block.
fn block_array(block: &ReportBlock) -> [u8; 24]
    requires { FitsLost block.now.lost }
    ensures octets { result ≡ block_octets block.now }
    ensures fits { FitsBlock block.now }
{
    let (ssrc, fraction, lost) = (block.ssrc, block.fraction, block.lost);
    let (highest, jitter) = (block.highest, block.jitter);
    let (lsr, dlsr) = (block.lsr, block.dlsr);
    let [s0, s1, s2, s3] = ssrc.to_be_bytes();
    let [n0, n1, n2] = lost_octets(lost);
    let [h0, h1, h2, h3] = highest.to_be_bytes();
    let [j0, j1, j2, j3] = jitter.to_be_bytes();
    let [l0, l1, l2, l3] = lsr.to_be_bytes();
    let [d0, d1, d2, d3] = dlsr.to_be_bytes();
    [
        s0, s1, s2, s3, fraction, n0, n1, n2, h0, h1, h2, h3, j0, j1, j2, j3, l0, l1, l2, l3, d0,
        d1, d2, d3,
    ]
}

/// Appends a report block. The buffer has the capacity.
fn append_block<A: Allocator>(block: &ReportBlock, out: &mut Vec<u8, A>)
    requires lost { FitsLost block.now.lost }
    requires capacity { vec_len out.old + 24 ≤ vec_capacity out.old }
    ensures items { out.new.items ≡ out.old.items ++ block_octets block.now }
    ensures len { vec_len out.new ≡ vec_len out.old + 24 }
    ensures capacity { vec_capacity out.old ≤ vec_capacity out.new }
    ensures fits { FitsBlock block.now }
{
    append(&block_array(block), out);
}

/// Appends report blocks. The buffer has the capacity.
pub(crate) fn append_blocks<A: Allocator>(blocks: &[ReportBlock], out: &mut Vec<u8, A>)
    requires lost { AllByRecursion (λ b. FitsLost b.lost) blocks.now }
    requires capacity { vec_len out.old + length (flat_map block_octets blocks.now) ≤ vec_capacity out.old }
    ensures items { out.new.items ≡ out.old.items ++ flat_map block_octets blocks.now }
    ensures len { vec_len out.new ≡ vec_len out.old + length (flat_map block_octets blocks.now) }
    ensures capacity { vec_capacity out.old ≤ vec_capacity out.new }
    ensures fits { AllByRecursion FitsBlock blocks.now }
{
    for block in blocks {
        append_block(block, out);
    }
}

/// The octets of a sender report up to its report blocks.
pub(crate) fn sender_array<A: Allocator>(report: &SenderReport<A>) -> [u8; 24]
    ensures octets { result ++ flat_map block_octets report.now.blocks.items
        ≡ fields (Sender report.now.ssrc report.now.ntp report.now.ts report.now.packets report.now.octets
        report.now.blocks.items) }
    ensures types { FitsTypes
        (Sender report.now.ssrc report.now.ntp report.now.ts report.now.packets report.now.octets []) }
{
    let (ssrc, ntp, ts) = (report.ssrc, report.ntp, report.ts);
    let (packets, octets) = (report.packets, report.octets);
    let [s0, s1, s2, s3] = ssrc.to_be_bytes();
    let [n0, n1, n2, n3, n4, n5, n6, n7] = ntp.to_be_bytes();
    let [t0, t1, t2, t3] = ts.to_be_bytes();
    let [p0, p1, p2, p3] = packets.to_be_bytes();
    let [o0, o1, o2, o3] = octets.to_be_bytes();
    [
        s0, s1, s2, s3, n0, n1, n2, n3, n4, n5, n6, n7, t0, t1, t2, t3, p0, p1, p2, p3, o0, o1, o2,
        o3,
    ]
}
