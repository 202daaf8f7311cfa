//! Writes receiver reports.

ghost use Rattle.std.specs.Prelude.{◌≡◌, ◌<◌, length, IfOk, OnOk};
ghost use Rattle.std.specs.List.{AllByRecursion};
ghost use Rattle.rtcp_codec.specs.CanonicalName.{IsCname, named};
ghost use Rattle.rtcp_codec.specs.Compound.{IsCompound, written};
ghost use Rattle.rtcp_codec.specs.Packet.{Receiver};
ghost use Rattle.rtcp_codec.specs.Report.{FitsLost};
ghost use Rattle.rtcp_codec.specs.View.{packet_of, packets_of};
ghost use Rattle.rtcp_codec.specs.WriteFault.{IsWritable};
ghost use Rattle.sender_feedback.specs.ReceiverReports.{blocks_at, count_of_reports, receiver_packets};

use rtcp_codec::{ReceiverReport, ReportBlock, Rtcp, compound_of, named};
use std::alloc::{AllocError, Allocator};

/// The most blocks of a report (RFC 3550 section 6.4.1).
const MOST_BLOCKS: usize = 31;

/// The number of reports for this number of blocks.
fn count_of_reports(blocks: usize) -> usize
    ensures { result ≡ count_of_reports blocks }
{
    blocks.saturating_sub(1) / MOST_BLOCKS + 1
}

/// The blocks of the report at this place.
fn blocks_at(blocks: &[ReportBlock], place: usize) -> &[ReportBlock]
    requires { place < count_of_reports (length blocks.now) }
    ensures { result.now ≡ blocks_at blocks.now place }
{
    let rest = &blocks[MOST_BLOCKS * place..];
    &rest[..MOST_BLOCKS.min(rest.len())]
}

/// The report at this place.
fn report_at<A: Allocator>(
    alloc: A,
    ssrc: u32,
    blocks: &[ReportBlock],
    place: usize,
) -> Result<Rtcp<A>, AllocError>
    requires { place < count_of_reports (length blocks.now) }
    ensures { IfOk result (λ p. packet_of p ≡ Receiver ssrc (blocks_at blocks.now place)) }
{
    let blocks = Vec::from_slice(alloc, blocks_at(blocks, place))?;
    Ok(Rtcp::Receiver(ReceiverReport { ssrc, blocks }))
}

/// The packets of a receiver report.
fn packets_for<A: Allocator + Copy>(
    alloc: A,
    ssrc: u32,
    blocks: &[ReportBlock],
    cname: &[u8],
) -> Result<Vec<Rtcp<A>, A>, AllocError>
    requires { IsCname cname.now }
    ensures packets { IfOk result (λ v. packets_of v.items ≡ receiver_packets ssrc blocks.now cname.now) }
    ensures name { OnOk result (IsWritable (named ssrc cname.now)) }
{
    let count = count_of_reports(blocks.len());
    let mut packets = Vec::with_capacity(alloc, count + 1)?;
    for place in 0..count {
        packets.push(report_at(alloc, ssrc, blocks, place)?)?;
    }
    packets.push(named(alloc, ssrc, cname)?)?;
    Ok(packets)
}

/// Writes the compound for the sender of sources: receiver reports of up to 31 blocks each, then the canonical name
/// (RFC 3550 sections 6.1, 6.4.2, 6.5.1).
///
/// All are under the bridge's SSRC, and the blocks keep their order. Without a block there is one report without
/// blocks. Each loss is -8,388,608 to 8,388,607. The name has 1 to 255 octets. The only error is out of memory.
pub fn receiver_report<A: Allocator + Copy>(
    alloc: A,
    bridge_ssrc: u32,
    blocks: &[ReportBlock],
    cname: &[u8],
) -> Result<Vec<u8, A>, AllocError>
    requires name { IsCname cname.now }
    requires losses { AllByRecursion (λ b. FitsLost b.lost) blocks.now }
    ensures octets { IfOk result (λ v. v.items ≡ written (receiver_packets bridge_ssrc blocks.now cname.now)) }
    ensures compound { IfOk result (λ v. IsCompound (receiver_packets bridge_ssrc blocks.now cname.now) v.items) }
{
    let packets = packets_for(alloc, bridge_ssrc, blocks, cname)?;
    compound_of(alloc, &packets)
}
