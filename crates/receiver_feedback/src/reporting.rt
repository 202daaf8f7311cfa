//! Writes sender reports.

ghost use Rattle.std.specs.Prelude.{◌≡◌, IfOk};
ghost use Rattle.rtcp_codec.specs.CanonicalName.{IsCname};
ghost use Rattle.rtcp_codec.specs.Compound.{IsCompound, written};
ghost use Rattle.rtcp_codec.specs.View.{packets_of};
ghost use Rattle.rtcp_codec.specs.WriteFault.{AreWritable};
ghost use Rattle.receiver_feedback.specs.SenderReports.{sender_packets};

use crate::timing::{ntp_of, ts_at};
use forward_rewrite::Counts;
use rtcp_codec::{Rtcp, SenderReport, compound_of, named};
use std::alloc::{AllocError, Allocator};

/// The packets of a sender report.
fn packets_for<A: Allocator + Copy>(
    alloc: A,
    counts: &Counts,
    moment: u64,
    cname: &[u8],
) -> Result<Vec<Rtcp<A>, A>, AllocError>
    requires { IsCname cname.now }
    ensures packets { IfOk result (λ v. packets_of v.items ≡ sender_packets counts.now moment cname.now) }
    ensures writable { IfOk result (λ v. AreWritable (packets_of v.items)) }
{
    let mut packets = Vec::with_capacity(alloc, 2)?;
    packets.push(Rtcp::Sender(SenderReport {
        ssrc: counts.ssrc,
        ntp: ntp_of(moment),
        ts: ts_at(counts, moment),
        packets: counts.packets,
        octets: counts.octets,
        blocks: Vec::new(alloc),
    }))?;
    packets.push(named(alloc, counts.ssrc, cname)?)?;
    Ok(packets)
}

/// Writes the compound for the receiver of a stream: a sender report without blocks, then the canonical name, both
/// under the stream's SSRC (RFC 3550 sections 6.4.1, 6.5.1).
///
/// `moment` is in nanoseconds since 1970. The RTP timestamp is that of the last frame or tick, advanced to this moment.
/// If the moment is earlier, it is not advanced. The name has 1 to 255 octets. The only error is out of memory.
pub fn sender_report<A: Allocator + Copy>(
    alloc: A,
    counts: &Counts,
    moment: u64,
    cname: &[u8],
) -> Result<Vec<u8, A>, AllocError>
    requires { IsCname cname.now }
    ensures octets { IfOk result (λ v. v.items ≡ written (sender_packets counts.now moment cname.now)) }
    ensures compound { IfOk result (λ v. IsCompound (sender_packets counts.now moment cname.now) v.items) }
{
    let packets = packets_for(alloc, counts, moment, cname)?;
    compound_of(alloc, &packets)
}
