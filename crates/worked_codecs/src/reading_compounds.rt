//! RTCP compounds that are read, and what was written read back. Only memory may be wanted.

ghost use Rattle.std.specs.Prelude.{◌≡◌, IfSome, MatchResult};
ghost use Rattle.rtcp_codec.specs.View.{packets_of};
ghost use Rattle.worked_codecs.specs.Compounds as compounds;

use rtcp_codec::{Rtcp, RtcpFault, read_compound, write_compound, written_is_compound};
use std::alloc::Global;

/// A receiver report without blocks.
pub fn reads_report_alone(alloc: Global) -> Result<Vec<Rtcp>, RtcpFault>
    ensures { MatchResult result (λ v. packets_of v.items ≡ compounds.report_alone) (λ f. f ≡ RtcpFault.OutOfMemory) }
{
    written_is_compound();
    read_compound(alloc, &[0x80, 0xc9, 0x00, 0x01, 0x00, 0x00, 0x00, 0x09])
}

/// A receiver report with a block of the least loss that 24 bits can tell.
pub fn reads_least_loss(alloc: Global) -> Result<Vec<Rtcp>, RtcpFault>
    ensures { MatchResult result (λ v. packets_of v.items ≡ compounds.least_loss) (λ f. f ≡ RtcpFault.OutOfMemory) }
{
    written_is_compound();
    read_compound(
        alloc,
        &[
            0x81, 0xc9, 0x00, 0x07, 0x00, 0x00, 0x00, 0x09, 0x00, 0x00, 0x00, 0x65, 0x0b, 0x80,
            0x00, 0x00, 0x00, 0x00, 0xff, 0xff, 0x00, 0x00, 0x00, 0x21, 0x00, 0x00, 0xca, 0xfe,
            0x00, 0x00, 0x01, 0x02,
        ],
    )
}

/// A sender report without blocks, and a source that leaves.
pub fn reads_sender_leaves(alloc: Global) -> Result<Vec<Rtcp>, RtcpFault>
    ensures { MatchResult result (λ v. packets_of v.items ≡ compounds.sender_leaves) (λ f. f ≡ RtcpFault.OutOfMemory) }
{
    written_is_compound();
    read_compound(
        alloc,
        &[
            0x80, 0xc8, 0x00, 0x06, 0x00, 0x00, 0x00, 0x09, 0x00, 0x00, 0x00, 0x02, 0x80, 0x00,
            0x00, 0x03, 0x00, 0x00, 0x00, 0x04, 0x00, 0x00, 0x00, 0x05, 0x00, 0x00, 0x00, 0x06,
            0x81, 0xcb, 0x00, 0x01, 0x00, 0x00, 0x00, 0x07,
        ],
    )
}

/// A report, and what two chunks say of a source.
pub fn reads_two_chunks(alloc: Global) -> Result<Vec<Rtcp>, RtcpFault>
    ensures { MatchResult result (λ v. packets_of v.items ≡ compounds.two_chunks) (λ f. f ≡ RtcpFault.OutOfMemory) }
{
    written_is_compound();
    read_compound(
        alloc,
        &[
            0x80, 0xc9, 0x00, 0x01, 0x00, 0x00, 0x00, 0x09, 0x82, 0xca, 0x00, 0x05, 0x00, 0x00,
            0x00, 0x09, 0x01, 0x01, 0x61, 0x00, 0x00, 0x00, 0x00, 0x09, 0x02, 0x02, 0x61, 0x62,
            0x00, 0x00, 0x00, 0x00,
        ],
    )
}

/// A report, and a reason for leaving of one octet.
pub fn reads_short_reason(alloc: Global) -> Result<Vec<Rtcp>, RtcpFault>
    ensures { MatchResult result (λ v. packets_of v.items ≡ compounds.short_reason) (λ f. f ≡ RtcpFault.OutOfMemory) }
{
    written_is_compound();
    read_compound(
        alloc,
        &[
            0x80, 0xc9, 0x00, 0x01, 0x00, 0x00, 0x00, 0x09, 0x81, 0xcb, 0x00, 0x02, 0x00, 0x00,
            0x00, 0x07, 0x01, 0x61, 0x00, 0x00,
        ],
    )
}

/// A report, an empty reason for leaving, which isn't none, and none.
pub fn reads_empty_reason(alloc: Global) -> Result<Vec<Rtcp>, RtcpFault>
    ensures { MatchResult result (λ v. packets_of v.items ≡ compounds.empty_reason) (λ f. f ≡ RtcpFault.OutOfMemory) }
{
    written_is_compound();
    read_compound(
        alloc,
        &[
            0x80, 0xc9, 0x00, 0x01, 0x00, 0x00, 0x00, 0x09, 0x81, 0xcb, 0x00, 0x02, 0x00, 0x00,
            0x00, 0x07, 0x00, 0x00, 0x00, 0x00, 0x81, 0xcb, 0x00, 0x01, 0x00, 0x00, 0x00, 0x07,
        ],
    )
}

/// A report, and what an application says.
pub fn reads_application(alloc: Global) -> Result<Vec<Rtcp>, RtcpFault>
    ensures { MatchResult result (λ v. packets_of v.items ≡ compounds.application) (λ f. f ≡ RtcpFault.OutOfMemory) }
{
    written_is_compound();
    read_compound(
        alloc,
        &[
            0x80, 0xc9, 0x00, 0x01, 0x00, 0x00, 0x00, 0x09, 0x85, 0xcc, 0x00, 0x03, 0x00, 0x00,
            0x00, 0x09, 0x62, 0x61, 0x72, 0x20, 0x01, 0x02, 0x03, 0x04,
        ],
    )
}

/// A report, a NACK of two words and a PLI.
pub fn reads_nack_and_pli(alloc: Global) -> Result<Vec<Rtcp>, RtcpFault>
    ensures { MatchResult result (λ v. packets_of v.items ≡ compounds.nack_and_pli) (λ f. f ≡ RtcpFault.OutOfMemory) }
{
    written_is_compound();
    read_compound(
        alloc,
        &[
            0x80, 0xc9, 0x00, 0x01, 0x00, 0x00, 0x00, 0x09, 0x81, 0xcd, 0x00, 0x04, 0x00, 0x00,
            0x00, 0x09, 0x00, 0x00, 0x00, 0x65, 0xff, 0xff, 0x80, 0x01, 0x00, 0x10, 0x00, 0x00,
            0x81, 0xce, 0x00, 0x02, 0x00, 0x00, 0x00, 0x09, 0x00, 0x00, 0x00, 0x65,
        ],
    )
}

/// A report, and feedback of another format.
pub fn reads_other_format(alloc: Global) -> Result<Vec<Rtcp>, RtcpFault>
    ensures { MatchResult result (λ v. packets_of v.items ≡ compounds.other_format) (λ f. f ≡ RtcpFault.OutOfMemory) }
{
    written_is_compound();
    read_compound(
        alloc,
        &[
            0x80, 0xc9, 0x00, 0x01, 0x00, 0x00, 0x00, 0x09, 0x84, 0xce, 0x00, 0x01, 0x01, 0x02,
            0x03, 0x04,
        ],
    )
}

/// A report and four octets of padding, of which the last counts them.
pub fn reads_padding(alloc: Global) -> Result<Vec<Rtcp>, RtcpFault>
    ensures { MatchResult result (λ v. packets_of v.items ≡ compounds.report_alone) (λ f. f ≡ RtcpFault.OutOfMemory) }
{
    read_compound(
        alloc,
        &[
            0xa0, 0xc9, 0x00, 0x02, 0x00, 0x00, 0x00, 0x09, 0xff, 0xff, 0xff, 0x04,
        ],
    )
}

/// What was written reads back as the same packets.
pub fn what_was_written_reads_back(alloc: Global, packets: &[Rtcp]) -> Option<Vec<Rtcp>>
    ensures { IfSome result (λ v. packets_of v.items ≡ packets_of packets.now) }
{
    let mut out = Vec::new(alloc);
    write_compound(packets, &mut out).ok()?;
    read_compound(alloc, &out).ok()
}
