//! Compounds that are written.

ghost use Rattle.std.specs.Prelude.{◌≡◌, ◌+◌, ◌*◌, ◌≤◌, [], ◌∷◌, length};
ghost use Rattle.std.specs.Prelude.{OnOk, OnErr, IfErr, IsOk, vec_len, vec_capacity};
ghost use Rattle.rtcp_codec.specs.Packet.{Receiver, Other};
ghost use Rattle.rtcp_codec.specs.View.{packets_of};
ghost use Rattle.worked_codecs.specs.Octets.{octets_of};
ghost use Rattle.worked_codecs.specs.Compounds as compounds;

use rtcp_codec::{Rtcp, WriteFault, write_compound};

/// A receiver report without blocks.
pub fn writes_report_alone(packets: &[Rtcp], out: &mut Vec<u8>) -> Result<(), WriteFault>
    requires packets { packets_of packets.now ≡ compounds.report_alone }
    requires out { out.old.items ≡ 7 ∷ [] }
    ensures ok { OnOk result (out.new.items ≡ 7 ∷ octets_of compounds.report_alone_words) }
    ensures err { OnErr result (out.new.items ≡ 7 ∷ []) }
{
    write_compound(packets, out)
}

/// A receiver report with a block of the least loss that 24 bits can tell.
pub fn writes_least_loss(packets: &[Rtcp], out: &mut Vec<u8>) -> Result<(), WriteFault>
    requires packets { packets_of packets.now ≡ compounds.least_loss }
    requires out { out.old.items ≡ 7 ∷ [] }
    ensures ok { OnOk result (out.new.items ≡ 7 ∷ octets_of compounds.least_loss_words) }
    ensures err { OnErr result (out.new.items ≡ 7 ∷ []) }
{
    write_compound(packets, out)
}

/// A sender report without blocks, and a source that leaves.
pub fn writes_sender_leaves(packets: &[Rtcp], out: &mut Vec<u8>) -> Result<(), WriteFault>
    requires packets { packets_of packets.now ≡ compounds.sender_leaves }
    requires out { out.old.items ≡ 7 ∷ [] }
    ensures ok { OnOk result (out.new.items ≡ 7 ∷ octets_of compounds.sender_leaves_words) }
    ensures err { OnErr result (out.new.items ≡ 7 ∷ []) }
{
    write_compound(packets, out)
}

/// A report, and what two chunks say of a source.
pub fn writes_two_chunks(packets: &[Rtcp], out: &mut Vec<u8>) -> Result<(), WriteFault>
    requires packets { packets_of packets.now ≡ compounds.two_chunks }
    requires out { out.old.items ≡ 7 ∷ [] }
    ensures ok { OnOk result (out.new.items ≡ 7 ∷ octets_of compounds.two_chunks_words) }
    ensures err { OnErr result (out.new.items ≡ 7 ∷ []) }
{
    write_compound(packets, out)
}

/// A report, and a reason for leaving of one octet.
pub fn writes_short_reason(packets: &[Rtcp], out: &mut Vec<u8>) -> Result<(), WriteFault>
    requires packets { packets_of packets.now ≡ compounds.short_reason }
    requires out { out.old.items ≡ 7 ∷ [] }
    ensures ok { OnOk result (out.new.items ≡ 7 ∷ octets_of compounds.short_reason_words) }
    ensures err { OnErr result (out.new.items ≡ 7 ∷ []) }
{
    write_compound(packets, out)
}

/// A report, an empty reason for leaving, which isn't none, and none.
pub fn writes_empty_reason(packets: &[Rtcp], out: &mut Vec<u8>) -> Result<(), WriteFault>
    requires packets { packets_of packets.now ≡ compounds.empty_reason }
    requires out { out.old.items ≡ 7 ∷ [] }
    ensures ok { OnOk result (out.new.items ≡ 7 ∷ octets_of compounds.empty_reason_words) }
    ensures err { OnErr result (out.new.items ≡ 7 ∷ []) }
{
    write_compound(packets, out)
}

/// A report, and what an application says.
pub fn writes_application(packets: &[Rtcp], out: &mut Vec<u8>) -> Result<(), WriteFault>
    requires packets { packets_of packets.now ≡ compounds.application }
    requires out { out.old.items ≡ 7 ∷ [] }
    ensures ok { OnOk result (out.new.items ≡ 7 ∷ octets_of compounds.application_words) }
    ensures err { OnErr result (out.new.items ≡ 7 ∷ []) }
{
    write_compound(packets, out)
}

/// A report, a NACK of two words and a PLI.
pub fn writes_nack_and_pli(packets: &[Rtcp], out: &mut Vec<u8>) -> Result<(), WriteFault>
    requires packets { packets_of packets.now ≡ compounds.nack_and_pli }
    requires out { out.old.items ≡ 7 ∷ [] }
    ensures ok { OnOk result (out.new.items ≡ 7 ∷ octets_of compounds.nack_and_pli_words) }
    ensures err { OnErr result (out.new.items ≡ 7 ∷ []) }
{
    write_compound(packets, out)
}

/// A report, and feedback of another format.
pub fn writes_other_format(packets: &[Rtcp], out: &mut Vec<u8>) -> Result<(), WriteFault>
    requires packets { packets_of packets.now ≡ compounds.other_format }
    requires out { out.old.items ≡ 7 ∷ [] }
    ensures ok { OnOk result (out.new.items ≡ 7 ∷ octets_of compounds.other_format_words) }
    ensures err { OnErr result (out.new.items ≡ 7 ∷ []) }
{
    write_compound(packets, out)
}

/// Where the buffer has the capacity for what can be written, nothing is refused.
pub fn within_capacity(packets: &[Rtcp], out: &mut Vec<u8>) -> Result<(), WriteFault>
    requires packets { packets_of packets.now ≡ compounds.other_format }
    requires capacity { vec_len out.old + 16 ≤ vec_capacity out.old }
    ensures { IsOk result }
{
    write_compound(packets, out)
}

/// The longest packet has 65536 words: only memory may be wanted.
pub fn a_packet_of_65536_words(
    packets: &[Rtcp],
    body: &[u8],
    out: &mut Vec<u8>,
) -> Result<(), WriteFault>
    requires size { length body.now ≡ 4 * 65535 }
    requires packets { packets_of packets.now ≡ Receiver 9 [] ∷ Other 192 0 body.now ∷ [] }
    ensures { IfErr result (λ f. f ≡ WriteFault.OutOfMemory) }
{
    write_compound(packets, out)
}
