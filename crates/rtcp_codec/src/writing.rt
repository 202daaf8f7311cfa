//! Writing compounds.

ghost use Rattle.std.specs.Prelude.{List, ◌≡◌, ◌+◌, ◌^◌, ◌<◌, ◌≤◌, ◌++◌, length, IfSome, IfOk, IfErr, ◌⊎◌, IsErrOf};
ghost use Rattle.std.specs.Prelude.{OnOk, OnErr, vec_len, vec_capacity};
ghost use Rattle.std.specs.Option.{option_map};
ghost use Rattle.std.specs.List.{flat_map, AllByRecursion};
ghost use Rattle.rtp_codec.specs.Packet.{number_octets};
ghost use Rattle.rtcp_codec.specs.declared.fault.WriteFault.{WriteFault as Fault};
ghost use Rattle.rtcp_codec.specs.declared.fault.WriteFault.TheVariants as write_faults;
ghost use Rattle.rtcp_codec.specs.Description.{filled, most_text};
ghost use Rattle.rtcp_codec.specs.Nack.{word_octets, FitsWord};
ghost use Rattle.rtcp_codec.specs.Packet.{Packet, FitsTypes, CountFits, most_count, type_of, count_of, fields};
ghost use Rattle.rtcp_codec.specs.Packet.{reason_octets, written_packet};
ghost use Rattle.rtcp_codec.specs.Compound.{written, IsCompound};
ghost use Rattle.rtcp_codec.specs.WriteFault.{IsWritable, AreWritable, HasWriteFault};
ghost use Rattle.rtcp_codec.specs.View.{packet_of, packets_of};

use crate::appending::{append, append_fill, put};
use crate::checking::compound_size;
use crate::fault::WriteFault;
use crate::kind::{APP, BYE, NACK_FORMAT, PLI_FORMAT, PSFB, RR, RTPFB, SDES, SR};
use crate::nack::NackWord;
use crate::packet::Rtcp;
use crate::writing_descriptions::append_chunks;
use crate::writing_reports::{append_blocks, sender_array};
use std::alloc::{AllocError, Allocator};

/// Appends the words of a NACK. The buffer has the capacity.
fn append_words<A: Allocator>(words: &[NackWord], out: &mut Vec<u8, A>)
    requires { vec_len out.old + length (flat_map word_octets words.now) ≤ vec_capacity out.old }
    ensures items { out.new.items ≡ out.old.items ++ flat_map word_octets words.now }
    ensures len { vec_len out.new ≡ vec_len out.old + length (flat_map word_octets words.now) }
    ensures capacity { vec_capacity out.old ≤ vec_capacity out.new }
    ensures fits { AllByRecursion FitsWord words.now }
{
    for word in words {
        append(&word.pid.to_be_bytes(), out);
        append(&word.blp.to_be_bytes(), out);
    }
}

/// Appends sources. The buffer has the capacity.
fn append_ssrcs<A: Allocator>(ssrcs: &[u32], out: &mut Vec<u8, A>)
    requires { vec_len out.old + length (number_octets ssrcs.now) ≤ vec_capacity out.old }
    ensures items { out.new.items ≡ out.old.items ++ number_octets ssrcs.now }
    ensures len { vec_len out.new ≡ vec_len out.old + length (number_octets ssrcs.now) }
    ensures capacity { vec_capacity out.old ≤ vec_capacity out.new }
    ensures fits { AllByRecursion (λ ssrc. ssrc < 2 ^ 32) ssrcs.now }
{
    for ssrc in ssrcs {
        append(&ssrc.to_be_bytes(), out);
    }
}

/// Appends a reason, if there is one. The buffer has the capacity.
fn append_reason<A: Allocator, B: Allocator>(reason: &Option<Vec<u8, A>>, out: &mut Vec<u8, B>)
    requires text { IfSome reason.now (λ v. length v.items ≤ most_text) }
    requires capacity { vec_len out.old + length (reason_octets (option_map (λ v. v.items) reason.now))
        ≤ vec_capacity out.old }
    ensures items { out.new.items ≡ out.old.items ++ reason_octets (option_map (λ v. v.items) reason.now) }
    ensures len { vec_len out.new ≡ vec_len out.old + length (reason_octets (option_map (λ v. v.items) reason.now)) }
    ensures capacity { vec_capacity out.old ≤ vec_capacity out.new }
{
    if let Some(text) = reason {
        append(&[text.len() as u8], out);
        append(text, out);
    }
}

/// Appends the fields of a packet. The buffer has the capacity.
fn append_fields<A: Allocator, B: Allocator>(packet: &Rtcp<A>, out: &mut Vec<u8, B>)
    requires writable { IsWritable (packet_of packet.now) }
    requires capacity { vec_len out.old + length (fields (packet_of packet.now)) ≤ vec_capacity out.old }
    ensures items { out.new.items ≡ out.old.items ++ fields (packet_of packet.now) }
    ensures len { vec_len out.new ≡ vec_len out.old + length (fields (packet_of packet.now)) }
    ensures capacity { vec_capacity out.old ≤ vec_capacity out.new }
    ensures types { type_of (packet_of packet.now) < 2 ^ 8 → FitsTypes (packet_of packet.now) }
{
    match packet {
        Rtcp::Sender(report) => {
            append(&sender_array(report), out);
            append_blocks(&report.blocks, out);
        }
        Rtcp::Receiver(report) => {
            append(&report.ssrc.to_be_bytes(), out);
            append_blocks(&report.blocks, out);
        }
        Rtcp::Sdes(chunks) => append_chunks(chunks, out),
        Rtcp::Bye(bye) => {
            append_ssrcs(&bye.ssrcs, out);
            append_reason(&bye.reason, out);
        }
        Rtcp::App(app) => {
            append(&app.ssrc.to_be_bytes(), out);
            append(&app.name, out);
            append(&app.content, out);
        }
        Rtcp::Nack(nack) => {
            append(&nack.sender.to_be_bytes(), out);
            append(&nack.media.to_be_bytes(), out);
            append_words(&nack.words, out);
        }
        Rtcp::Pli(pli) => {
            append(&pli.sender.to_be_bytes(), out);
            append(&pli.media.to_be_bytes(), out);
        }
        Rtcp::Other(other) => append(&other.body, out),
    }
}

/// Appends the fields of a packet and their fill. The buffer has the capacity.
fn append_body<A: Allocator, B: Allocator>(packet: &Rtcp<A>, out: &mut Vec<u8, B>)
    requires writable { IsWritable (packet_of packet.now) }
    requires capacity { vec_len out.old + length (filled (fields (packet_of packet.now))) ≤ vec_capacity out.old }
    ensures items { out.new.items ≡ out.old.items ++ filled (fields (packet_of packet.now)) }
    ensures len { vec_len out.new ≡ vec_len out.old + length (filled (fields (packet_of packet.now))) }
    ensures capacity { vec_capacity out.old ≤ vec_capacity out.new }
    ensures types { type_of (packet_of packet.now) < 2 ^ 8 → FitsTypes (packet_of packet.now) }
{
    let before = out.len();
    append_fields(packet, out);
    append_fill(out.len() - before, out);
}

/// The packet type.
fn type_of<A: Allocator>(packet: &Rtcp<A>) -> u8
    ensures { result ≡ type_of (packet_of packet.now) }
{
    match packet {
        Rtcp::Sender(_) => SR,
        Rtcp::Receiver(_) => RR,
        Rtcp::Sdes(_) => SDES,
        Rtcp::Bye(_) => BYE,
        Rtcp::App(_) => APP,
        Rtcp::Nack(_) => RTPFB,
        Rtcp::Pli(_) => PSFB,
        Rtcp::Other(other) => other.pt,
    }
}

/// The count of blocks, chunks or sources; the subtype of an APP; the format of feedback.
fn count_of<A: Allocator>(packet: &Rtcp<A>) -> u8
    requires { CountFits (packet_of packet.now) }
    ensures value { result ≡ count_of (packet_of packet.now) }
    ensures few { result ≤ most_count }
{
    match packet {
        Rtcp::Sender(report) => report.blocks.len() as u8,
        Rtcp::Receiver(report) => report.blocks.len() as u8,
        Rtcp::Sdes(chunks) => chunks.len() as u8,
        Rtcp::Bye(bye) => bye.ssrcs.len() as u8,
        Rtcp::App(app) => app.subtype,
        Rtcp::Nack(_) => NACK_FORMAT,
        Rtcp::Pli(_) => PLI_FORMAT,
        Rtcp::Other(other) => other.count,
    }
}

/// Appends a packet without padding. The buffer has the capacity.
///
/// ```text
///  0                   1                   2                   3
///  0 1 2 3 4 5 6 7 8 9 0 1 2 3 4 5 6 7 8 9 0 1 2 3 4 5 6 7 8 9 0 1
/// +-+-+-+-+-+-+-+-+-+-+-+-+-+-+-+-+-+-+-+-+-+-+-+-+-+-+-+-+-+-+-+-+
/// |V=2|P|  count  |      PT       |      length in words - 1      |
/// +-+-+-+-+-+-+-+-+-+-+-+-+-+-+-+-+-+-+-+-+-+-+-+-+-+-+-+-+-+-+-+-+
/// |                             body                              |
/// ```
fn append_packet<A: Allocator, B: Allocator>(packet: &Rtcp<A>, out: &mut Vec<u8, B>)
    requires writable { IsWritable (packet_of packet.now) }
    requires capacity { vec_len out.old + length (written_packet (packet_of packet.now)) ≤ vec_capacity out.old }
    ensures items { out.new.items ≡ out.old.items ++ written_packet (packet_of packet.now) }
    ensures len { vec_len out.new ≡ vec_len out.old + length (written_packet (packet_of packet.now)) }
    ensures capacity { vec_capacity out.old ≤ vec_capacity out.new }
    ensures types { FitsTypes (packet_of packet.now) }
{
    let start = out.len();
    append(&[128 + count_of(packet), type_of(packet), 0, 0], out);
    append_body(packet, out);
    // How long the body is shows once it stands there.
    let [high, low] = (((out.len() - start - 4) / 4) as u16).to_be_bytes();
    put(start + 2, high, out);
    put(start + 3, low, out);
}

/// Appends packets. The buffer has the capacity.
fn append_packets<A: Allocator, B: Allocator>(packets: &[Rtcp<A>], out: &mut Vec<u8, B>)
    requires writable { AllByRecursion IsWritable (packets_of packets.now) }
    requires capacity { vec_len out.old + length (written (packets_of packets.now)) ≤ vec_capacity out.old }
    ensures items { out.new.items ≡ out.old.items ++ written (packets_of packets.now) }
    ensures types { AllByRecursion FitsTypes (packets_of packets.now) }
{
    for packet in packets {
        append_packet(packet, out);
    }
}

/// Appends a compound of these packets to `out` (RFC 3550 section 6.1).
///
/// It has no padding, null fill, and nothing behind the named parts. On an error `out` stays as it was. If `out` has
/// the capacity, the call takes no memory.
pub fn write_compound<A: Allocator, B: Allocator>(
    packets: &[Rtcp<A>],
    out: &mut Vec<u8, B>,
) -> Result<(), WriteFault>
    ensures ok { OnOk result (out.new.items ≡ out.old.items ++ written (packets_of packets.now)) }
    // It reads back as these packets.
    ensures reads { OnOk result (IsCompound (packets_of packets.now) (written (packets_of packets.now))) }
    // What was written can be written.
    ensures writable { OnOk result (AreWritable (packets_of packets.now)) }
    ensures err { OnErr result (out.new.items ≡ out.old.items) }
    // The fault is the first of the first faulty packet.
    ensures fault { IfErr result (λ f. (f ≡ write_faults.OutOfMemory) ⊎ HasWriteFault f (packets_of packets.now)) }
    // Each fault is reported, and that takes no memory.
    ensures told { (f : Fault) → HasWriteFault f (packets_of packets.now) → IsErrOf result f }
    // Only packets that can be written take memory.
    ensures memory { IfErr result (λ f. f ≡ write_faults.OutOfMemory → AreWritable (packets_of packets.now)) }
    // Only a compound that exceeds the capacity takes memory.
    ensures full { IfErr result (λ f. f ≡ write_faults.OutOfMemory
        → vec_capacity out.old < vec_len out.old + length (written (packets_of packets.now))) }
{
    let size = compound_size(packets)?;
    // A size that exceeds a `usize` exceeds the memory too.
    let Ok(size) = usize::try_from(size) else {
        return Err(WriteFault::OutOfMemory);
    };
    out.reserve(size)?;
    append_packets(packets, out);
    Ok(())
}

/// A compound of these packets in a new vector (RFC 3550 section 6.1).
///
/// The caller knows that the packets can be written. So the only error is out of memory.
#[tactic(auto, using(crate::proofs::FirstFaults::writable_has_no_fault))]
pub fn compound_of<A: Allocator, B: Allocator>(
    alloc: A,
    packets: &[Rtcp<B>],
) -> Result<Vec<u8, A>, AllocError>
    requires { AreWritable (packets_of packets.now) }
    ensures items { IfOk result (λ v. v.items ≡ written (packets_of packets.now)) }
    ensures compound { IfOk result (λ v. IsCompound (packets_of packets.now) v.items) }
{
    let mut out = Vec::new(alloc);
    match write_compound(packets, &mut out) {
        Ok(()) => Ok(out),
        Err(WriteFault::OutOfMemory) => Err(AllocError),
        // What can be written has no fault.
        Err(WriteFault::First) => unreachable!(),
        Err(WriteFault::Count) => unreachable!(),
        Err(WriteFault::TooLong) => unreachable!(),
        Err(WriteFault::Kind) => unreachable!(),
    }
}

/// A law: [`read_compound`](crate::read_compound) reads written packets back as themselves. A caller that knows only
/// the octets uses it.
pub fn written_is_compound()
    ensures { (ps : List Packet) → AreWritable ps → AllByRecursion FitsTypes ps → IsCompound ps (written ps) }
{}
