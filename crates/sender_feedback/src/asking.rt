//! Writes what the bridge asks of a source.

ghost use Rattle.std.specs.Prelude.{◌≡◌, ◌≤◌, ◌++◌, List, length, map, IfOk, OnOk};
ghost use Rattle.rtcp_codec.specs.declared.nack.NackWord.{NackWord};
ghost use Rattle.rtcp_codec.specs.CanonicalName.{IsCname, named};
ghost use Rattle.rtcp_codec.specs.Compound.{written};
ghost use Rattle.rtcp_codec.specs.Nack.{numbers_named, ArePacked, IsPacking};
ghost use Rattle.rtcp_codec.specs.View.{packets_of};
ghost use Rattle.rtcp_codec.specs.WriteFault.{IsWritable};
ghost use Rattle.sender_feedback.specs.Upstream.{seq_of, most_words, nack_of, pli_of, upstream_packets, IsUpstream};

use rtcp_codec::{Nack, NackWord, Pli, ReceiverReport, Rtcp, compound_of, nack_words, named};
use std::alloc::{AllocError, Allocator};

/// The sequence number of an extended number.
fn seq_of(ext: i64) -> u16
    ensures { result ≡ seq_of ext }
{
    ext.rem_euclid(1 << 16) as u16
}

/// The sequence numbers of extended numbers.
fn seqs_of<A: Allocator>(alloc: A, exts: &[i64]) -> Result<Vec<u16, A>, AllocError>
    ensures { IfOk result (λ seqs. seqs.items ≡ map seq_of exts.now) }
{
    let mut seqs = Vec::with_capacity(alloc, exts.len())?;
    for ext in exts {
        seqs.push(seq_of(*ext))?;
    }
    Ok(seqs)
}

/// Appends a NACK of these words, if there are any.
fn push_nack<A: Allocator + Copy>(
    packets: &mut Vec<Rtcp<A>, A>,
    sender: u32,
    media: u32,
    words: Vec<NackWord, A>,
) -> Result<(), AllocError>
    ensures { OnOk result (packets_of packets.new.items
        ≡ packets_of packets.old.items ++ nack_of sender media words.items) }
{
    if words.is_empty() {
        return Ok(());
    }
    packets.push(Rtcp::Nack(Nack {
        sender,
        media,
        words,
    }))?;
    Ok(())
}

/// Appends a PLI, if `pli` says so.
fn push_pli<A: Allocator + Copy>(
    packets: &mut Vec<Rtcp<A>, A>,
    sender: u32,
    media: u32,
    pli: bool,
) -> Result<(), AllocError>
    ensures { OnOk result (packets_of packets.new.items ≡ packets_of packets.old.items ++ pli_of sender media pli) }
{
    if pli {
        packets.push(Rtcp::Pli(Pli { sender, media }))?;
    }
    Ok(())
}

/// The packets for a source.
fn packets_for<A: Allocator + Copy>(
    alloc: A,
    bridge_ssrc: u32,
    cname: &[u8],
    source: u32,
    words: Vec<NackWord, A>,
    pli: bool,
) -> Result<Vec<Rtcp<A>, A>, AllocError>
    requires { IsCname cname.now }
    ensures packets { IfOk result
        (λ packets. packets_of packets.items
        ≡ upstream_packets (record { ssrc = bridge_ssrc; cname = cname.now }) source words.items pli) }
    ensures name { OnOk result (IsWritable (named bridge_ssrc cname.now)) }
{
    let mut packets = Vec::with_capacity(alloc, 4)?;
    packets.push(Rtcp::Receiver(ReceiverReport {
        ssrc: bridge_ssrc,
        blocks: Vec::new(alloc),
    }))?;
    packets.push(named(alloc, bridge_ssrc, cname)?)?;
    push_nack(&mut packets, bridge_ssrc, source, words)?;
    push_pli(&mut packets, bridge_ssrc, source, pli)?;
    Ok(packets)
}

/// The words that name the sequence numbers of extended numbers.
fn words_for<A: Allocator + Copy>(alloc: A, exts: &[i64]) -> Result<Vec<NackWord, A>, AllocError>
    ensures names { IfOk result (λ v. numbers_named v.items ≡ map seq_of exts.now) }
    ensures packed { IfOk result (λ v. ArePacked v.items) }
    ensures only { (words : List NackWord) → IsPacking (map seq_of exts.now) words
        → IfOk result (λ v. v.items ≡ words) }
{
    nack_words(alloc, &seqs_of(alloc, exts)?)
}

/// Writes the compound that goes to a source: an empty receiver report, the bridge's canonical name, a NACK if there
/// are numbers, and a PLI if `pli` says so (RFC 3550 section 6.1, RFC 4585 sections 6.2.1 and 6.3.1).
///
/// `nacks` are extended sequence numbers, at most 65,533. The NACK names their low 16 bits, in this order. The name has
/// 1 to 255 octets. The only error is out of memory.
// A word for each of 65,533 numbers still fits the 16 bits of a packet's length. A gate asks for 255 numbers at most.
pub fn upstream<A: Allocator + Copy>(
    alloc: A,
    bridge_ssrc: u32,
    cname: &[u8],
    source: u32,
    nacks: &[i64],
    pli: bool,
) -> Result<Vec<u8, A>, AllocError>
    requires name { IsCname cname.now }
    requires few { length nacks.now ≤ most_words }
    ensures packed { (words : List NackWord) → IsPacking (map seq_of nacks.now) words
        → IfOk result
        (λ v. v.items
        ≡ written (upstream_packets (record { ssrc = bridge_ssrc; cname = cname.now }) source words pli)) }
    ensures found { IfOk result
        (λ v. (words : List NackWord)
        × IsUpstream (record { ssrc = bridge_ssrc; cname = cname.now }) source nacks.now pli words v.items) }
{
    let words = words_for(alloc, nacks)?;
    let packets = packets_for(alloc, bridge_ssrc, cname, source, words, pli)?;
    compound_of(alloc, &packets)
}
