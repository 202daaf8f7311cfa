//! Checks what can be written, and counts its octets.

ghost use Rattle.std.specs.Prelude.{◌≡◌, ◌≢◌, ◌+◌, ◌*◌, ◌%◌, ◌≤◌, ◌⊎◌, true, false, IfSome, IfNone, IfOk, IfErr};
ghost use Rattle.std.specs.Prelude.{length, map};
ghost use Rattle.std.specs.Option.{option_map};
ghost use Rattle.rtcp_codec.specs.declared.fault.WriteFault.TheVariants as write_faults;
ghost use Rattle.std.specs.List.{flat_map, AllByRecursion};
ghost use Rattle.rtcp_codec.specs.Compound.{written, BeginsWithReport};
ghost use Rattle.rtcp_codec.specs.Description.{item_octets, chunk_octets, filled, most_text, TextsFit, ItemsTold};
ghost use Rattle.rtcp_codec.specs.Packet.{fields, reason_octets, CountFits, PartsFit, MeaningFits};
ghost use Rattle.rtcp_codec.specs.Report.{FitsLost};
ghost use Rattle.rtcp_codec.specs.View.{item_of, chunk_of, packet_of, packets_of};
ghost use Rattle.rtcp_codec.specs.WriteFault.{most_octets, LengthFits, IsWritable, AreWritable, IsFirstFault};
ghost use Rattle.rtcp_codec.specs.WriteFault.{HasWriteFault};

use crate::description::{SdesChunk, SdesItem};
use crate::fault::WriteFault;
use crate::kind::{PacketKind, kind_of};
use crate::packet::{App, Rtcp};
use crate::report::ReportBlock;
use std::alloc::Allocator;

/// The largest count of the common header, which has five bits for it.
const MOST_COUNT: usize = 31;

/// The longest text or reason, whose length is one octet.
const MOST_TEXT: usize = 255;

/// The most octets of a body. The length field has 16 bits, and counts the words behind the common header.
const MOST_OCTETS: usize = 4 * 65535;

/// The least and the greatest loss that fit 24 bits.
const LEAST_LOST: i32 = -8_388_608;

const MOST_LOST: i32 = 8_388_607;

/// Whether a packet's count fits its field: at most 31, and at least one word of a NACK.
fn has_count<A: Allocator>(packet: &Rtcp<A>) -> bool
    ensures good { result ≡ true → CountFits (packet_of packet.now) }
    ensures bad { result ≡ false → ¬ CountFits (packet_of packet.now) }
{
    match packet {
        Rtcp::Sender(report) => report.blocks.len() <= MOST_COUNT,
        Rtcp::Receiver(report) => report.blocks.len() <= MOST_COUNT,
        Rtcp::Sdes(chunks) => chunks.len() <= MOST_COUNT,
        Rtcp::Bye(bye) => bye.ssrcs.len() <= MOST_COUNT,
        Rtcp::App(app) => usize::from(app.subtype) <= MOST_COUNT,
        Rtcp::Nack(nack) => !nack.words.is_empty(),
        Rtcp::Pli(_) => true,
        Rtcp::Other(other) => usize::from(other.count) <= MOST_COUNT,
    }
}

/// The octets of items. `None` if a text is over 255 octets, or there are too many.
fn items_size<A: Allocator>(items: &[SdesItem<A>]) -> Option<usize>
    ensures size { IfSome result (λ n. n ≡ length (flat_map item_octets (map item_of items.now))) }
    ensures texts { IfSome result (λ n. TextsFit (map item_of items.now)) }
    ensures none { IfNone result (¬ (TextsFit (map item_of items.now)
        × (length (flat_map item_octets (map item_of items.now)) ≤ most_octets))) }
    ensures most { IfSome result (λ n. n ≤ most_octets) }
{
    let mut size = 0;
    for item in items {
        let len = item.text.len();
        if len > MOST_TEXT || size + 2 + len > MOST_OCTETS {
            return None;
        }
        size += 2 + len;
    }
    Some(size)
}

/// The octets of a chunk with its fill. `None` if a text is over 255 octets, or there are too many.
fn chunk_size<A: Allocator>(chunk: &SdesChunk<A>) -> Option<usize>
    ensures size { IfSome result (λ n. n ≡ length (filled (chunk_octets (chunk_of chunk.now)))) }
    ensures texts { IfSome result (λ n. TextsFit (chunk_of chunk.now).items) }
    ensures none { IfNone result (¬ (TextsFit (chunk_of chunk.now).items
        × (length (filled (chunk_octets (chunk_of chunk.now))) ≤ most_octets))) }
    ensures most { IfSome result (λ n. n ≤ most_octets + 8) }
{
    let size = items_size(&chunk.items)?;
    Some((4 + size + 1 + 3) / 4 * 4)
}

/// The octets of chunks. `None` if a text is over 255 octets, or there are too many.
fn chunks_size<A: Allocator>(chunks: &[SdesChunk<A>]) -> Option<usize>
    ensures size { IfSome result (λ n. n ≡ length (flat_map (λ c. filled (chunk_octets c)) (map chunk_of chunks.now))) }
    ensures texts { IfSome result (λ n. AllByRecursion (λ c. TextsFit c.items) (map chunk_of chunks.now)) }
    ensures none { IfNone result (¬ (AllByRecursion (λ c. TextsFit c.items) (map chunk_of chunks.now)
        × (length (flat_map (λ c. filled (chunk_octets c)) (map chunk_of chunks.now)) ≤ most_octets))) }
    ensures most { IfSome result (λ n. n ≤ most_octets) }
{
    let mut size = 0;
    for chunk in chunks {
        let more = chunk_size(chunk)?;
        if size + more > MOST_OCTETS {
            return None;
        }
        size += more;
    }
    Some(size)
}

/// The octets of a reason with its length. `None` if it is over 255 octets.
fn reason_size<A: Allocator>(reason: &Option<Vec<u8, A>>) -> Option<usize>
    ensures size { IfSome result (λ n. n ≡ length (reason_octets (option_map (λ v. v.items) reason.now))) }
    ensures text { IfSome result
        (λ n. IfSome (option_map (λ v. v.items) reason.now) (λ text. length text ≤ most_text)) }
    ensures none { IfNone result (¬ (IfSome (option_map (λ v. v.items) reason.now) (λ text. length text ≤ most_text))) }
    ensures most { IfSome result (λ n. n ≤ 1 + most_text) }
{
    match reason {
        None => Some(0),
        Some(text) if text.len() > MOST_TEXT => None,
        Some(text) => Some(1 + text.len()),
    }
}

/// The octets of a packet's fields. `None` if a text or reason is over 255 octets, a content or body isn't whole
/// words, or there are too many.
#[tactic(auto, using(crate::proofs::Lists::field_lengths))]
fn fields_size<A: Allocator>(packet: &Rtcp<A>) -> Option<usize>
    requires { CountFits (packet_of packet.now) }
    ensures size { IfSome result (λ n. n ≡ length (fields (packet_of packet.now))) }
    ensures parts { IfSome result (λ n. PartsFit (packet_of packet.now)) }
    ensures none { IfNone result (¬ (PartsFit (packet_of packet.now)
        × (length (fields (packet_of packet.now)) ≤ most_octets))) }
    ensures most { IfSome result (λ n. n ≤ most_octets) }
{
    match packet {
        Rtcp::Sender(report) => Some(24 + 24 * report.blocks.len()),
        Rtcp::Receiver(report) => Some(4 + 24 * report.blocks.len()),
        Rtcp::Sdes(chunks) => chunks_size(chunks),
        Rtcp::Bye(bye) => {
            let reason = reason_size(&bye.reason)?;
            Some(4 * bye.ssrcs.len() + reason)
        }
        Rtcp::App(app) => app_size(app),
        Rtcp::Nack(nack) => {
            let count = nack.words.len();
            if count <= (MOST_OCTETS - 8) / 4 {
                Some(8 + 4 * count)
            } else {
                None
            }
        }
        Rtcp::Pli(_) => Some(8),
        Rtcp::Other(other) => whole_words(0, &other.body),
    }
}

/// The octets of an application's packet. `None` if its content isn't whole words or is too long.
fn app_size<A: Allocator>(app: &App<A>) -> Option<usize>
    ensures size { IfSome result (λ n. n ≡ 4 + (length app.now.name + length app.now.content.items)) }
    ensures whole { IfSome result (λ n. length app.now.content.items % 4 ≡ 0) }
    ensures none { IfNone result (¬ ((length app.now.content.items % 4 ≡ 0)
        × (4 + (length app.now.name + length app.now.content.items) ≤ most_octets))) }
    ensures most { IfSome result (λ n. n ≤ most_octets) }
{
    whole_words(4 + app.name.len(), &app.content)
}

/// `before` and the number of these octets together. `None` if these aren't whole words, or there are too many.
fn whole_words(before: usize, octets: &[u8]) -> Option<usize>
    requires { before ≤ 8 }
    ensures size { IfSome result (λ n. n ≡ before + length octets.now) }
    ensures whole { IfSome result (λ n. length octets.now % 4 ≡ 0) }
    ensures none { IfNone result (¬ ((length octets.now % 4 ≡ 0) × (before + length octets.now ≤ most_octets))) }
    ensures most { IfSome result (λ n. n ≤ most_octets) }
{
    let len = octets.len();
    if len % 4 == 0 && len <= MOST_OCTETS - before {
        Some(before + len)
    } else {
        None
    }
}

/// The octets of the written body, with its fill.
fn body_size<A: Allocator>(packet: &Rtcp<A>) -> Option<usize>
    requires { CountFits (packet_of packet.now) }
    ensures size { IfSome result (λ n. n ≡ length (filled (fields (packet_of packet.now)))) }
    ensures fits { IfSome result (λ n. LengthFits (packet_of packet.now)) }
    ensures none { IfNone result (¬ (LengthFits (packet_of packet.now))) }
    ensures most { IfSome result (λ n. n ≤ most_octets) }
{
    let size = fields_size(packet)?;
    let filled = (size + 3) / 4 * 4;
    if filled <= MOST_OCTETS {
        Some(filled)
    } else {
        None
    }
}

/// Whether each loss fits 24 bits.
fn has_losses(blocks: &[ReportBlock]) -> bool
    ensures good { result ≡ true → AllByRecursion (λ b. FitsLost b.lost) blocks.now }
    ensures bad { result ≡ false → ¬ (AllByRecursion (λ b. FitsLost b.lost) blocks.now) }
{
    for block in blocks {
        if block.lost < LEAST_LOST || block.lost > MOST_LOST {
            return false;
        }
    }
    true
}

/// Whether no item is of type 0, which would end the items.
fn has_items<A: Allocator>(items: &[SdesItem<A>]) -> bool
    ensures good { result ≡ true → ItemsTold (map item_of items.now) }
    ensures bad { result ≡ false → ¬ (ItemsTold (map item_of items.now)) }
{
    for item in items {
        if item.kind == 0 {
            return false;
        }
    }
    true
}

/// Whether no chunk has an item of type 0.
fn has_chunks<A: Allocator>(chunks: &[SdesChunk<A>]) -> bool
    ensures good { result ≡ true → AllByRecursion (λ c. ItemsTold c.items) (map chunk_of chunks.now) }
    ensures bad { result ≡ false → ¬ (AllByRecursion (λ c. ItemsTold c.items) (map chunk_of chunks.now)) }
{
    for chunk in chunks {
        if !has_items(&chunk.items) {
            return false;
        }
    }
    true
}

/// Whether each value reads back as it is: losses fit 24 bits, no item has type 0, and an `Other` is of no other
/// kind.
fn has_meaning<A: Allocator>(packet: &Rtcp<A>) -> bool
    ensures good { result ≡ true → MeaningFits (packet_of packet.now) }
    ensures bad { result ≡ false → ¬ (MeaningFits (packet_of packet.now)) }
{
    match packet {
        Rtcp::Sender(report) => has_losses(&report.blocks),
        Rtcp::Receiver(report) => has_losses(&report.blocks),
        Rtcp::Sdes(chunks) => has_chunks(chunks),
        Rtcp::Bye(_) | Rtcp::App(_) | Rtcp::Nack(_) | Rtcp::Pli(_) => true,
        Rtcp::Other(other) => kind_of(other.pt, other.count) == PacketKind::Other,
    }
}

/// The octets of the written packet's body, or the packet's first fault.
fn packet_size<A: Allocator>(packet: &Rtcp<A>) -> Result<usize, WriteFault>
    ensures writable { IfOk result (λ n. IsWritable (packet_of packet.now)) }
    ensures size { IfOk result (λ n. n ≡ length (filled (fields (packet_of packet.now)))) }
    ensures most { IfOk result (λ n. n ≤ most_octets) }
    ensures err { IfErr result (λ f. IsFirstFault f (packet_of packet.now)) }
    ensures fault { IfErr result (λ f. f ≢ write_faults.OutOfMemory) }
{
    if !has_count(packet) {
        return Err(WriteFault::Count);
    }
    let Some(size) = body_size(packet) else {
        return Err(WriteFault::TooLong);
    };
    if !has_meaning(packet) {
        return Err(WriteFault::Kind);
    }
    Ok(size)
}

/// Whether a compound may begin with this packet.
fn begins_with_report<A: Allocator>(packets: &[Rtcp<A>]) -> bool
    ensures good { result ≡ true → BeginsWithReport (packets_of packets.now) }
    ensures bad { result ≡ false → ¬ BeginsWithReport (packets_of packets.now) }
{
    match packets {
        [] => false,
        [first, ..] => matches!(first, Rtcp::Sender(_) | Rtcp::Receiver(_)),
    }
}

/// The octets of the written packets, which may exceed a `usize`, or the first fault.
pub(crate) fn compound_size<A: Allocator>(packets: &[Rtcp<A>]) -> Result<u128, WriteFault>
    ensures writable { IfOk result (λ n. AreWritable (packets_of packets.now)) }
    ensures size { IfOk result (λ n. n ≡ length (written (packets_of packets.now))) }
    ensures err { IfErr result (λ f. HasWriteFault f (packets_of packets.now)) }
    ensures fault { IfErr result (λ f. f ≢ write_faults.OutOfMemory) }
{
    if !begins_with_report(packets) {
        return Err(WriteFault::First);
    }
    let mut total: u128 = 0;
    for packet in packets {
        let size = packet_size(packet)?;
        total += 4 + size as u128;
    }
    Ok(total)
}
