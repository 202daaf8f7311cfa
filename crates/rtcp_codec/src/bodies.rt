//! Reads the bodies of packets.

ghost use Rattle.std.specs.Prelude.{◌≡◌, ◌+◌, ◌*◌, ◌%◌, ◌^◌, ◌<◌, ◌≤◌, ◌++◌, [], ◌∷◌, length, IfOk, IfSome, IfNone};
ghost use Rattle.std.specs.List.{flat_map, AllByRecursion};
ghost use Rattle.rtcp_codec.specs.declared.kind.PacketKind.TheVariants as kinds;
ghost use Rattle.rtcp_codec.specs.Kind.{kind_of, sdes, bye, app, rtpfb, psfb, nack_format, pli_format};
ghost use Rattle.rtcp_codec.specs.Packet.{Begin, Pli as PliPacket};
ghost use Rattle.rtcp_codec.specs.inner.Reading.{IsOf};
ghost use Rattle.rtcp_codec.specs.Compound.{IsWholeBody, IsWholeReason};
ghost use Rattle.rtcp_codec.specs.Nack.{word_octets, FitsWord};
ghost use Rattle.rtcp_codec.specs.View.{packet_of};
ghost use Rattle.rtp_codec.specs.Packet.{number_octets};

use crate::fields::{u16_from, u32_from};
use crate::kind::{PacketKind, kind_of};
use crate::nack::{Nack, NackWord};
use crate::packet::{App, Bye, Other, Pli, Rtcp};
use crate::reading_descriptions::chunks_from;
use crate::reading_reports::{receiver_from, sender_from};
use std::alloc::{AllocError, Allocator};

/// `count` sources at the front, and the octets behind them.
fn ssrcs_from<A: Allocator>(
    alloc: A,
    count: u8,
    octets: &[u8],
) -> Result<(Vec<u32, A>, &[u8]), AllocError>
    requires { 4 * count ≤ length octets.now }
    ensures count { IfOk result (λ r. length r.0.items ≡ count) }
    ensures fits { IfOk result (λ r. AllByRecursion (λ ssrc. ssrc < 2 ^ 32) r.0.items) }
    ensures parts { IfOk result (λ r. octets.now ≡ number_octets r.0.items ++ r.1.now) }
{
    let mut ssrcs = Vec::with_capacity(alloc, usize::from(count))?;
    let mut rest = octets;
    for _ in 0..count {
        let (ssrc, after) = u32_from(rest);
        ssrcs.push(ssrc)?;
        rest = after;
    }
    Ok((ssrcs, rest))
}

/// The reason for leaving at the front. No octet is no reason.
fn reason_from<A: Allocator>(alloc: A, octets: &[u8]) -> Result<Option<Vec<u8, A>>, AllocError>
    requires { IsWholeReason octets.now }
    ensures none { IfOk result (λ r. IfNone r (octets.now ≡ [])) }
    ensures some { IfOk result (λ r. IfSome r (λ v. Begin (length v.items ∷ v.items) octets.now)) }
    ensures fits { IfOk result (λ r. IfSome r (λ v. length v.items < 2 ^ 8)) }
{
    let [len, text @ ..] = octets else {
        return Ok(None);
    };
    let (reason, _) = text.split_at(usize::from(*len));
    Ok(Some(Vec::from_slice(alloc, reason)?))
}

/// The BYE in this body.
fn bye_from<A: Allocator + Copy>(alloc: A, count: u8, body: &[u8]) -> Result<Rtcp<A>, AllocError>
    requires { IsWholeBody kinds.Bye count body.now }
    ensures { IfOk result (λ p. IsOf bye count body.now (packet_of p)) }
{
    let (ssrcs, rest) = ssrcs_from(alloc, count, body)?;
    let reason = reason_from(alloc, rest)?;
    Ok(Rtcp::Bye(Bye { ssrcs, reason }))
}

/// The APP in this body.
fn app_from<A: Allocator>(alloc: A, subtype: u8, body: &[u8]) -> Result<Rtcp<A>, AllocError>
    requires { IsWholeBody kinds.App subtype body.now }
    ensures { IfOk result (λ p. IsOf app subtype body.now (packet_of p)) }
{
    let (ssrc, rest) = u32_from(body);
    let (name, rest) = rest.split_at(4);
    let name = [name[0], name[1], name[2], name[3]];
    let content = Vec::from_slice(alloc, rest)?;
    Ok(Rtcp::App(App {
        subtype,
        ssrc,
        name,
        content,
    }))
}

/// The word of a NACK at the front, and what follows it.
fn word_from(octets: &[u8]) -> (NackWord, &[u8])
    requires { 4 ≤ length octets.now }
    ensures parts { octets.now ≡ word_octets result.0 ++ result.1.now }
    ensures fits { FitsWord result.0 }
    ensures left { length octets.now ≡ 4 + length result.1.now }
{
    let (pid, rest) = u16_from(octets);
    let (blp, rest) = u16_from(rest);
    (NackWord { pid, blp }, rest)
}

/// All the words of a NACK.
fn words_from<A: Allocator>(alloc: A, octets: &[u8]) -> Result<Vec<NackWord, A>, AllocError>
    requires { length octets.now % 4 ≡ 0 }
    ensures fits { IfOk result (λ v. AllByRecursion FitsWord v.items) }
    ensures parts { IfOk result (λ v. octets.now ≡ flat_map word_octets v.items) }
{
    let count = octets.len() / 4;
    let mut words = Vec::with_capacity(alloc, count)?;
    let mut rest = octets;
    for _ in 0..count {
        let (word, after) = word_from(rest);
        words.push(word)?;
        rest = after;
    }
    Ok(words)
}

/// The generic NACK in this body.
fn nack_from<A: Allocator>(alloc: A, body: &[u8]) -> Result<Rtcp<A>, AllocError>
    requires words { length body.now % 4 ≡ 0 }
    requires whole { IsWholeBody kinds.Nack nack_format body.now }
    ensures { IfOk result (λ p. IsOf rtpfb nack_format body.now (packet_of p)) }
{
    let (sender, rest) = u32_from(body);
    let (media, rest) = u32_from(rest);
    let words = words_from(alloc, rest)?;
    Ok(Rtcp::Nack(Nack {
        sender,
        media,
        words,
    }))
}

/// The PLI in this body.
fn pli_from(body: &[u8]) -> Pli
    requires { IsWholeBody kinds.Pli pli_format body.now }
    ensures { IsOf psfb pli_format body.now (PliPacket result.sender result.media) }
{
    let (sender, rest) = u32_from(body);
    let (media, _) = u32_from(rest);
    Pli { sender, media }
}

/// The source descriptions in this body.
fn sdes_from<A: Allocator + Copy>(alloc: A, count: u8, body: &[u8]) -> Result<Rtcp<A>, AllocError>
    requires words { length body.now % 4 ≡ 0 }
    requires whole { IsWholeBody kinds.Sdes count body.now }
    ensures { IfOk result (λ p. IsOf sdes count body.now (packet_of p)) }
{
    Ok(Rtcp::Sdes(chunks_from(alloc, count, body)?))
}

/// The packet of this type and count (or format) in this whole body.
pub(crate) fn packet_from<A: Allocator + Copy>(
    alloc: A,
    pt: u8,
    count: u8,
    body: &[u8],
) -> Result<Rtcp<A>, AllocError>
    requires words { length body.now % 4 ≡ 0 }
    requires whole { IsWholeBody (kind_of pt count) count body.now }
    ensures { IfOk result (λ p. IsOf pt count body.now (packet_of p)) }
{
    match kind_of(pt, count) {
        PacketKind::Sender => sender_from(alloc, count, body),
        PacketKind::Receiver => receiver_from(alloc, count, body),
        PacketKind::Sdes => sdes_from(alloc, count, body),
        PacketKind::Bye => bye_from(alloc, count, body),
        PacketKind::App => app_from(alloc, count, body),
        PacketKind::Nack => nack_from(alloc, body),
        PacketKind::Pli => Ok(Rtcp::Pli(pli_from(body))),
        PacketKind::Other => {
            let body = Vec::from_slice(alloc, body)?;
            Ok(Rtcp::Other(Other { pt, count, body }))
        }
    }
}
