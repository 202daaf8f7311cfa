//! Judges octets: they are a compound, or have a first fault. It takes no memory.

ghost use Rattle.std.specs.Prelude.{◌≡◌, ◌+◌, ◌≤◌, ◌%◌, ◌<◌, ◌++◌, ◌↔◌, ◌⊎◌, true, false, List, length, IsTrue, IfOk};
ghost use Rattle.std.specs.Prelude.{IfErr};
ghost use Rattle.rtcp_codec.specs.Kind.{kind_of};
ghost use Rattle.rtcp_codec.specs.Packet.{Packet};
ghost use Rattle.rtcp_codec.specs.Compound.{size, packet_at, padding_of, body_of, is_padded, IsReport, IsBadPadding};
ghost use Rattle.rtcp_codec.specs.Compound.{IsFirstOf, fault_order, IsWholeReason, IsWholeBody, IsCompound, HasFault};
ghost use Rattle.rtcp_codec.specs.inner.Reading.{IsHead, IsGoodPadding, Takes};

use crate::fault::RtcpFault;
use crate::judging_descriptions::has_chunks;
use crate::kind::{PacketKind, kind_of};

/// The octets of the packet at the front, by its length field.
pub(crate) fn size_at(octets: &[u8]) -> usize
    requires { 4 ≤ length octets.now }
    ensures { result ≡ size octets.now }
{
    4 * (usize::from(u16::from_be_bytes([octets[2], octets[3]])) + 1)
}

/// The octets of padding at the end of a packet. If P is set, the last octet counts them.
fn padding_at(packet: &[u8]) -> usize
    requires { 4 ≤ length packet.now }
    ensures value { result ≡ padding_of packet.now }
    ensures octet { result < 256 }
{
    if packet[0] / 32 % 2 == 1 {
        usize::from(packet[packet.len() - 1])
    } else {
        0
    }
}

/// The octets behind a packet's common header, without padding.
pub(crate) fn body_at(packet: &[u8]) -> &[u8]
    requires { 4 + padding_of packet.now ≤ length packet.now }
    ensures { result.now ≡ body_of packet.now }
{
    &packet[4..packet.len() - padding_at(packet)]
}

/// Whether a packet of this type and count is a report.
fn is_report(pt: u8, count: u8) -> bool
    ensures { IsTrue result ↔ IsReport (kind_of pt count) }
{
    match kind_of(pt, count) {
        PacketKind::Sender | PacketKind::Receiver => true,
        _ => false,
    }
}

/// The packet at the front, by its length field, and the octets behind it. The common header:
///
/// ```text
///  0                   1                   2                   3
///  0 1 2 3 4 5 6 7 8 9 0 1 2 3 4 5 6 7 8 9 0 1 2 3 4 5 6 7 8 9 0 1
/// +-+-+-+-+-+-+-+-+-+-+-+-+-+-+-+-+-+-+-+-+-+-+-+-+-+-+-+-+-+-+-+-+
/// |V=2|P|  count  |      PT       |      length in words - 1      |
/// +-+-+-+-+-+-+-+-+-+-+-+-+-+-+-+-+-+-+-+-+-+-+-+-+-+-+-+-+-+-+-+-+
/// ```
fn split_packet(first: bool, octets: &[u8]) -> Result<(&[u8], &[u8]), RtcpFault>
    ensures err { IfErr result (λ f. IsFirstOf fault_order first f octets.now) }
    ensures head { IfOk result (λ r. IsHead first octets.now) }
    ensures packet { IfOk result (λ r. r.0.now ≡ packet_at octets.now) }
    ensures parts { IfOk result (λ r. octets.now ≡ r.0.now ++ r.1.now) }
{
    if octets.len() < 4 {
        return if first {
            Err(RtcpFault::Short)
        } else {
            Err(RtcpFault::Length)
        };
    }
    if octets[0] / 64 != 2 {
        return Err(RtcpFault::Version);
    }
    if first && !is_report(octets[1], octets[0] % 32) {
        return Err(RtcpFault::First);
    }
    let size = size_at(octets);
    if octets.len() < size {
        return Err(RtcpFault::Length);
    }
    Ok(octets.split_at(size))
}

/// Whether a packet may have its padding: only the last packet has any, and then whole words behind the common
/// header.
fn has_good_padding(last: bool, packet: &[u8]) -> bool
    requires { 4 ≤ length packet.now }
    ensures bad { result ≡ false
        → (is_padded packet.now ≡ true) × ((last ≡ false) ⊎ IsBadPadding (padding_of packet.now) packet.now) }
    ensures good { result ≡ true → IsGoodPadding last (padding_of packet.now) packet.now }
{
    if packet[0] / 32 % 2 != 1 {
        return true;
    }
    let count = padding_at(packet);
    last && count != 0 && count % 4 == 0 && 4 + count <= packet.len()
}

/// Whether a begun reason for leaving is whole.
fn has_reason(octets: &[u8]) -> bool
    ensures { IsTrue result ↔ IsWholeReason octets.now }
{
    match octets {
        [] => true,
        [len, text @ ..] => usize::from(*len) <= text.len(),
    }
}

/// Whether the body of a packet of this type and count has all of its named parts.
fn has_body(pt: u8, count: u8, body: &[u8]) -> bool
    requires { length body.now % 4 ≡ 0 }
    ensures whole { result ≡ true → IsWholeBody (kind_of pt count) count body.now }
    ensures lacks { result ≡ false → ¬ IsWholeBody (kind_of pt count) count body.now }
{
    let len = body.len();
    let parts = usize::from(count);
    match kind_of(pt, count) {
        PacketKind::Sender => len >= 24 + 24 * parts,
        PacketKind::Receiver => len >= 4 + 24 * parts,
        PacketKind::Sdes => has_chunks(count, body),
        PacketKind::Bye => len >= 4 * parts && has_reason(&body[4 * parts..]),
        PacketKind::App | PacketKind::Pli => len >= 8,
        PacketKind::Nack => len >= 12,
        PacketKind::Other => true,
    }
}

/// What follows the packet at the front, or the packet's first fault.
fn judge_packet(first: bool, octets: &[u8]) -> Result<&[u8], RtcpFault>
    ensures ok { IfOk result (λ rest. (p : Packet) × Takes first p octets.now rest.now) }
    ensures err { IfErr result (λ f. IsFirstOf fault_order first f octets.now) }
{
    let (packet, rest) = split_packet(first, octets)?;
    if !has_good_padding(rest.is_empty(), packet) {
        return Err(RtcpFault::Padding);
    }
    if !has_body(packet[1], packet[0] % 32, body_at(packet)) {
        return Err(RtcpFault::Body);
    }
    Ok(rest)
}

/// Whether the octets are a compound, or the first fault of the first packet that has one.
pub(crate) fn judge(octets: &[u8]) -> Result<(), RtcpFault>
    ensures ok { IfOk result (λ _. (ps : List Packet) × IsCompound ps octets.now) }
    ensures err { IfErr result (λ f. HasFault f octets.now) }
{
    let mut rest = judge_packet(true, octets)?;
    while !rest.is_empty() {
        rest = judge_packet(false, rest)?;
    }
    Ok(())
}
