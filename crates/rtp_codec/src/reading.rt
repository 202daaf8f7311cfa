//! Reading RTP packets.

ghost use Rattle.std.specs.Prelude.{◌≡◌, ℕ, ◌++◌, true, false, List, length, drop, slice_index, is_some, nat_lt, IfOk};
ghost use Rattle.std.specs.Prelude.{IfSome, IsOkAnd, MatchOption, MatchResult, Some, None};
ghost use Rattle.rtp_codec.specs.Packet.{Packet, IsPacket, IsPadding, FitsHeader, FitsExtension, second_octet};
ghost use Rattle.rtp_codec.specs.Packet.{number_fields, extension_octets};
ghost use Rattle.rtp_codec.specs.Fault.{first_fault, lacks_extension, behind_extension, lacks_padding};
ghost use Rattle.rtp_codec.specs.View.{packet_of, extension_of};

use crate::fault::RtpFault;
use crate::view::RtpView;
use crate::writing::Header;

/// The fields of the fixed header, but for those of its first octet:
///
/// ```text
///  0                   1                   2                   3
///  0 1 2 3 4 5 6 7 8 9 0 1 2 3 4 5 6 7 8 9 0 1 2 3 4 5 6 7 8 9 0 1
/// +-+-+-+-+-+-+-+-+-+-+-+-+-+-+-+-+-+-+-+-+-+-+-+-+-+-+-+-+-+-+-+-+
/// |V=2|P|X|  CC   |M|     PT      |       sequence number         |
/// +-+-+-+-+-+-+-+-+-+-+-+-+-+-+-+-+-+-+-+-+-+-+-+-+-+-+-+-+-+-+-+-+
/// |                           timestamp                           |
/// +-+-+-+-+-+-+-+-+-+-+-+-+-+-+-+-+-+-+-+-+-+-+-+-+-+-+-+-+-+-+-+-+
/// |                             SSRC                              |
/// +-+-+-+-+-+-+-+-+-+-+-+-+-+-+-+-+-+-+-+-+-+-+-+-+-+-+-+-+-+-+-+-+
/// ```
fn header_of(fixed: &[u8]) -> Header
    requires { length fixed.now ≡ 12 }
    ensures second { second_octet result ≡ slice_index fixed.now 1 }
    ensures numbers { number_fields result ≡ drop 2 fixed.now }
    ensures fits { FitsHeader result }
{
    let second = fixed[1];
    Header {
        marker: second >= 128,
        pt: second % 128,
        seq: u16::from_be_bytes([fixed[2], fixed[3]]),
        ts: u32::from_be_bytes([fixed[4], fixed[5], fixed[6], fixed[7]]),
        ssrc: u32::from_be_bytes([fixed[8], fixed[9], fixed[10], fixed[11]]),
    }
}

/// The header extension, if the packet has one, and the octets behind it:
///
/// ```text
///  0                   1                   2                   3
///  0 1 2 3 4 5 6 7 8 9 0 1 2 3 4 5 6 7 8 9 0 1 2 3 4 5 6 7 8 9 0 1
/// +-+-+-+-+-+-+-+-+-+-+-+-+-+-+-+-+-+-+-+-+-+-+-+-+-+-+-+-+-+-+-+-+
/// |      defined by profile       |       number of words         |
/// +-+-+-+-+-+-+-+-+-+-+-+-+-+-+-+-+-+-+-+-+-+-+-+-+-+-+-+-+-+-+-+-+
/// |                             words                             |
/// ```
fn split_extension(extended: bool, octets: &[u8]) -> Option<(Option<(u16, &[u8])>, &[u8])>
    ensures lacks { MatchOption result (lacks_extension extended octets.now ≡ true)
        (λ r. lacks_extension extended octets.now ≡ false) }
    ensures parts { IfSome result (λ r. octets.now ≡ extension_octets (extension_of r.0) ++ r.1.now) }
    ensures behind { IfSome result (λ r. r.1.now ≡ behind_extension extended octets.now) }
    ensures extended { IfSome result (λ r. is_some (extension_of r.0) ≡ extended) }
    ensures fits { IfSome result (λ r. FitsExtension (extension_of r.0)) }
{
    if !extended {
        return Some((None, octets));
    }
    if octets.len() < 4 {
        return None;
    }
    let (front, rest) = octets.split_at(4);
    let profile = u16::from_be_bytes([front[0], front[1]]);
    let words = u16::from_be_bytes([front[2], front[3]]);
    let size = 4 * usize::from(words);
    if rest.len() < size {
        return None;
    }
    let (words, rest) = rest.split_at(size);
    Some((Some((profile, words)), rest))
}

/// The payload, and the number of octets of padding behind it.
fn split_padding(padded: bool, octets: &[u8]) -> Option<(&[u8], u8)>
    ensures lacks { MatchOption result (lacks_padding padded octets.now ≡ true)
        (λ r. lacks_padding padded octets.now ≡ false) }
    ensures parts { IfSome result
        (λ r. (padding : List ℕ) × IsPadding r.1 padding × (octets.now ≡ r.0.now ++ padding)) }
    ensures padded { IfSome result (λ r. nat_lt 0 r.1 ≡ padded) }
{
    if !padded {
        return Some((octets, 0));
    }
    let count = *octets.last()?;
    let len = octets.len();
    if count == 0 || len < usize::from(count) {
        return None;
    }
    let (payload, _) = octets.split_at(len - usize::from(count));
    Some((payload, count))
}

/// The packet of a datagram, or the datagram's first fault.
#[tactic(auto, unfolding(crate::specs::Fault::first_fault))]
fn parse(octets: &[u8]) -> Result<RtpView<'_>, RtpFault>
    ensures found { IfOk result (λ v. IsPacket (packet_of v) octets.now) }
    ensures fault { MatchResult result (λ v. first_fault octets.now ≡ None) (λ f. first_fault octets.now ≡ Some f) }
{
    if octets.len() < 12 {
        return Err(RtpFault::Short);
    }
    let (fixed, rest) = octets.split_at(12);
    let first = fixed[0];
    if first / 64 != 2 {
        return Err(RtpFault::Version);
    }
    if rest.len() < 4 * usize::from(first % 16) {
        return Err(RtpFault::Csrc);
    }
    let (csrcs, rest) = rest.split_at(4 * usize::from(first % 16));
    let Some((extension, rest)) = split_extension(first / 16 % 2 == 1, rest) else {
        return Err(RtpFault::Extension);
    };
    let Some((payload, padding)) = split_padding(first / 32 % 2 == 1, rest) else {
        return Err(RtpFault::Padding);
    };
    let header = header_of(fixed);
    Ok(RtpView {
        marker: header.marker,
        pt: header.pt,
        seq: header.seq,
        ts: header.ts,
        ssrc: header.ssrc,
        csrcs,
        extension,
        payload,
        padding,
    })
}

/// Reads the RTP packet of a datagram (RFC 3550 section 5.1), without copying.
///
/// An empty payload is accepted. A datagram that is no packet gives its first fault, in the order of [`RtpFault`].
pub fn read(octets: &[u8]) -> Result<RtpView<'_>, RtpFault>
    // The octets are those of this packet.
    ensures found { IfOk result (λ v. IsPacket (packet_of v) octets.now) }
    // Each packet is read, as itself and as no other.
    ensures only { (p : Packet) → IsPacket p octets.now → IsOkAnd result (λ v. packet_of v ≡ p) }
    // The fault is the first that holds.
    ensures fault { MatchResult result (λ v. first_fault octets.now ≡ None) (λ f. first_fault octets.now ≡ Some f) }
{
    parse(octets)
}
