//! RTP and RTCP on one port (RFC 5761 section 4).

ghost use Rattle.std.specs.Prelude.{◌≡◌};
ghost use Rattle.rtp_codec.specs.Class.{class_of};

/// What a datagram is, judged by its first two octets.
#[derive(Clone, Copy, PartialEq, Eq)]
pub enum Class {
    /// An RTP packet, or what has to be read as one.
    Rtp,
    /// RTCP: the second octet is 192 to 223.
    Rtcp,
    /// Under two octets, or another version than 2.
    Neither,
}

/// Tells RTP from RTCP by the first two octets of a datagram (RFC 5761 section 4).
///
/// Packet types 192 to 223 are RTCP. So an RTP packet with the marker and payload type 64 to 95 counts as RTCP.
pub fn classify(octets: &[u8]) -> Class
    ensures { result ≡ class_of octets.now }
{
    match octets {
        [128..=191, 192..=223, ..] => Class::Rtcp,
        [128..=191, _, ..] => Class::Rtp,
        _ => Class::Neither,
    }
}
