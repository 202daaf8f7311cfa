//! The kinds of RTCP packets, by packet type and count.

ghost use Rattle.std.specs.Prelude.{◌≡◌};
ghost use Rattle.rtcp_codec.specs.Kind.{kind_of};

/// The packet types (RFC 3550 section 12.1, RFC 4585 section 6.1).
pub(crate) const SR: u8 = 200;

pub(crate) const RR: u8 = 201;

pub(crate) const SDES: u8 = 202;

pub(crate) const BYE: u8 = 203;

pub(crate) const APP: u8 = 204;

pub(crate) const RTPFB: u8 = 205;

pub(crate) const PSFB: u8 = 206;

/// The formats of a generic NACK and of a picture loss indication (RFC 4585 sections 6.2.1 and 6.3.1).
pub(crate) const NACK_FORMAT: u8 = 1;

pub(crate) const PLI_FORMAT: u8 = 1;

/// The kinds of RTCP packets with a variant of their own, and all others.
#[derive(Clone, Copy, PartialEq, Eq)]
pub(crate) enum PacketKind {
    Sender,
    Receiver,
    Sdes,
    Bye,
    App,
    Nack,
    Pli,
    Other,
}

/// The kind of a packet with this type and count. The count of a feedback packet is its format.
pub(crate) fn kind_of(pt: u8, count: u8) -> PacketKind
    ensures { result ≡ kind_of pt count }
{
    match (pt, count) {
        (SR, _) => PacketKind::Sender,
        (RR, _) => PacketKind::Receiver,
        (SDES, _) => PacketKind::Sdes,
        (BYE, _) => PacketKind::Bye,
        (APP, _) => PacketKind::App,
        (RTPFB, NACK_FORMAT) => PacketKind::Nack,
        (PSFB, PLI_FORMAT) => PacketKind::Pli,
        _ => PacketKind::Other,
    }
}
