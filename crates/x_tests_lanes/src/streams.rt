//! What lanes send, compared.

use crate::rows::address;
use bridge_core::Egress;
use rtp_codec::Address;

/// What an egress says but for its octets.
#[derive(Clone, Copy)]
struct Head {
    kind: u8,
    version: u64,
    item: u64,
    address: Address,
    ssrc: u32,
    number: u16,
    resent_by: Option<u64>,
}

/// The head of what is no media.
fn plain_head(kind: u8, version: u64, item: u64, address: Address, ssrc: u32) -> Head {
    Head {
        kind,
        version,
        item,
        address,
        ssrc,
        number: 0,
        resent_by: None,
    }
}

fn head_of(egress: &Egress) -> Head {
    match egress {
        Egress::Media {
            version,
            item,
            to,
            ssrc,
            number,
            bytes: _,
            resent_by,
        } => Head {
            number: *number,
            resent_by: *resent_by,
            ..plain_head(0, *version, *item, *to, *ssrc)
        },
        Egress::Control {
            version,
            item,
            to,
            ssrc,
            bytes: _,
        } => plain_head(1, *version, *item, *to, *ssrc),
        Egress::Note {
            version,
            item,
            from,
            note,
        } => plain_head(2, *version, *item, *from, note.out_ssrc),
    }
}

/// The octets of an egress, in two parts.
fn octets_of(egress: &Egress) -> (&[u8], &[u8]) {
    match egress {
        Egress::Media { bytes, .. } => bytes.parts(),
        Egress::Control { bytes, .. } => (&[], bytes.as_slice()),
        Egress::Note { .. } => (&[], &[]),
    }
}

/// The version by which an egress is sent first.
pub fn version_of(egress: &Egress) -> u64 {
    head_of(egress).version
}

/// Whether it is a packet of stream 501 that the second member gets for the first time, by this version and for this
/// item, with this number and these octets.
pub fn is_packet(egress: &Egress, version: u64, item: u64, number: u16, octets: &[u8]) -> bool {
    let (front, rest) = octets_of(egress);
    let head = head_of(egress);
    let split = front.len();
    head.kind == 0
        && head.version == version
        && head.item == item
        && head.address == address(2)
        && head.ssrc == 501
        && head.number == number
        && head.resent_by.is_none()
        && split <= octets.len()
        && front == &octets[..split]
        && rest == &octets[split..]
}
