//! How addresses, codecs and kinds of source are spelt.

ghost use Rattle.std.specs.Prelude.{◌≡◌};
ghost use Rattle.std.specs.Option.{option_map};
ghost use Rattle.desk_text.specs.Addresses.{field_of, address_of};
ghost use Rattle.desk_text.specs.Kinds.{codec_of, media_of};

use crate::number::parse_number;
use crate::words::cut;
use desk_rows::{Codec, Media};
use rtp_codec::Address;

/// The number before the first such octet, and what stands behind it.
#[tactic(auto, unfolding(crate::specs::Addresses::field_of))]
fn field(text: &[u8], octet: u8) -> Option<(u8, &[u8])>
    ensures { option_map (λ x. (x.0, x.1.now)) result ≡ field_of octet text.now }
{
    let Some((front, rest)) = cut(text, octet) else {
        return None;
    };
    match parse_number(front, 255) {
        None => None,
        Some(n) => Some((n as u8, rest)),
    }
}

/// The address that a word spells: four numbers up to 255 with dots between, a colon, and a port up to 65535, all
/// decimal without leading zeros.
#[tactic(auto, unfolding(crate::specs::Addresses::address_of))]
pub fn parse_address(word: &[u8]) -> Option<Address>
    ensures { result ≡ address_of word.now }
{
    let Some((a, rest)) = field(word, b'.') else {
        return None;
    };
    let Some((b, rest)) = field(rest, b'.') else {
        return None;
    };
    let Some((c, rest)) = field(rest, b'.') else {
        return None;
    };
    let Some((d, rest)) = field(rest, b':') else {
        return None;
    };
    match parse_number(rest, 65_535) {
        None => None,
        Some(port) => Some(Address {
            ip: [a, b, c, d],
            port: port as u16,
        }),
    }
}

/// The codec that a word names.
pub(crate) fn parse_codec(word: &[u8]) -> Option<Codec>
    ensures { result ≡ codec_of word.now }
{
    if word == b"pcmu".as_slice() {
        Some(Codec::Pcmu)
    } else if word == b"l16".as_slice() {
        Some(Codec::L16)
    } else {
        None
    }
}

/// The kind of source that a word names.
pub(crate) fn parse_media(word: &[u8]) -> Option<Media>
    ensures { result ≡ media_of word.now }
{
    if word == b"audio".as_slice() {
        Some(Media::Audio)
    } else if word == b"video".as_slice() {
        Some(Media::Video)
    } else {
        None
    }
}
