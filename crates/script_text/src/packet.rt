//! The packets of `frame` lines.

ghost use Rattle.std.specs.Prelude.{◌+◌, ◌==◌, ◌≤◌};
ghost use Rattle.std.specs.List.{slice_split};
ghost use Rattle.desk_text.specs.Words.{Gives, words_in, size_of};
ghost use Rattle.script_text.specs.Packets.{octets_or, packet_from, packet_of, source_packets_of};
ghost use Rattle.hex.specs.Hex.{decode_of};
ghost use Rattle.script_text.specs.inner.Cursor.{are_parts, TakesPacket};

use crate::line::ITEM_LIMIT;
use bridge_core::FramePacket;
use bytes::Bytes;
use desk_text::{Fault, ParseFault, cut, first_word, parse_ext, parse_number};
use hex::FromHexError;
use std::alloc::Allocator;

/// The octets that a word spells in hexadecimal. An empty word spells none.
pub(crate) fn octets<A: Allocator + Copy>(
    alloc: A,
    word: &[u8],
    place: u32,
) -> Result<Vec<u8, A>, ParseFault>
    ensures { Gives (λ v. v.items) result (octets_or place (decode_of word.now)) }
{
    match hex::decode(alloc, word) {
        Ok(octets) => Ok(octets),
        Err(FromHexError::OutOfMemory) => Err(ParseFault::OutOfMemory),
        Err(_) => Err(Fault::BadHex.at(place)),
    }
}

/// The octets of a payload.
fn payload<A: Allocator + Copy>(alloc: A, word: &[u8], place: u32) -> Result<Bytes<A>, ParseFault>
    ensures { Gives (λ x. x) result (octets_or place (decode_of word.now)) }
{
    match Bytes::from_vec(octets(alloc, word, place)?) {
        Ok(bytes) => Ok(bytes),
        Err(_) => Err(ParseFault::OutOfMemory),
    }
}

/// The four words between the slashes of a packet's word.
#[derive(Clone, Copy)]
struct Parts<'a> {
    ext: &'a [u8],
    marker: &'a [u8],
    pt: &'a [u8],
    payload: &'a [u8],
}

/// What stands between the slashes of a word, if it has four parts.
fn four_parts(word: &[u8]) -> Option<Parts<'_>>
    ensures { are_parts result (slice_split (λ b. b == 47) word.now) }
{
    let Some((ext, rest)) = cut(word, b'/') else {
        return None;
    };
    let Some((marker, rest)) = cut(rest, b'/') else {
        return None;
    };
    let Some((pt, payload)) = cut(rest, b'/') else {
        return None;
    };
    match cut(payload, b'/') {
        Some(_) => None,
        None => Some(Parts {
            ext,
            marker,
            pt,
            payload,
        }),
    }
}

/// The packet of these parts of the word at this place.
#[tactic(auto, unfolding(crate::specs::Packets::packet_from))]
fn packet_from<A: Allocator + Copy>(
    alloc: A,
    parts: Parts<'_>,
    place: u32,
) -> Result<FramePacket<A>, ParseFault>
    ensures { Gives (λ x. x) result
        (packet_from place parts.entry.ext.now parts.entry.marker.now parts.entry.pt.now parts.entry.payload.now) }
{
    let Some(ext) = parse_ext(parts.ext) else {
        return Err(Fault::BadNumber.at(place));
    };
    let Some(marker) = parse_number(parts.marker, 1) else {
        return Err(Fault::BadNumber.at(place));
    };
    let Some(pt) = parse_number(parts.pt, 255) else {
        return Err(Fault::BadNumber.at(place));
    };
    let payload = payload(alloc, parts.payload, place)?;
    Ok(FramePacket {
        ext,
        marker: marker == 1,
        pt: pt as u8,
        payload,
    })
}

/// The packet that the word at this place spells.
fn packet<A: Allocator + Copy>(
    alloc: A,
    word: &[u8],
    place: u32,
) -> Result<FramePacket<A>, ParseFault>
    ensures { Gives (λ x. x) result (packet_of place word.now) }
{
    match four_parts(word) {
        None => Err(Fault::BadHex.at(place)),
        Some(parts) => packet_from(alloc, parts, place),
    }
}

/// Reads the packet at this place behind the others.
fn take_packet<A: Allocator + Copy>(
    alloc: A,
    word: &[u8],
    place: u32,
    packets: &mut Vec<FramePacket<A>, A>,
) -> Result<(), ParseFault>
    ensures { TakesPacket place word.now packets.old.items packets.new.items result }
{
    let packet = packet(alloc, word, place)?;
    match packets.push(packet) {
        Ok(()) => Ok(()),
        Err(_) => Err(ParseFault::OutOfMemory),
    }
}

/// The packets that the words of a line spell from this place on.
pub(crate) fn packets<A: Allocator + Copy>(
    alloc: A,
    first: u32,
    words: Option<&[u8]>,
) -> Result<Vec<FramePacket<A>, A>, ParseFault>
    requires place { first ≤ 8 }
    requires short { size_of words ≤ ITEM_LIMIT + 1 }
    ensures { Gives (λ v. v.items) result (source_packets_of first (words_in words.entry)) }
{
    let mut packets = Vec::new(alloc);
    let mut left = words;
    let mut place = first;
    while let Some(text) = left {
        let (word, rest) = first_word(text);
        if let Err(fault) = take_packet(alloc, word, place, &mut packets) {
            return Err(fault);
        }
        place += 1;
        left = rest;
    }
    Ok(packets)
}
