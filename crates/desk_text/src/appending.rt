//! Appending lines to a text.

ghost use Rattle.std.specs.Prelude.{◌≡◌, ◌∷◌, ◌++◌, [], decimal, map};
ghost use Rattle.std.specs.Fmt.{signed_decimal};
ghost use Rattle.hex.specs.Hex.{encode_lower};
ghost use Rattle.rtp_codec.specs.Address.{address_text};
ghost use Rattle.desk_text.specs.Kinds.{codec_text, media_text};
ghost use Rattle.desk_text.specs.Values.{value_text};
ghost use Rattle.desk_text.specs.Text.{word_text, line_text, fixed};
ghost use Rattle.sample_codecs.specs.L16.{octets_in as sample_octets, octets_of};
ghost use Rattle.desk_text.specs.Numbers.{pair_octets, pairs_octets};
ghost use Rattle.desk_text.specs.Shown.{said, slashed, spelt_packet};
ghost use Rattle.desk_text.specs.inner.Growing.{buffer_of, Grows};

use crate::value::Value;
use desk_rows::{Codec, Media};
use itoa::Buffer;
use rtp_codec::Address;
use sample_codecs::encode_l16;
use std::alloc::{AllocError, Allocator};

/// A word of a line that goes out.
#[derive(Clone, Copy)]
pub enum Word<'a> {
    Value(Value),
    /// As it stands.
    Fixed(&'a [u8]),
    /// A number with its sign.
    Signed(i64),
    /// Octets in hexadecimal.
    Hex(&'a [u8]),
    /// The same, of octets in two parts.
    Parts(&'a [u8], &'a [u8]),
    /// The same, of samples, two octets each.
    Samples(&'a [i16]),
    /// The same, of numbers, two octets each.
    Numbers(&'a [u16]),
    /// A packet of a frame.
    Packet {
        ext: i64,
        marker: bool,
        pt: u8,
        payload: &'a [u8],
    },
}

impl Default for Word<'_> {
    fn default() -> Self {
        Word::Fixed(b"")
    }
}

/// Appends a text.
pub(crate) fn append<A: Allocator>(text: &[u8], out: &mut Vec<u8, A>) -> Result<(), AllocError>
    ensures { Grows (buffer_of out.old) (buffer_of out.new) text.now result }
{
    out.extend_from_slice(text)
}

/// Appends a number.
pub(crate) fn append_number<A: Allocator>(
    number: u64,
    out: &mut Vec<u8, A>,
) -> Result<(), AllocError>
    ensures { Grows (buffer_of out.old) (buffer_of out.new) (decimal number) result }
{
    let mut buffer = Buffer::new();
    append(buffer.format(number).as_bytes(), out)
}

/// Appends a number with a `-` in front where it is below 0.
fn append_signed<A: Allocator>(number: i64, out: &mut Vec<u8, A>) -> Result<(), AllocError>
    ensures { Grows (buffer_of out.old) (buffer_of out.new) (signed_decimal number) result }
{
    let mut buffer = Buffer::new();
    append(buffer.format(number).as_bytes(), out)
}

/// Appends a number and a mark behind it.
pub(crate) fn append_part<A: Allocator>(
    number: u64,
    mark: u8,
    out: &mut Vec<u8, A>,
) -> Result<(), AllocError>
    ensures { Grows (buffer_of out.old) (buffer_of out.new) (decimal number ++ mark ∷ []) result }
{
    append_number(number, out)?;
    append(&[mark], out)
}

fn append_address<A: Allocator>(address: Address, out: &mut Vec<u8, A>) -> Result<(), AllocError>
    ensures { Grows (buffer_of out.old) (buffer_of out.new) (address_text address) result }
{
    let text = address.text();
    append(text.as_str().as_bytes(), out)
}

fn codec_text(codec: Codec) -> &'static [u8]
    ensures { result.now ≡ codec_text codec }
{
    match codec {
        Codec::Pcmu => b"pcmu",
        Codec::L16 => b"l16",
    }
}

fn media_text(media: Media) -> &'static [u8]
    ensures { result.now ≡ media_text media }
{
    match media {
        Media::Audio => b"audio",
        Media::Video => b"video",
    }
}

/// Appends a value.
pub(crate) fn append_value<A: Allocator>(
    value: Value,
    out: &mut Vec<u8, A>,
) -> Result<(), AllocError>
    ensures { Grows (buffer_of out.old) (buffer_of out.new) (value_text value) result }
{
    match value {
        Value::U16(n) => append_number(u64::from(n), out),
        Value::U32(n) => append_number(u64::from(n), out),
        Value::U64(n) => append_number(n, out),
        Value::Operator(n) => append_number(u64::from(n), out),
        Value::Address(address) => append_address(address, out),
        Value::Codec(codec) => append(codec_text(codec), out),
        Value::Media(media) => append(media_text(media), out),
    }
}

/// The digits of hexadecimal.
const DIGITS: [u8; 16] = *b"0123456789abcdef";

/// Appends octets in hexadecimal.
fn append_hex<A: Allocator>(octets: &[u8], out: &mut Vec<u8, A>) -> Result<(), AllocError>
    ensures { Grows (buffer_of out.old) (buffer_of out.new) (encode_lower octets.now) result }
{
    for octet in octets {
        let high = DIGITS[(*octet / 16) as usize];
        let low = DIGITS[(*octet % 16) as usize];
        append(&[high, low], out)?;
    }
    Ok(())
}

/// Appends octets in two parts in hexadecimal.
fn append_parts<A: Allocator>(
    first: &[u8],
    rest: &[u8],
    out: &mut Vec<u8, A>,
) -> Result<(), AllocError>
    ensures { Grows (buffer_of out.old) (buffer_of out.new) (encode_lower (first.now ++ rest.now)) result }
{
    append_hex(first, out)?;
    append_hex(rest, out)
}

fn append_sample<A: Allocator>(sample: i16, out: &mut Vec<u8, A>) -> Result<(), AllocError>
    ensures { Grows (buffer_of out.old) (buffer_of out.new) (encode_lower (sample_octets sample)) result }
{
    let mut octets = [0; 2];
    encode_l16(&[sample], &mut octets);
    append_hex(&octets, out)
}

/// Appends samples in hexadecimal, two octets each.
fn append_samples<A: Allocator>(samples: &[i16], out: &mut Vec<u8, A>) -> Result<(), AllocError>
    ensures { Grows (buffer_of out.old) (buffer_of out.new) (encode_lower (octets_of samples.now)) result }
{
    for sample in samples {
        append_sample(*sample, out)?;
    }
    Ok(())
}

fn append_pair<A: Allocator>(number: u16, out: &mut Vec<u8, A>) -> Result<(), AllocError>
    ensures { Grows (buffer_of out.old) (buffer_of out.new) (encode_lower (pair_octets number)) result }
{
    append_hex(&[(number / 256) as u8, (number % 256) as u8], out)
}

/// Appends numbers in hexadecimal, two octets each.
fn append_pairs<A: Allocator>(numbers: &[u16], out: &mut Vec<u8, A>) -> Result<(), AllocError>
    ensures { Grows (buffer_of out.old) (buffer_of out.new) (encode_lower (pairs_octets numbers.now)) result }
{
    for number in numbers {
        append_pair(*number, out)?;
    }
    Ok(())
}

/// How a marker is written between slashes.
fn marker_text(marker: bool) -> &'static [u8]
    ensures { result.now ≡ slashed marker }
{
    if marker { b"/1/" } else { b"/0/" }
}

/// Appends the first two parts of a packet.
fn append_ext<A: Allocator>(ext: i64, marker: bool, out: &mut Vec<u8, A>) -> Result<(), AllocError>
    ensures { Grows (buffer_of out.old) (buffer_of out.new) (signed_decimal ext ++ slashed marker) result }
{
    append_signed(ext, out)?;
    append(marker_text(marker), out)
}

/// Appends the last two parts of a packet.
fn append_payload<A: Allocator>(
    pt: u8,
    payload: &[u8],
    out: &mut Vec<u8, A>,
) -> Result<(), AllocError>
    ensures { Grows (buffer_of out.old) (buffer_of out.new) ((decimal pt ++ 47 ∷ []) ++ encode_lower payload.now)
        result }
{
    append_part(u64::from(pt), b'/', out)?;
    append_hex(payload, out)
}

fn append_packet<A: Allocator>(
    ext: i64,
    marker: bool,
    pt: u8,
    payload: &[u8],
    out: &mut Vec<u8, A>,
) -> Result<(), AllocError>
    ensures { Grows (buffer_of out.old) (buffer_of out.new) (spelt_packet ext marker pt payload.now) result }
{
    append_ext(ext, marker, out)?;
    append_payload(pt, payload, out)
}

fn append_word<A: Allocator>(word: Word<'_>, out: &mut Vec<u8, A>) -> Result<(), AllocError>
    ensures { Grows (buffer_of out.old) (buffer_of out.new) (word_text (said word.entry)) result }
{
    match word {
        Word::Value(value) => append_value(value, out),
        Word::Fixed(text) => append(text, out),
        Word::Signed(n) => append_signed(n, out),
        Word::Hex(octets) => append_hex(octets, out),
        Word::Parts(first, rest) => append_parts(first, rest, out),
        Word::Samples(samples) => append_samples(samples, out),
        Word::Numbers(numbers) => append_pairs(numbers, out),
        Word::Packet {
            ext,
            marker,
            pt,
            payload,
        } => append_packet(ext, marker, pt, payload, out),
    }
}

/// Appends a space and a word.
fn append_next<A: Allocator>(word: Word<'_>, out: &mut Vec<u8, A>) -> Result<(), AllocError>
    ensures { Grows (buffer_of out.old) (buffer_of out.new) (32 ∷ word_text (said word.entry)) result }
{
    append(b" ", out)?;
    append_word(word, out)
}

/// Appends words behind a first one, each with a space before it, and an LF.
pub(crate) fn append_line<A: Allocator>(
    first: &[u8],
    words: &[Word<'_>],
    out: &mut Vec<u8, A>,
) -> Result<(), AllocError>
    ensures { Grows (buffer_of out.old) (buffer_of out.new) (line_text (fixed first.now ∷ map said words.now)) result }
{
    append(first, out)?;
    for word in words {
        append_next(*word, out)?;
    }
    append(b"\n", out)
}
