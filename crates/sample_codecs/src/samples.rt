//! Decodes and encodes one sample.

ghost use Rattle.std.specs.Prelude.{◌≡◌, ◌≢◌, ◌≤◌, ◌<◌};
ghost use Rattle.sample_codecs.specs.MuLaw.{decoded, IsCode};
ghost use Rattle.sample_codecs.specs.inner.Places.{IsPlace};

use crate::table::DECODED;

/// Decodes an octet (G.711). The sample is -32,124 to 32,124.
pub fn decode_sample(code: u8) -> i16
    ensures { result ≡ decoded code }
{
    DECODED[code as usize]
}

/// The segment and step of a biased magnitude, as an octet has them. The highest bit tells the segment.
fn place(biased: u16) -> u16
    requires least { 132 ≤ biased }
    requires most { biased < 32768 }
    ensures { IsPlace result biased }
{
    let segment = 8 - biased.leading_zeros() as u16;
    segment * 16 + (biased >> (segment + 3)) - 16
}

/// Encodes a sample (G.711): the octet whose sign and interval hold it. Magnitudes above 32,635 are clipped.
pub fn encode_sample(sample: i16) -> u8
    ensures { IsCode sample result }
{
    let sign = if sample < 0 { 128 } else { 0 };
    let place = place(sample.unsigned_abs().min(32635) + 132);
    (255 - sign - place) as u8
}

/// Decodes an octet and encodes it again. Each octet stays, but the negative zero (127) becomes the positive (255).
pub fn encode_again(code: u8) -> u8
    ensures same { code ≢ 127 → result ≡ code }
    ensures zero { code ≡ 127 → result ≡ 255 }
{
    encode_sample(decode_sample(code))
}
