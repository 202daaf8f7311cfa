//! Sixteen samples side by side.

ghost use Rattle.std.specs.Prelude.{◌≡◌, ◌+◌, ◌<◌, ◌≤◌, ℕ, pos, length, take, slice_index_or};
ghost use Rattle.std.specs.List.{AllZip};
ghost use lib.Lanes.{Each1};
ghost use Rattle.sample_codecs.specs.MuLaw.{biased, IsCode};
ghost use Rattle.sample_codecs.specs.inner.Places.{IsPlace};

use std::simd::prelude::*;

/// How many samples are encoded side by side.
pub const LANES: usize = 16;

/// The segment and the step of each biased magnitude, as an octet has them. A float keeps just these of it: its
/// exponent and its first four digits (IEEE 754 binary32).
fn places(biased: u16x16) -> u8x16
    requires { Each1 (λ b. (128 ≤ b) × (b < 32768)) biased }
    ensures { (i : ℕ) → i < 16 → IsPlace (slice_index_or result i 0) (slice_index_or biased i 0) }
{
    let kept = biased.cast::<i32>().cast::<f32>().to_bits() >> u32x16::splat(19);
    (kept - u32x16::splat(2144)).cast::<u8>()
}

/// The biased magnitude of a sample, clipped.
fn biased(sample: i16) -> u16
    ensures { result ≡ biased sample }
{
    sample.unsigned_abs().min(32635) + 132
}

/// The biased magnitudes of the samples from a place on.
fn biased_block(samples: &[i16], start: usize) -> [u16; LANES]
    requires { start + 16 ≤ length samples.now }
    ensures { (i : ℕ) → i < 16 → slice_index_or result i 0 ≡ biased (slice_index_or samples.now (start + i) (pos 0)) }
{
    let mut block = [0; LANES];
    for i in 0..LANES {
        block[i] = biased(samples[start + i]);
    }
    block
}

/// The octet with a sample's sign and the place of its magnitude.
fn code_at(sample: i16, place: u8) -> u8
    requires { IsPlace place (biased sample) }
    ensures { IsCode sample result }
{
    let sign = if sample < 0 { 128 } else { 0 };
    255 - sign - place
}

/// The places of the samples from a place on.
fn places_of(samples: &[i16], start: usize) -> [u8; LANES]
    requires { start + 16 ≤ length samples.now }
    ensures { (i : ℕ) → i < 16
        → IsPlace (slice_index_or result i 0) (biased (slice_index_or samples.now (start + i) (pos 0))) }
{
    places(u16x16::from_array(biased_block(samples, start))).to_array()
}

/// The octets of the samples from a place on.
fn codes_of(samples: &[i16], start: usize) -> [u8; LANES]
    requires { start + 16 ≤ length samples.now }
    ensures { (i : ℕ) → i < 16 → IsCode (slice_index_or samples.now (start + i) (pos 0)) (slice_index_or result i 0) }
{
    let places = places_of(samples, start);
    let mut codes = [0; LANES];
    for i in 0..LANES {
        codes[i] = code_at(samples[start + i], places[i]);
    }
    codes
}

/// Encodes the samples from a place on into the places of their own.
pub fn encode_block(samples: &[i16], start: usize, out: &mut [u8])
    requires within { start + 16 ≤ length samples.now }
    requires alike { length out.old ≡ length samples.now }
    ensures alike { length out.new ≡ length samples.now }
    ensures held { AllZip IsCode (take start samples.now) (take start out.old)
        → AllZip IsCode (take (start + 16) samples.now) (take (start + 16) out.new) }
{
    let codes = codes_of(samples, start);
    for i in 0..LANES {
        out[start + i] = codes[i];
    }
}
