//! Packets of samples, encoded and decoded.

ghost use Rattle.std.specs.Prelude.{◌<◌};

use crate::talking::{SAMPLES, spoken_by};
use crate::tally::Tally;
use sample_codecs::{decode_pcmu, encode_pcmu};

/// A place among the samples of a packet.
fn place(time: u64) -> usize
    ensures { result < 160 }
{
    (time % 160) as usize
}

/// The octet that no sample is encoded to: the negative zero.
const NEGATIVE_ZERO: u8 = 0x7f;

/// Encodes a packet so often, with another sample each time, and counts those with no negative zero at a
/// place.
pub fn encoded(times: u64) -> Tally {
    let mut samples = spoken_by(1);
    let mut octets = [0; SAMPLES];
    let mut tally = Tally::new();
    for time in 0..times {
        samples[place(time)] = (time % 32_768) as i16;
        encode_pcmu(&samples, &mut octets);
        if octets[place(time / 3)] != NEGATIVE_ZERO {
            tally.count(octets.len());
        }
    }
    tally
}

/// The sample that no octet is decoded to.
const LEAST: i16 = -32_768;

/// Decodes a packet so often, with another octet each time, and counts those with no least sample at a
/// place.
pub fn decoded(times: u64) -> Tally {
    let mut octets = [0; SAMPLES];
    encode_pcmu(&spoken_by(1), &mut octets);
    let mut samples = [0; SAMPLES];
    let mut tally = Tally::new();
    for time in 0..times {
        octets[place(time)] = (time % 256) as u8;
        decode_pcmu(&octets, &mut samples);
        if samples[place(time / 3)] != LEAST {
            tally.count(octets.len());
        }
    }
    tally
}
