//! Mu-law samples.

ghost use Rattle.std.specs.Prelude.{◌≡◌, ℤ, pos};

use sample_codecs::{decode_sample, encode_again, encode_sample};

/// Silence is all ones.
pub fn silence_is_all_ones() -> u8
    ensures { result ≡ 255 }
{
    encode_sample(0)
}

/// A step of the first segment.
pub fn eight_is_one_step_up() -> u8
    ensures { result ≡ 254 }
{
    encode_sample(8)
}

/// A sample in the middle of the range.
pub fn a_thousand_is_in_the_fourth_segment() -> u8
    ensures { result ≡ 206 }
{
    encode_sample(1000)
}

/// The loudest sample is clipped to the last interval.
pub fn the_loudest_sample_is_clipped() -> u8
    ensures { result ≡ 128 }
{
    encode_sample(32767)
}

/// A code gives the middle of its interval.
pub fn a_code_gives_the_middle_of_its_interval() -> i16
    ensures { result ≡ pos 988 }
{
    decode_sample(0xce)
}

/// Both zeros are 0.
pub fn both_zeros_are_0() -> (i16, i16)
    ensures positive { result.0 ≡ pos 0 }
    ensures negative { result.1 ≡ pos 0 }
{
    (decode_sample(0xff), decode_sample(0x7f))
}

/// A code stays what it is, decoded and encoded again.
pub fn a_code_stays() -> u8
    ensures { result ≡ 206 }
{
    encode_again(0xce)
}
