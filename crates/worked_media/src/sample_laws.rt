//! Samples and octets that are read back, however many there are.

ghost use Rattle.std.specs.Prelude.{◌≡◌, ◌*◌, length};

use sample_codecs::{decode_l16, encode_l16};

/// Samples that are encoded and decoded again are the same, wherever they come from.
pub fn samples_come_back(samples: &[i16], octets: &mut [u8], back: &mut [i16])
    requires octets { length octets.old ≡ 2 * length samples.now }
    requires back { length back.old ≡ length samples.now }
    ensures { back.new ≡ samples.now }
{
    encode_l16(samples, octets);
    decode_l16(octets, back);
}

/// Octets that are decoded and encoded again are the same.
pub fn octets_come_back(octets: &[u8], samples: &mut [i16], back: &mut [u8])
    requires octets { length octets.now ≡ 2 * length samples.old }
    requires back { length back.old ≡ length octets.now }
    ensures { back.new ≡ octets.now }
{
    decode_l16(octets, samples);
    encode_l16(samples, back);
}
