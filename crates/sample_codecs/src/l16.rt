//! Decodes and encodes whole packets of L16 (RFC 3551 section 4.5.11): two octets in network order are one sample.

ghost use Rattle.std.specs.Prelude.{◌≡◌, ◌*◌, length};
ghost use Rattle.sample_codecs.specs.L16.{samples_of, octets_of};

/// Decodes octets into samples. There are two octets for each sample. Encoding gives them back.
pub fn decode_l16(octets: &[u8], samples: &mut [i16])
    requires { length octets.now ≡ 2 * length samples.old }
    ensures samples { samples.new ≡ samples_of octets.now }
    ensures back { octets_of samples.new ≡ octets.now }
{
    for i in 0..samples.len() {
        samples[i] = i16::from_be_bytes([octets[2 * i], octets[2 * i + 1]]);
    }
}

/// Encodes samples into octets. There are two octets for each sample. Decoding gives the samples back.
// That decoding gives the samples back is a clause here, and no law: a law would ask for samples of 16 bits, which a
// caller can't show of a slice.
pub fn encode_l16(samples: &[i16], octets: &mut [u8])
    requires { length octets.old ≡ 2 * length samples.now }
    ensures octets { octets.new ≡ octets_of samples.now }
    ensures back { samples_of octets.new ≡ samples.now }
{
    for i in 0..samples.len() {
        let [high, low] = samples[i].to_be_bytes();
        octets[2 * i] = high;
        octets[2 * i + 1] = low;
    }
}
