//! Decodes and encodes whole packets of PCMU (RFC 3551 section 4.5.14): an octet is one sample.

ghost use Rattle.std.specs.Prelude.{◌≡◌, length, map};
ghost use Rattle.std.specs.List.{AllZip};
ghost use Rattle.sample_codecs.specs.MuLaw.{decoded, IsCode, code_of};

use crate::lanes::{LANES, encode_block};
use crate::samples::{decode_sample, encode_sample};

/// Decodes each octet into `out`, which is as long.
pub fn decode_pcmu(codes: &[u8], out: &mut [i16])
    requires { length out.old ≡ length codes.now }
    ensures { out.new ≡ map decoded codes.now }
{
    for i in 0..out.len() {
        out[i] = decode_sample(codes[i]);
    }
}

/// Encodes each sample into `out`, which is as long.
// `codes` names the one octet that holds each sample. So definitions of whole mixes need no shift and no segment
// search.
pub fn encode_pcmu(samples: &[i16], out: &mut [u8])
    requires { length out.old ≡ length samples.now }
    ensures held { AllZip IsCode samples.now out.new }
    ensures codes { out.new ≡ map code_of samples.now }
{
    let mut start = 0;
    while out.len() - start >= LANES {
        encode_block(samples, start, out);
        start += LANES;
    }
    for i in start..out.len() {
        out[i] = encode_sample(samples[i]);
    }
}
