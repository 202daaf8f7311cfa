//! The formats of audio.

ghost use Rattle.std.specs.Prelude.{◌≡◌, ◌*◌, ◌%◌, ◌&&◌, nat_eq, length, map, IfOk};
ghost use Rattle.sample_codecs.specs.MuLaw.{decoded};
ghost use Rattle.sample_codecs.specs.L16.{samples_of};
ghost use Rattle.media_items.specs.Formats.{rate_of, pt_of, tick_of, most_of, octets_of};
ghost use Rattle.media_items.specs.Formats.{holds_whole, format_of_packet, samples_of_packet, encoded};

use sample_codecs::{decode_l16, decode_pcmu, encode_l16, encode_pcmu};
use std::alloc::{AllocError, Allocator};

/// A format of audio of one channel (RFC 3551 sections 4.5.11 and 4.5.14).
// What belongs to a format stands together, so PCMU at 44100 Hz can't be said.
#[derive(Clone, Copy, PartialEq, Eq)]
pub enum Format {
    /// PCMU at 8000 Hz, payload type 0: an octet for each sample.
    Pcmu,
    /// L16 at 8000 Hz: two octets for each sample. Its payload type 97 is the bridge's own choice.
    L16At8000,
    /// L16 at 44100 Hz, payload type 11: two octets for each sample.
    L16At44100,
}

impl Format {
    /// The clock rate, in Hz.
    pub fn rate(self) -> u32
        ensures { result ≡ rate_of self }
    {
        match self {
            Format::Pcmu => 8_000,
            Format::L16At8000 => 8_000,
            Format::L16At44100 => 44_100,
        }
    }

    /// The payload type of its packets (RFC 3551 section 6).
    pub fn payload_type(self) -> u8
        ensures { result ≡ pt_of self }
    {
        match self {
            Format::Pcmu => 0,
            Format::L16At8000 => 97,
            Format::L16At44100 => 11,
        }
    }

    /// The samples of a tick of 20 ms: 160 or 882.
    pub fn tick(self) -> usize
        ensures { result ≡ tick_of self }
    {
        self.rate() as usize / 50
    }

    /// The most samples of a packet: 200 ms, 1,600 or 8,820.
    pub fn most_samples(self) -> usize
        ensures { result ≡ most_of self }
    {
        self.rate() as usize / 5
    }

    /// The octets of a sample.
    pub fn octets(self) -> usize
        ensures { result ≡ octets_of self }
    {
        match self {
            Format::Pcmu => 1,
            Format::L16At8000 => 2,
            Format::L16At44100 => 2,
        }
    }

    /// Whether a payload of so many octets has whole samples, 200 ms of them at most.
    pub fn holds_whole(self, octets: usize) -> bool
        ensures { result ≡ holds_whole self octets }
    {
        let each = self.octets();
        octets % each == 0 && octets <= each * self.most_samples()
    }

    /// Decodes a payload, which has whole samples.
    pub fn decode<A: Allocator + Copy>(
        self,
        alloc: A,
        payload: &[u8],
    ) -> Result<Vec<i16, A>, AllocError>
        requires { length payload.now % octets_of self ≡ 0 }
        ensures { IfOk result (λ samples. samples.items ≡ samples_of_packet self payload.now) }
    {
        match self {
            Format::Pcmu => from_pcmu(alloc, payload),
            Format::L16At8000 | Format::L16At44100 => from_l16(alloc, payload),
        }
    }

    /// The octets of payload for these samples.
    #[tactic(auto, using(crate::proofs::FormatLemmas::lengths))]
    pub fn payload_len(self, samples: &[i16]) -> usize
        ensures len { result ≡ length (encoded self samples.now) }
        ensures product { result ≡ octets_of self * length samples.now }
    {
        match self {
            Format::Pcmu => samples.len(),
            Format::L16At8000 | Format::L16At44100 => 2 * samples.len(),
        }
    }

    /// Encodes samples into a payload, which has [`Format::octets`] for each sample.
    #[tactic(auto, using(crate::proofs::FormatLemmas::lengths))]
    pub fn encode_into(self, samples: &[i16], octets: &mut [u8])
        requires { length octets.old ≡ octets_of self * length samples.now }
        ensures { octets.new ≡ encoded self samples.now }
    {
        match self {
            Format::Pcmu => encode_pcmu(samples, octets),
            Format::L16At8000 | Format::L16At44100 => encode_l16(samples, octets),
        }
    }

    /// Whether its packets have this payload type, and its rate is this one.
    fn is_of(self, pt: u8, rate: u32) -> bool
        ensures { result ≡ (nat_eq (rate_of self) rate && nat_eq (pt_of self) pt) }
    {
        self.rate() == rate && self.payload_type() == pt
    }
}

/// The samples of a payload of PCMU.
fn from_pcmu<A: Allocator + Copy>(alloc: A, payload: &[u8]) -> Result<Vec<i16, A>, AllocError>
    ensures { IfOk result (λ samples. samples.items ≡ map decoded payload.now) }
{
    let mut samples = vec![in alloc; 0; payload.len()]?;
    decode_pcmu(payload, &mut samples);
    Ok(samples)
}

/// The samples of a payload of L16, which has whole samples.
fn from_l16<A: Allocator + Copy>(alloc: A, payload: &[u8]) -> Result<Vec<i16, A>, AllocError>
    requires { length payload.now % 2 ≡ 0 }
    ensures { IfOk result (λ samples. samples.items ≡ samples_of payload.now) }
{
    let mut samples = vec![in alloc; 0; payload.len() / 2]?;
    decode_l16(payload, &mut samples);
    Ok(samples)
}

/// The format of packets of this payload type in a room of this clock rate, in Hz. Other types are no audio there.
pub fn format_of_packet(pt: u8, rate: u32) -> Option<Format>
    ensures { result ≡ format_of_packet pt rate }
{
    if Format::Pcmu.is_of(pt, rate) {
        return Some(Format::Pcmu);
    }
    if Format::L16At8000.is_of(pt, rate) {
        return Some(Format::L16At8000);
    }
    if Format::L16At44100.is_of(pt, rate) {
        return Some(Format::L16At44100);
    }
    None
}
