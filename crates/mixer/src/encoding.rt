//! Payloads of mixes.

ghost use Rattle.std.specs.Prelude.{◌≡◌, true, OnOk};
ghost use Rattle.media_items.specs.Formats.{encoded};
ghost use Rattle.mixer.specs.inner.Encoded.{IsEncoded, AreEncoded};

use media_items::Format;
use std::alloc::{AllocError, Allocator};

/// A payload, and what it was encoded from, if that is kept.
#[derive(Drop)]
pub struct Encoded<A: Allocator + Copy> {
    /// Whether the format and the samples are kept.
    pub kept: bool,
    /// The format of the samples.
    pub format: Format,
    /// The samples.
    pub samples: Vec<i16, A>,
    /// The payload.
    pub payload: Vec<u8, A>,
}

/// Whether these are the same samples.
fn is_same(a: &[i16], b: &[i16]) -> bool
    ensures { result ≡ true → a.now ≡ b.now }
{
    if a.len() != b.len() || (0 < a.len() && a[0] != b[0]) {
        return false;
    }
    let mut same = true;
    for i in 0..a.len() {
        if a[i] != b[i] {
            same = false;
        }
    }
    same
}

impl<A: Allocator + Copy> Encoded<A> {
    /// No samples, and no payload.
    pub fn new(alloc: A) -> Self
        ensures { IsEncoded result }
    {
        Encoded {
            kept: false,
            format: Format::Pcmu,
            samples: Vec::new(alloc),
            payload: Vec::new(alloc),
        }
    }

    /// Encodes samples. Shared ones are kept, and are not encoded again if they come again in the same format. The
    /// only error is out of memory.
    pub fn encode(
        &mut self,
        format: Format,
        samples: &[i16],
        shared: bool,
    ) -> Result<(), AllocError>
        requires { IsEncoded self.old }
        ensures payload { OnOk result (self.new.payload.items ≡ encoded format samples.now) }
        ensures last { OnOk result (IsEncoded self.new) }
    {
        if shared && self.kept && self.format == format && is_same(&self.samples, samples) {
            return Ok(());
        }
        self.kept = false;
        self.payload.resize(format.payload_len(samples), 0)?;
        format.encode_into(samples, &mut self.payload);
        if shared {
            self.samples.resize(samples.len(), 0)?;
            self.samples.copy_from_slice(samples);
            self.format = format;
            self.kept = true;
        }
        Ok(())
    }
}

/// The last payload of each encoding, so that members with different codecs in turn share theirs.
#[derive(Drop)]
pub struct Encodings<A: Allocator + Copy> {
    /// The last one of PCMU.
    pub pcmu: Encoded<A>,
    /// The last one of L16.
    pub linear: Encoded<A>,
}

impl<A: Allocator + Copy> Encodings<A> {
    /// No samples, and no payloads.
    pub fn new(alloc: A) -> Self
        ensures { AreEncoded result }
    {
        Encodings {
            pcmu: Encoded::new(alloc),
            linear: Encoded::new(alloc),
        }
    }
}
