//! How a source is received.

ghost use Rattle.std.specs.Prelude.{◌≡◌};
ghost use Rattle.ingress.specs.Stories.{Story};
ghost use Rattle.ingress.specs.Sources.{Sources};
ghost use Rattle.ingress.specs.Reception.{reception_of, reception_at, jitter_in};
ghost use Rattle.ingress.specs.Reported.{block_on};
ghost use Rattle.ingress.specs.Ingresses.{Knows};
ghost use Rattle.ingress.specs.inner.SourceEntries.{Keeps};

use crate::ingress::Ingress;
use crate::known::key_of;
use crate::source_entry::SourceEntry;
use rtp_codec::Address;
use std::alloc::Allocator;

/// How a source is received. Its gate (frame reassembly) tells of its epoch: the packets since it was last initialised
/// (RFC 3550 A.1). Audio has no gate.
#[derive(Clone, Copy)]
pub struct Reception {
    /// The clock rate, in Hz.
    pub rate: u32,
    /// The interarrival jitter in units of the clock rate, as report blocks tell it (RFC 3550 A.8). 0 on probation.
    pub jitter: u32,
    /// How many whole frames the gate gave.
    pub frames: u64,
    /// How often the gate gave up waiting for packets.
    pub gaps: u64,
    /// At how many of the last 25 waits the first missing packet was missing. There is a wait every 20 ms. `None` where
    /// no packet is missing.
    pub waits: Option<u64>,
}

impl<A: Allocator + Copy> SourceEntry<A> {
    /// The jitter that a report block would tell.
    fn jitter(&self) -> u32
        ensures { (story : Story) → Keeps self.now story → result ≡ jitter_in (block_on 0 0 story) }
    {
        match self.block(0, 0) {
            None => 0,
            Some(block) => block.jitter,
        }
    }

    /// How the source is received.
    fn reception(&self) -> Reception
        ensures { (story : Story) → Keeps self.now story → result ≡ reception_of story }
    {
        let (rate, jitter) = (self.rate, self.jitter());
        match &self.gate {
            None => Reception {
                rate,
                jitter,
                frames: 0,
                gaps: 0,
                waits: None,
            },
            Some(gate) => Reception {
                rate,
                jitter,
                frames: gate.frames(),
                gaps: gate.gaps(),
                waits: gate.waits(),
            },
        }
    }
}

impl<A: Allocator + Copy> Ingress<A> {
    /// How the source of this SSRC at an address is received. `None` if it is not known.
    ///
    /// It takes no memory, and the order of use stays.
    pub fn reception(&self, from: &Address, ssrc: u32) -> Option<Reception>
        ensures { (s : Sources) → Knows self.now s
            → result ≡ reception_at (record { address = from.now; ssrc = ssrc }) s.known }
    {
        match self.known.at(&key_of(from, ssrc)) {
            None => None,
            Some(kept) => Some(kept.reception()),
        }
    }
}
