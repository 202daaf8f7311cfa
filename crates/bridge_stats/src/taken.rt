//! A datagram that was taken in.

ghost use Rattle.std.specs.Prelude.{◌≡◌};
ghost use Rattle.bridge_stats.specs.Noted.{taken_of};

use ingress::{Outcome, Received, SoundCount};
use rtp_codec::{Address, Header};
use std::alloc::Allocator;

/// A datagram that was taken in, and its outcome.
#[derive(Clone, Copy)]
pub struct TakenIn {
    /// Where it came from.
    pub from: Address,
    /// When it came, in nanoseconds since 1970.
    pub moment: u64,
    /// How many octets it has.
    pub octets: u64,
    /// Its header, if it is an RTP packet.
    pub header: Option<Header>,
    /// Its outcome.
    pub outcome: Outcome,
    /// What is counted of its sound.
    pub sound: SoundCount,
}

impl TakenIn {
    /// What is counted of a datagram.
    pub(crate) fn of<A: Allocator + Copy>(received: &Received<A>) -> Self
        ensures { result ≡ taken_of received.now }
    {
        Self {
            from: received.from,
            moment: received.moment,
            octets: received.octets,
            header: received.header,
            outcome: received.outcome,
            sound: received.sound,
        }
    }
}
