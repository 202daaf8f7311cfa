//! How much was sent, and how much was not.

ghost use Rattle.std.specs.Prelude.{◌≡◌};
ghost use Rattle.udp_wire.specs.Attempts.{datagrams_of};
ghost use Rattle.lane_wire.specs.Counted.{no_counts, failed_by, after_pauses, after_answer};
ghost use Rattle.lane_wire.specs.Sendings.{octets_together};

use crate::fault::SendFault;
use bridge_core::Egress;

/// How many datagrams were sent, and how many were not, by cause. Each count ends at 2^64 - 1.
#[derive(Clone, Copy, Debug, PartialEq, Eq)]
pub struct SendCounts {
    /// How many the system took.
    pub packets: u64,
    /// How many octets these had, without the headers of UDP and IP.
    pub octets: u64,
    /// For how many the wire wasn't ready at once, whatever came of them.
    pub waited: u64,
    /// How many were given up since the wire wasn't ready within 20 ms.
    pub not_ready: u64,
    /// How many were not permitted.
    pub denied: u64,
    /// How many were refused.
    pub refused: u64,
    /// How many had no way to their address.
    pub unreachable: u64,
    /// How many were too long.
    pub too_long: u64,
    /// How many failed for another reason.
    pub other: u64,
}

/// How many octets the datagram of an egress has; a note has none.
pub(crate) fn octets_in(egress: &Egress) -> u64
    ensures { result ≡ octets_together (datagrams_of egress.now) }
{
    match egress {
        Egress::Media { bytes, .. } => {
            let (first, rest) = bytes.parts();
            first.len() as u64 + rest.len() as u64
        }
        Egress::Control { bytes, .. } => bytes.len() as u64,
        Egress::Note { .. } => 0,
    }
}

impl SendCounts {
    /// Nothing was sent.
    pub fn new() -> Self
        ensures { result ≡ no_counts }
    {
        Self {
            packets: 0,
            octets: 0,
            waited: 0,
            not_ready: 0,
            denied: 0,
            refused: 0,
            unreachable: 0,
            too_long: 0,
            other: 0,
        }
    }

    /// How many were not sent for this cause.
    pub fn failed(&self, fault: SendFault) -> u64
        ensures { result ≡ failed_by fault self.now }
    {
        match fault {
            SendFault::NotReady => self.not_ready,
            SendFault::Denied => self.denied,
            SendFault::Refused => self.refused,
            SendFault::Unreachable => self.unreachable,
            SendFault::TooLong => self.too_long,
            SendFault::Other => self.other,
        }
    }

    /// Counts a datagram for which so many pauses were made.
    pub(crate) fn count_pauses(&mut self, pauses: u32)
        ensures { self.new ≡ after_pauses pauses self.old }
    {
        if pauses > 0 {
            self.waited = self.waited.saturating_add(1);
        }
    }

    /// Counts a datagram of so many octets by what came of its last try.
    pub(crate) fn count_answer(&mut self, octets: u64, answer: Result<(), SendFault>)
        ensures { self.new ≡ after_answer octets answer self.old }
    {
        match answer {
            Ok(()) => {
                self.packets = self.packets.saturating_add(1);
                self.octets = self.octets.saturating_add(octets);
            }
            Err(SendFault::NotReady) => self.not_ready = self.not_ready.saturating_add(1),
            Err(SendFault::Denied) => self.denied = self.denied.saturating_add(1),
            Err(SendFault::Refused) => self.refused = self.refused.saturating_add(1),
            Err(SendFault::Unreachable) => self.unreachable = self.unreachable.saturating_add(1),
            Err(SendFault::TooLong) => self.too_long = self.too_long.saturating_add(1),
            Err(SendFault::Other) => self.other = self.other.saturating_add(1),
        }
    }
}
