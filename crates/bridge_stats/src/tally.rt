//! How many datagrams had each outcome.

ghost use Rattle.std.specs.Prelude.{◌≡◌, [], ◌∷◌, ◌++◌};
ghost use Rattle.bridge_stats.specs.Counts.{datagrams_with, octets_with};

use crate::kind::{KINDS, line_place};
use crate::taken::TakenIn;
use crate::taken_log::TakenLog;
use ingress::OutcomeKind;
use std::marker::Model;

/// How many datagrams had each outcome, and how many octets these had. Each count ends at 2^64 - 1.
///
/// Contracts see the list of all that were noted.
#[derive(Drop)]
pub struct OutcomeTally {
    datagrams: [u64; KINDS],
    octets: [u64; KINDS],
    /// What was noted, in proofs alone.
    log: TakenLog,
}

impl Model for OutcomeTally {
    ghost use Rattle.std.specs.Prelude.{List};
    ghost use Rattle.bridge_stats.specs.declared.taken.TakenIn.{TakenIn as TakenOf};
    ghost use Rattle.bridge_stats.specs.Logs.{taken_list};
    ghost use Rattle.bridge_stats.specs.inner.Tallies.{AreSums, one, its_octets};

    ghost Value = { List TakenOf };

    ghost view = { λ t. taken_list t.log };

    ghost invariant = { λ t. AreSums one t.datagrams (taken_list t.log)
        × AreSums its_octets t.octets (taken_list t.log) };
}

impl OutcomeTally {
    /// Nothing was noted.
    pub fn new() -> Self
        ensures { result ≡ [] }
    {
        Self {
            datagrams: [0; KINDS],
            octets: [0; KINDS],
            log: TakenLog::new(),
        }
    }

    /// Notes a datagram.
    #[inline(always)]
    pub fn note(&mut self, taken: &TakenIn)
        ensures { self.new ≡ self.old ++ taken.now ∷ [] }
    {
        let place = line_place(taken.outcome.class().kind);
        self.datagrams[place] = self.datagrams[place].saturating_add(1);
        self.octets[place] = self.octets[place].saturating_add(taken.octets);
        self.log.note(taken);
    }

    /// How many of the datagrams noted so far had an outcome of this kind.
    pub fn datagrams(&self, kind: OutcomeKind) -> u64
        ensures { result ≡ datagrams_with kind self.now }
    {
        self.datagrams[line_place(kind)]
    }

    /// How many octets these had.
    pub fn octets(&self, kind: OutcomeKind) -> u64
        ensures { result ≡ octets_with kind self.now }
    {
        self.octets[line_place(kind)]
    }
}
