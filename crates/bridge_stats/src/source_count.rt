//! What came of one source.

ghost use Rattle.std.specs.Prelude.{◌≡◌, ◌+◌, ◌∷◌, ◌++◌, [], cond, not};
ghost use Rattle.bridge_stats.specs.Counts.{so_many};
ghost use Rattle.bridge_stats.specs.Sources.{numbers_of};

use crate::drops::DropNumbers;
use crate::numbers::SourceNumbers;
use crate::silence::silent_after;
use crate::stretch::Stretch;
use crate::taken::TakenIn;
use crate::taken_log::TakenLog;
use std::marker::Model;

/// As much more, if this is so.
pub(crate) fn more_if(count: u64, is_so: bool, more: u64) -> u64
    ensures { result ≡ so_many (count + cond is_so more 0) }
{
    if is_so {
        count.saturating_add(more)
    } else {
        count
    }
}

/// What came of one source.
///
/// Contracts see the list of its datagrams.
#[derive(Drop)]
pub(crate) struct SourceCount {
    packets: u64,
    octets: u64,
    late: u64,
    duplicates: u64,
    dropped: u64,
    last: u64,
    samples: u64,
    energy: u64,
    silent: u64,
    drops: DropNumbers,
    stretch: Option<Stretch>,
    /// What was noted, in proofs alone.
    log: TakenLog,
}

impl Model for SourceCount {
    ghost use Rattle.std.specs.Prelude.{List};
    ghost use Rattle.bridge_stats.specs.declared.taken.TakenIn.{TakenIn as TakenOf};
    ghost use Rattle.bridge_stats.specs.Logs.{taken_list};
    ghost use Rattle.bridge_stats.specs.inner.Kept.{AreCounts};

    ghost Value = { List TakenOf };

    ghost view = { λ s. taken_list s.log };

    ghost invariant = { λ s. AreCounts s.packets s.octets s.late s.duplicates s.dropped s.last s.samples
        s.energy s.silent s.drops s.stretch (taken_list s.log) };
}

impl SourceCount {
    /// Nothing came.
    pub(crate) fn new() -> Self
        ensures { result ≡ [] }
    {
        Self {
            packets: 0,
            octets: 0,
            late: 0,
            duplicates: 0,
            dropped: 0,
            last: 0,
            samples: 0,
            energy: 0,
            silent: 0,
            drops: DropNumbers::new(),
            stretch: None,
            log: TakenLog::new(),
        }
    }

    /// Notes a datagram.
    pub(crate) fn note(&mut self, taken: &TakenIn)
        ensures { self.new ≡ self.old ++ taken.now ∷ [] }
    {
        let accepted = taken.outcome.is_accepted();
        self.packets = more_if(self.packets, accepted, 1);
        self.octets = more_if(self.octets, accepted, taken.octets);
        self.late = more_if(self.late, taken.outcome.is_late(), 1);
        self.duplicates = more_if(self.duplicates, taken.outcome.is_duplicate(), 1);
        self.dropped = more_if(self.dropped, !accepted, 1);
        self.last = taken.moment;
        self.samples = self.samples.saturating_add(taken.sound.samples);
        self.energy = self.energy.saturating_add(taken.sound.energy);
        self.silent = silent_after(self.silent, &taken.sound);
        self.drops = self.drops.after(taken);
        self.stretch = Stretch::after(self.stretch, &taken.outcome);
        self.log.note(taken);
    }

    /// What is counted of it.
    pub(crate) fn numbers(&self) -> SourceNumbers
        ensures { result ≡ numbers_of self.now }
    {
        SourceNumbers {
            packets: self.packets,
            octets: self.octets,
            late: self.late,
            duplicates: self.duplicates,
            dropped: self.dropped,
            expected: Stretch::expected(self.stretch),
            received: Stretch::received(self.stretch),
            last: self.last,
            samples: self.samples,
            energy: self.energy,
            silent: self.silent,
            drops: self.drops,
        }
    }
}
