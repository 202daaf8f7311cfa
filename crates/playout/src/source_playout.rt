//! The jitter buffer of one of many sources. It begins anew after late or full sound, if that is wanted.

ghost use Rattle.std.specs.Prelude.{◌≡◌, ◌≤◌, ◌<◌, ◌*◌, length, true, false, Some};
ghost use Rattle.playout.specs.Playout.{begun_by};
ghost use Rattle.playout.specs.Renewal.{no_tally};
ghost use Rattle.playout.specs.inner.Holds.{Holds};
ghost use Rattle.playout.specs.inner.Counts.{tally_with, is_due, PutsInto, HasTicked};

use crate::jitter_buffer::Playout;
use crate::offset::Offset;
use crate::placed::PlacedSamples;
use crate::tally::SoundTally;
use std::alloc::{Allocator, Global};
use std::marker::Model;

/// The ticks in a second.
const TICKS: u32 = 50;

/// A jitter buffer, and what is counted of its source's sound.
#[derive(Drop)]
pub(crate) struct SourcePlayout<A: Allocator = Global> {
    playout: Playout<A>,
    tally: SoundTally,
}

impl<A: Allocator> Model for SourcePlayout<A> {
    ghost use Rattle.playout.specs.inner.Counts.{IsCounted};
    ghost use Rattle.playout.specs.inner.Holds.{SourceOf};

    ghost Value = { SourceOf };

    ghost view = { λ source. record { playout = source.playout; tally = source.tally } };

    ghost invariant = { λ source. IsCounted source.playout.cells source.tally };
}

impl<A: Allocator> SourcePlayout<A> {
    /// Nothing is counted yet.
    pub(crate) fn new(playout: Playout<A>) -> Self
        requires { length playout.cells ≤ 48000 }
        ensures { result ≡ record { playout = playout; tally = no_tally } }
    {
        Self {
            playout,
            tally: SoundTally::new(),
        }
    }

    /// The jitter buffer.
    pub(crate) fn playout(&self) -> &Playout<A>
        ensures { result.now ≡ self.now.playout }
    {
        &self.playout
    }

    /// Counts samples that were put. If the sound was late or full for too long, the buffer begins anew with them.
    fn count(&mut self, offset: Offset, ts: u32, samples: &[i16])
        requires few { length samples.now * 5 ≤ length self.old.playout.cells }
        ensures stays { is_due self.old offset samples.now ≡ false
            → self.new ≡ record { playout = self.old.playout; tally = tally_with self.old offset samples.now } }
        ensures begun { is_due self.old offset samples.now ≡ true
            → Holds self.new.playout (Some (begun_by (length self.old.playout.cells) ts samples.now)) }
        ensures none { is_due self.old offset samples.now ≡ true → self.new.tally ≡ no_tally }
    {
        let rate = self.playout.rate();
        let tally = self.tally.with(rate, offset, samples.len() as u32);
        if tally.is_overdue(rate) {
            self.playout.restart(ts, samples);
            self.tally = SoundTally::new();
        } else {
            self.tally = tally;
        }
    }

    /// Puts samples at the buffer's own rate. If it begins anew by the tally (`renews`), they are counted.
    pub(crate) fn put(&mut self, renews: bool, ts: u32, samples: &[i16])
        requires some { 0 < length samples.now }
        requires few { length samples.now * 5 ≤ length self.old.playout.cells }
        ensures { PutsInto renews self.old self.new (length self.old.playout.cells) ts samples.now }
    {
        let offset = self.playout.offset(ts);
        let placed = self.playout.put(ts, samples);
        if !renews {
            self.tally = SoundTally::new();
            return;
        }
        match placed {
            PlacedSamples::Kept { .. } | PlacedSamples::Late => self.count(offset, ts, samples),
            PlacedSamples::Reset => self.tally = SoundTally::new(),
        }
    }

    /// Takes the next 20 ms without reading them.
    pub(crate) fn tick(&mut self)
        ensures { HasTicked self.old self.new }
    {
        let count = (self.playout.rate() / TICKS) as usize;
        self.playout.skip(count);
    }
}
