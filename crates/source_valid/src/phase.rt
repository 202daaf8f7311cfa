//! Probation, and the counting after it.

ghost use Rattle.std.specs.Prelude.{◌≡◌};
ghost use Rattle.source_valid.specs.Histories.{Standing, verdict_of, after_number};
ghost use Rattle.source_valid.specs.Ranges.{IsInRange};
ghost use Rattle.source_valid.specs.inner.Phases.{InPhase, SoundPhase};

use crate::counters::{Counters, initialised};
use crate::verdict::Verdict;

/// The phase of a source.
#[derive(Clone, Copy)]
pub enum Phase {
    /// On probation, with the last sequence number.
    OnProbation(u16),
    /// Past probation.
    Counting(Counters),
}

impl Phase {
    /// Judges the next packet.
    pub fn update(&mut self, seq: u16) -> Verdict
        requires { SoundPhase self.old }
        ensures sound { SoundPhase self.new }
        ensures range { IsInRange result }
        ensures verdict { (st : Standing) → InPhase st self.old → result ≡ verdict_of st seq }
        ensures phase { (st : Standing) → InPhase st self.old → InPhase (after_number st seq) self.new }
    {
        match *self {
            Phase::OnProbation(last) => {
                if seq == last.wrapping_add(1) {
                    *self = Phase::Counting(initialised(seq));
                    Verdict::Accepted { ext: seq as i64 }
                } else {
                    *self = Phase::OnProbation(seq);
                    Verdict::Probation
                }
            }
            Phase::Counting(counters) => {
                let mut next = counters;
                let verdict = next.update(seq);
                *self = Phase::Counting(next);
                verdict
            }
        }
    }
}
