//! The state of one RTP source.

ghost use Rattle.std.specs.Prelude.{◌≡◌, ◌+◌, true, List, [], ◌∷◌, ◌++◌};
ghost use Rattle.rtcp_codec.specs.Report.{FitsLost};
ghost use Rattle.source_valid.specs.Histories.{Step, standing_of, past_probation_in};
ghost use Rattle.source_valid.specs.Histories.{Number, Arrival, Sender, Block};
ghost use Rattle.source_valid.specs.Represents.{Represents, Judges, Adds, Tells};
ghost use Rattle.source_valid.specs.Ranges.{IsInRange};
ghost use Rattle.source_valid.specs.inner.Phases.{is_counting};

use crate::heard::{Heard, dlsr, lsr};
use crate::numbers::{fraction, lost};
use crate::phase::Phase;
use crate::timing::Timing;
use crate::verdict::Verdict;
use rtcp_codec::ReportBlock;
use std::marker::Model;

/// One RTP source. Contracts know it by the list of what it was given: sequence numbers, arrivals, sender reports, and
/// requests for a block.
///
/// It is `Copy`, so a caller can judge on a copy first. It takes no memory.
#[derive(Clone, Copy)]
pub struct SourceState {
    phase: Phase,
    timing: Timing,
    heard: Option<Heard>,
}

impl Model for SourceState {
    ghost use Rattle.std.specs.Prelude.{◌≤◌, ◌^◌};
    ghost use Rattle.source_valid.specs.inner.Kept.{Kept};
    ghost use Rattle.source_valid.specs.inner.Phases.{SoundPhase};

    ghost Value = { Kept };

    ghost view = { λ s. record { phase = s.phase; timing = s.timing; heard = s.heard } };

    ghost inverse = { λ k. record { phase = k.phase; timing = k.timing; heard = k.heard } };

    ghost invariant = { λ s. SoundPhase s.phase × (s.timing.jitter ≤ 2 ^ 35) };
}

impl SourceState {
    /// A source after its first packet. It is on probation (RFC 3550 A.1).
    pub fn first(seq: u16) -> SourceState
        ensures { Represents result (Number seq ∷ []) }
    {
        SourceState {
            phase: Phase::OnProbation(seq),
            timing: Timing {
                transit: None,
                jitter: 0,
            },
            heard: None,
        }
    }

    /// Judges the next packet by its sequence number (RFC 3550 A.1).
    pub fn update(&mut self, seq: u16) -> Verdict
        ensures judged { Judges self.old self.new seq result }
        ensures range { IsInRange result }
    {
        self.phase.update(seq)
    }

    /// Whether two numbers in a row have come, so that probation is over.
    pub fn past_probation(&self) -> bool
        ensures now { result ≡ is_counting self.now.phase }
        ensures history { (before : List Step) → Represents self.now before
            → result ≡ past_probation_in (standing_of before) }
    {
        match self.phase {
            Phase::Counting(_) => true,
            Phase::OnProbation(_) => false,
        }
    }

    /// Takes in an accepted packet's arrival for the jitter (RFC 3550 A.8).
    ///
    /// `ts` is its RTP timestamp. `arrival_units` is the moment of its arrival in units of the same clock, modulo 2^32.
    pub fn arrival(&mut self, ts: u32, arrival_units: u32)
        ensures { Adds self.old self.new (Arrival ts arrival_units) }
    {
        self.timing.arrival(ts, arrival_units);
    }

    /// Takes in a sender report: its NTP timestamp, and the moment when it came, in nanoseconds since 1970.
    pub fn sender_report(&mut self, ntp: u64, moment: u64)
        ensures { Adds self.old self.new (Sender (record { ntp = ntp; moment = moment })) }
    {
        self.heard = Some(Heard { ntp, moment });
    }

    /// Makes the report block about this SSRC (RFC 3550 section 6.4.1), and begins a new interval.
    ///
    /// `moment` is in nanoseconds since 1970. The source must be past probation: test with
    /// [`past_probation`](Self::past_probation) first.
    pub fn block(&mut self, ssrc: u32, moment: u64) -> ReportBlock
        requires { is_counting self.old.phase ≡ true }
        ensures block { Tells self.old ssrc moment result }
        // It can be written.
        ensures fits { FitsLost result.lost }
        ensures new { Adds self.old self.new Block }
    {
        match self.phase {
            Phase::Counting(counters) => {
                let expected = counters.expected();
                let received = counters.received;
                let block = ReportBlock {
                    ssrc,
                    fraction: fraction(
                        expected - counters.expected_prior,
                        received - counters.received_prior,
                    ),
                    lost: lost(expected, received),
                    highest: counters.highest(),
                    jitter: (self.timing.jitter / 16) as u32,
                    lsr: lsr(self.heard),
                    dlsr: dlsr(self.heard, moment),
                };
                let mut next = counters;
                next.tell();
                self.phase = Phase::Counting(next);
                block
            }
            Phase::OnProbation(_) => unreachable!(),
        }
    }
}
