//! Judges a packet by its source.

ghost use Rattle.std.specs.Prelude.{◌≡◌, ◌≤◌, ◌++◌, List, [], ◌∷◌};
ghost use Rattle.source_valid.specs.Histories.{Step, standing_of, past_probation_in};
ghost use Rattle.source_valid.specs.Represents.{Represents};
ghost use Rattle.source_valid.specs.Ranges.{IsInRange};
ghost use Rattle.ingress.specs.Stories.{units_of, initialises, arrival};
ghost use Rattle.ingress.specs.inner.SourceEntries.{HasGiven, Validates};

use source_valid::{SourceState, Verdict};
use std::marker::Model;

/// Nanoseconds in a second.
const NANOSECONDS: u64 = 1_000_000_000;

/// A source after a packet, and the verdict on the packet.
#[derive(Clone, Copy)]
pub(crate) struct Validated {
    /// The clock rate, in Hz.
    pub(crate) rate: u32,
    pub(crate) source: SourceState,
    pub(crate) verdict: Verdict,
    /// Whether the packet initialises the source.
    pub(crate) begins: bool,
    /// The epoch of the source before the packet.
    pub(crate) epoch: u64,
}

impl Model for Validated {
    ghost use Rattle.ingress.specs.inner.SourceEntries.{ValidatedOf};

    ghost Value = { ValidatedOf };

    ghost view = { λ j. record {
      rate = j.rate;
      source = j.source;
      verdict = j.verdict;
      begins = j.begins;
      epoch = j.epoch;
    } };

    ghost inverse = { λ j. record {
      rate = j.rate;
      source = j.source;
      verdict = j.verdict;
      begins = j.begins;
      epoch = j.epoch;
    } };
}

/// The parts of a packet that its source judges.
#[derive(Clone, Copy)]
pub(crate) struct RtpArrival {
    /// The clock rate, in Hz.
    pub(crate) rate: u32,
    pub(crate) seq: u16,
    pub(crate) ts: u32,
    /// The moment of its arrival in units of the clock rate, modulo 2^32.
    pub(crate) units: u32,
}

impl Model for RtpArrival {
    ghost use Rattle.ingress.specs.Stories.{RtpArrival as RtpArrivalOf};

    ghost Value = { RtpArrivalOf };

    ghost view = { λ m. record { rate = m.rate; seq = m.seq; ts = m.ts; units = m.units } };

    ghost inverse = { λ m. record { rate = m.rate; seq = m.seq; ts = m.ts; units = m.units } };
}

/// A moment, in nanoseconds since 1970, in units of a clock rate of at most 90,000 Hz, modulo 2^32.
#[tactic(auto, using(crate::proofs::UnitLemmas::in_two))]
pub(crate) fn units_of(rate: u32, moment: u64) -> u32
    requires { rate ≤ 90000 }
    ensures { result ≡ units_of rate moment }
{
    let rate = u64::from(rate);
    let (seconds, rest) = (moment / NANOSECONDS, moment % NANOSECONDS);
    let units = seconds * rate + rest * rate / NANOSECONDS;
    (units % (1 << 32)) as u32
}

/// Whether a packet with this verdict initialises its source. `was_past` tells whether probation was over before.
#[tactic(auto, using(crate::proofs::VerdictLemmas::initialises_if))]
fn initialises(was_past: bool, verdict: Verdict) -> bool
    ensures { (given : List Step) → was_past ≡ past_probation_in (standing_of given)
        → result ≡ initialises (standing_of given) verdict }
{
    verdict.restarts() || (verdict.accepted().is_some() && !was_past)
}

/// The source after the packet's arrival, if the packet is accepted.
#[tactic(auto, using(crate::proofs::VerdictLemmas::arrives, crate::proofs::VerdictLemmas::stays_away))]
fn arrived(source: SourceState, verdict: Verdict, arriving: RtpArrival) -> SourceState
    ensures { (given : List Step) → Represents source given → Represents result (given ++ arrival verdict arriving) }
{
    let mut source = source;
    if verdict.accepted().is_some() {
        source.arrival(arriving.ts, arriving.units);
    }
    source
}

/// Judges a packet of a known source.
#[inline(always)]
pub(crate) fn validate_known(source: SourceState, epoch: u64, arriving: RtpArrival) -> Validated
    ensures validates { Validates (Some source) arriving result }
    ensures epoch { result.epoch ≡ epoch }
{
    let was_past = source.past_probation();
    let mut next = source;
    let verdict = next.update(arriving.seq);
    Validated {
        rate: arriving.rate,
        source: arrived(next, verdict, arriving),
        verdict,
        begins: initialises(was_past, verdict),
        epoch,
    }
}

/// Judges the first packet of a source, which begins on probation.
pub(crate) fn validate_first(arriving: RtpArrival) -> Validated
    ensures validates { Validates None arriving result }
    ensures epoch { result.epoch ≡ 0 }
{
    Validated {
        rate: arriving.rate,
        source: SourceState::first(arriving.seq),
        verdict: Verdict::Probation,
        begins: false,
        epoch: 0,
    }
}
