//! What is counted of a source's sound, to tell when its buffer has to begin anew.

ghost use Rattle.std.specs.Prelude.{◌≡◌, ◌≤◌, ◌*◌, false, nat_lt};
ghost use Rattle.playout.specs.Renewal.{late_weight, late_span, full_depth, full_span};
ghost use Rattle.playout.specs.Renewal.{no_tally, tallied, is_overdue};
ghost use Rattle.playout.specs.inner.Counts.{IsSmall};

use crate::offset::Offset;

/// A late sample counts as much as this many samples in time.
const LATE_WEIGHT: u32 = 1000;

/// The late sound that begins a buffer anew, in milliseconds.
const LATE_SPAN: u32 = 300;

/// The sound that may wait, in milliseconds.
const FULL_DEPTH: u32 = 120;

/// The sound for which more may wait, in seconds.
const FULL_SPAN: u32 = 20;

/// What is counted of a source's sound.
#[derive(Clone, Copy)]
pub(crate) struct SoundTally {
    /// Late samples, each by its weight, less those in time since.
    late: u32,
    /// The samples of the last puts in a row that found too much waiting.
    full: u32,
}

/// The sum of late samples that begins a buffer anew, by weight.
fn late_limit(rate: u32) -> u32
    requires { rate ≤ 48000 }
    ensures { result ≡ late_weight * late_span rate }
{
    LATE_WEIGHT * (rate * LATE_SPAN / 1000)
}

/// The number of samples for which too much may wait.
fn full_limit(rate: u32) -> u32
    requires { rate ≤ 48000 }
    ensures { result ≡ full_span rate }
{
    rate * FULL_SPAN
}

/// Whether too much waits.
fn is_full(rate: u32, offset: Offset) -> bool
    requires { rate ≤ 48000 }
    ensures { result ≡ nat_lt (full_depth rate) offset.ahead }
{
    offset.ahead > rate * FULL_DEPTH / 1000
}

impl SoundTally {
    /// Nothing is counted.
    pub(crate) fn new() -> Self
        ensures none { result ≡ no_tally }
        ensures small { IsSmall result }
    {
        Self { late: 0, full: 0 }
    }

    /// The tally with so many samples more: at most a fifth of a second.
    pub(crate) fn with(self, rate: u32, offset: Offset, count: u32) -> Self
        requires rate { rate ≤ 48000 }
        requires few { count * 5 ≤ rate }
        requires small { IsSmall self }
        ensures { result ≡ tallied rate self offset count }
    {
        let late = count.min(offset.behind);
        Self {
            late: (self.late + LATE_WEIGHT * late).saturating_sub(count - late),
            full: if is_full(rate, offset) {
                self.full + count
            } else {
                0
            },
        }
    }

    /// Whether the sound was late for too long, or full for too long.
    pub(crate) fn is_overdue(self, rate: u32) -> bool
        requires { rate ≤ 48000 }
        ensures is { result ≡ is_overdue rate self }
        ensures small { result ≡ false → IsSmall self }
    {
        self.late >= late_limit(rate) || self.full >= full_limit(rate)
    }
}
