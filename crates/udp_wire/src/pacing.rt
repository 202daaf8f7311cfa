//! When ticks and reports are due.

ghost use Rattle.std.specs.Prelude.{◌≡◌};
ghost use Rattle.udp_wire.specs.Pacing.{is_behind, tick_due, after_tick};
ghost use Rattle.udp_wire.specs.Pacing.{reports_from, report_due, after_report};

/// How many nanoseconds lie between two ticks.
const TICK_GAP: u64 = 20_000_000;
/// The most ticks that are made up for.
const MOST_TICKS: u64 = 50;
/// How many nanoseconds a millisecond has.
const MILLISECOND: u64 = 1_000_000;

/// The ticks of a bridge: one for each whole 20 ms since its start.
#[derive(Clone, Copy, Debug, PartialEq, Eq)]
pub struct Ticks {
    /// The start, in nanoseconds since 1970.
    pub start: u64,
    /// How many whole 20 ms have had their tick, or never get one.
    pub had: u64,
}

impl Ticks {
    /// Whether a tick is due now.
    pub fn is_due(&self, now: u64) -> bool
        ensures { result ≡ is_behind self.now now }
    {
        let passed = now.saturating_sub(self.start) / TICK_GAP;
        self.had < passed
    }

    /// The moment of the next tick that is due now, in nanoseconds since 1970: the first whole multiple of 20 ms after
    /// the start that has had no tick. If more than 50 are due, the last 50 are given, one at each call.
    pub fn due(&mut self, now: u64) -> Option<u64>
        ensures moment { result ≡ tick_due self.old now }
        ensures had { self.new ≡ after_tick self.old now }
    {
        if !self.is_due(now) {
            return None;
        }
        let passed = now.saturating_sub(self.start) / TICK_GAP;
        let oldest = passed.saturating_sub(MOST_TICKS);
        if self.had < oldest {
            self.had = oldest;
        }
        self.had += 1;
        Some(self.start + self.had * TICK_GAP)
    }
}

/// The reports of a bridge: one whenever an interval has passed since the last one, or since the start.
#[derive(Clone, Copy, Debug, PartialEq, Eq)]
pub struct ReportTimer {
    /// The interval, in nanoseconds.
    pub every: u64,
    /// The moment of the last one, or the start, in nanoseconds since 1970.
    pub last: u64,
}

impl ReportTimer {
    /// Reports from `start` on, one every `report_ms` milliseconds.
    pub fn begin(report_ms: u32, start: u64) -> Self
        ensures { result ≡ reports_from report_ms start }
    {
        Self {
            every: report_ms as u64 * MILLISECOND,
            last: start,
        }
    }

    /// Whether a report is due now. If so, it counts as given.
    pub fn due(&mut self, now: u64) -> bool
        ensures due { result ≡ report_due self.old now }
        ensures last { self.new ≡ after_report self.old now }
    {
        if now.saturating_sub(self.last) < self.every {
            return false;
        }
        self.last = now;
        true
    }
}
