//! A lane's first dropped item of a second.

ghost use Rattle.std.specs.Prelude.{◌≡◌};
ghost use Rattle.event_lines.specs.Drops.{no_drops, is_quiet, is_first, after_look};

/// How many nanoseconds a second has.
const SECOND: u64 = 1_000_000_000;

/// What is known of the items that were dropped for a lane.
#[derive(Clone, Copy, PartialEq, Eq)]
pub struct LaneDrops {
    /// How many they were when they were looked at last.
    pub seen: u64,
    /// When a drop was told last, in nanoseconds since 1970.
    pub told: Option<u64>,
}

impl LaneDrops {
    /// Nothing was dropped.
    pub fn new() -> Self
        ensures { result ≡ no_drops }
    {
        Self {
            seen: 0,
            told: None,
        }
    }

    /// Looks at how many items were dropped since the start. Returns whether the lane's drop is to be told: items were
    /// dropped since the last look, and none was told in the second before.
    pub fn look(&mut self, items: u64, now: u64) -> bool
        ensures first { result ≡ is_first items now self.old }
        ensures after { self.new ≡ after_look items now self.old }
    {
        let is_first = self.seen < items && self.is_quiet(now);
        self.seen = items;
        if is_first {
            self.told = Some(now);
        }
        is_first
    }

    /// Whether no drop was told in the last second.
    fn is_quiet(&self, now: u64) -> bool
        ensures { result ≡ is_quiet now self.now.told }
    {
        match self.told {
            None => true,
            Some(told) => now.saturating_sub(told) >= SECOND,
        }
    }
}
