//! The moments of a bridge that runs.

ghost use Rattle.std.specs.Prelude.{◌≡◌, ◌≤◌, ℕ, IfOk};
ghost use Rattle.udp_wire.specs.Sockets.{nanos_of};

use std::io;
use std::marker::Model;
use std::time::{Clock, Duration, Instant, SystemTime, UNIX_EPOCH};

/// A clock that begins with the system's time and never goes back, whatever happens to the system's time.
/// Contracts see its beginning, in nanoseconds since 1970.
#[derive(Drop)]
pub struct Moments {
    /// The beginning, in nanoseconds since 1970.
    start: u64,
    begun: Instant,
}

impl Model for Moments {
    ghost Value = { ℕ };

    ghost view = { λ m. m.start };
}

/// A time as nanoseconds, at most 2^64 - 1.
fn nanos(time: Duration) -> u64
    ensures { result ≡ nanos_of time }
{
    u64::try_from(time.as_nanos()).unwrap_or(u64::MAX)
}

impl Moments {
    /// A clock that begins now. Before 1970 it begins at 0. An `Err` is the system's: its clock failed.
    pub fn begin(rt: &impl Clock) -> io::Result<Self> {
        let since_1970 = match SystemTime::now(rt)?.duration_since(UNIX_EPOCH) {
            Ok(time) => time,
            Err(_) => Duration::ZERO,
        };
        Ok(Self {
            start: nanos(since_1970),
            begun: Instant::now(rt)?,
        })
    }

    /// The same clock.
    pub fn again(&self) -> Self
        ensures { result ≡ self.now }
    {
        Self {
            start: self.start,
            begun: self.begun,
        }
    }

    /// The beginning, in nanoseconds since 1970.
    pub fn start(&self) -> u64
        ensures { result ≡ self.now }
    {
        self.start
    }

    /// The present moment, in nanoseconds since 1970, at most 2^64 - 1. An `Err` is the system's: its clock failed.
    pub fn now(&self, rt: &impl Clock) -> io::Result<u64>
        ensures { IfOk result (λ now. self.now ≤ now) }
    {
        let passed = self.begun.elapsed(rt)?;
        Ok(self.start.saturating_add(nanos(passed)))
    }
}
