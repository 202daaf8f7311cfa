//! How long something takes.

use std::time::{Clock, CpuClock, Duration, Instant};

/// What was done, and in how much time, in nanoseconds. A time is 0 where the clock could not be read.
#[derive(Clone, Copy)]
pub struct Took {
    /// How many of it were done.
    pub done: u64,
    /// From the beginning to the end.
    pub wall: u64,
    /// The processor time of all threads.
    pub processor: u64,
}

impl Took {
    /// Each time is the lesser of both.
    pub fn least(self, other: Took) -> Took {
        Took {
            done: other.done,
            wall: self.wall.min(other.wall),
            processor: self.processor.min(other.processor),
        }
    }
}

/// The lesser of what was taken before, if anything, and this.
pub fn least_of(before: Option<Took>, took: Took) -> Took {
    match before {
        Some(before) => before.least(took),
        None => took,
    }
}

/// A watch that runs.
#[derive(Drop)]
pub struct Watch {
    begun: Option<Instant>,
    spent: Option<Duration>,
}

/// A time in nanoseconds, at most 2^64 - 1.
fn nanos(time: Duration) -> u64 {
    u64::try_from(time.as_nanos()).unwrap_or(u64::MAX)
}

impl Watch {
    /// A watch that begins now.
    pub fn begin<R: Clock + CpuClock>(rt: &R) -> Watch {
        let spent = rt.process_cpu_time().ok();
        Watch {
            begun: Instant::now(rt).ok(),
            spent,
        }
    }

    /// What was done until now.
    pub fn took<R: Clock + CpuClock>(&self, rt: &R, done: u64) -> Took {
        Took {
            done,
            wall: self.wall(rt),
            processor: self.processor(rt),
        }
    }

    fn wall<R: Clock>(&self, rt: &R) -> u64 {
        match &self.begun {
            Some(begun) => begun.elapsed(rt).map_or(0, |time| nanos(time)),
            None => 0,
        }
    }

    fn processor<R: CpuClock>(&self, rt: &R) -> u64 {
        match (self.spent, rt.process_cpu_time()) {
            (Some(before), Ok(now)) => nanos(now).saturating_sub(nanos(before)),
            _ => 0,
        }
    }
}
