//! The clock of a bridge that runs.

ghost use Rattle.std.specs.Prelude.{◌≡◌, [], None};

use event_lines::{Cause, ServerPart, WhyFailed};
use event_loop::{Watch, WatchLog};
use std::time::Clock;
use udp_wire::{FrontFault, Moments};

/// The moments of a bridge that runs, as a watch. If its clock went back, it would tell the latest moment again.
#[derive(Drop)]
pub(crate) struct SystemWatch<R: Clock + Drop> {
    rt: R,
    moments: Moments,
    /// Why the clock failed last.
    trouble: Option<Cause>,
    /// What it told.
    log: WatchLog,
}

impl<R: Clock + Copy + Drop> SystemWatch<R> {
    /// A watch that has told nothing yet.
    pub(crate) fn new(rt: &R, moments: Moments) -> Self
        ensures moments { result.moments ≡ moments }
        ensures trouble { result.trouble ≡ None }
        ensures log { result.log ≡ [] }
    {
        Self {
            rt: *rt,
            moments,
            trouble: None,
            log: WatchLog::new(),
        }
    }

    /// Why the clock failed last.
    pub(crate) fn trouble(&self) -> Option<Cause>
        ensures { result ≡ self.now.trouble }
    {
        self.trouble
    }

    /// The moment at which it began, in nanoseconds since 1970.
    pub(crate) fn start(&self) -> u64
        ensures { result ≡ self.now.moments }
    {
        self.moments.start()
    }
}

impl<R: Clock + Drop> SystemWatch<R> {
    /// What it told.
    pub(crate) fn into_log(self) -> WatchLog
        ensures { result ≡ self.log }
    {
        self.log
    }
}

impl<R: Clock + Drop> Watch for SystemWatch<R> {
    ghost told = { λ watch. watch.log };

    fn now(&mut self) -> Result<u64, FrontFault> {
        match self.moments.now(&self.rt) {
            Ok(now) => Ok(self.log.tell(now)),
            Err(error) => {
                let why = WhyFailed::of(&error);
                let part = ServerPart::Clock;
                self.trouble = Some(Cause::Failed { part, why });
                Err(FrontFault::of_clock(&error))
            }
        }
    }
}
