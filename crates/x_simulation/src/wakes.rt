//! What operators' threads wake, in place of a front.

use crate::one_thread::OneThread;
use operator_threads::Wake;
use std::alloc::{AllocError, Global};
use std::sync::Wait;
use std::sync::atomic::{AtomicU64, Ordering};

/// Counts how often the front is woken, and how many connections are refused a seat.
#[derive(Drop)]
pub struct Wakes {
    wakes: AtomicU64,
    busy: AtomicU64,
}

impl Wakes {
    /// Nothing was counted.
    pub fn new() -> Self {
        Self {
            wakes: AtomicU64::new(0),
            busy: AtomicU64::new(0),
        }
    }

    /// Whether the model counts the same.
    pub fn are_those(&self, model: &OneThread) -> bool {
        self.wakes.load(Ordering::SeqCst) == model.desk.accepted.saturating_add(model.stops())
            && self.busy.load(Ordering::SeqCst) == model.busy
    }
}

impl Wake for Wakes {
    ghost use Rattle.std.specs.Prelude.{◌≡◌, []};

    ghost counts = { λ wakes used text. text ≡ [] };

    ghost levels = { λ wakes text. text ≡ [] };

    fn wake(&self) {
        self.wakes.fetch_add(1, Ordering::SeqCst);
    }

    fn note_busy<R: Wait>(&self, _rt: &R) {
        self.busy.fetch_add(1, Ordering::SeqCst);
    }

    /// A script doesn't ask what the bridge counts.
    fn tell_stats<R: Wait>(
        &self,
        _rt: &R,
        _alloc: Global,
        _used: u32,
        _out: &mut Vec<u8>,
    ) -> Result<(), AllocError> {
        Ok(())
    }

    /// Nor how loud the sources are.
    fn tell_levels<R: Wait>(
        &self,
        _rt: &R,
        _alloc: Global,
        _out: &mut Vec<u8>,
    ) -> Result<(), AllocError> {
        Ok(())
    }
}
