//! Two threads that begin together, and end together.

use std::sync::Wait;
use std::sync::atomic::{AtomicBool, Ordering};
use std::thread;

/// Whether the first has begun, and whether the second is done.
#[derive(Drop)]
pub struct Meeting {
    has_begun: AtomicBool,
    is_over: AtomicBool,
}

impl Meeting {
    /// Nothing has begun.
    pub fn new() -> Meeting {
        Meeting {
            has_begun: AtomicBool::new(false),
            is_over: AtomicBool::new(false),
        }
    }

    /// The first has begun.
    pub fn begin(&self) {
        self.has_begun.store(true, Ordering::SeqCst);
    }

    /// Waits until the first has begun.
    pub fn wait<R: Wait>(&self, rt: &R) {
        for _ in rt.forever() {
            if self.has_begun.load(Ordering::SeqCst) {
                return;
            }
            thread::yield_now();
        }
        unreachable!()
    }

    /// The second is done.
    pub fn end(&self) {
        self.is_over.store(true, Ordering::SeqCst);
    }

    /// Whether the second is done.
    pub fn is_over(&self) -> bool {
        self.is_over.load(Ordering::SeqCst)
    }
}
