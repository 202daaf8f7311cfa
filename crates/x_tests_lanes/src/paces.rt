//! Paces of the tests.

ghost use Rattle.std.specs.Prelude.{◌≡◌, true};

use media_workers::Pace;
use std::alloc::Global;
use std::sync::Arc;
use std::sync::atomic::{AtomicBool, AtomicU64, Ordering};
use std::thread;

/// Lets each item pass.
#[derive(Drop)]
pub struct Free {}

impl Pace for Free {
    ghost answers = { λ pace n b. b ≡ true };

    fn pass(&mut self, _item_no: u64) -> bool {
        true
    }
}

/// Lets nothing pass until the gate is open.
#[derive(Drop)]
pub struct Held {
    /// Whether items may pass.
    pub gate: Arc<AtomicBool, Global>,
}

impl Pace for Held {
    ghost answers = { λ pace n b. Unit {0} };

    fn pass(&mut self, _item_no: u64) -> bool {
        for _ in 0..u64::MAX {
            if self.gate.load(Ordering::SeqCst) {
                return true;
            }
            thread::yield_now();
        }
        false
    }
}

/// Says that it was asked, and waits a while until the other was.
#[derive(Drop)]
pub struct Together {
    /// Whether it was asked.
    pub own: Arc<AtomicBool, Global>,
    /// Whether the other was asked.
    pub other: Arc<AtomicBool, Global>,
}

impl Pace for Together {
    ghost answers = { λ pace n b. Unit {0} };

    fn pass(&mut self, _item_no: u64) -> bool {
        self.own.store(true, Ordering::SeqCst);
        for _ in 0..1_000_000 {
            if self.other.load(Ordering::SeqCst) {
                return true;
            }
            thread::yield_now();
        }
        false
    }
}

/// What a lane has asked, or an operator who keeps pace with lanes.
#[derive(Drop)]
pub struct Asked {
    times: AtomicU64,
    is_out_of_order: AtomicBool,
}

impl Asked {
    pub fn new() -> Asked {
        Asked {
            times: AtomicU64::new(0),
            is_out_of_order: AtomicBool::new(false),
        }
    }

    /// How often it has asked.
    pub fn times(&self) -> u64 {
        self.times.load(Ordering::SeqCst)
    }

    /// Whether the numbers were 1, 2, 3 and so on.
    pub fn is_in_order(&self) -> bool {
        !self.is_out_of_order.load(Ordering::SeqCst)
    }

    /// Notes that it asks for this number.
    pub fn note(&self, item_no: u64) {
        let before = self.times.fetch_add(1, Ordering::SeqCst);
        if before.wrapping_add(1) != item_no {
            self.is_out_of_order.store(true, Ordering::SeqCst);
        }
    }
}

/// Notes what it is asked, and lets each item pass.
#[derive(Drop)]
pub struct Counted {
    /// What it was asked.
    pub asked: Arc<Asked, Global>,
}

impl Pace for Counted {
    ghost answers = { λ pace n b. b ≡ true };

    fn pass(&mut self, item_no: u64) -> bool {
        self.asked.note(item_no);
        true
    }
}

/// Stops before the item of this number.
#[derive(Drop)]
pub struct StopsAt {
    /// The number of the item that may not pass, from 1 on.
    pub item_no: u64,
}

impl Pace for StopsAt {
    ghost answers = { λ pace n b. Unit {0} };

    fn pass(&mut self, item_no: u64) -> bool {
        item_no < self.item_no
    }
}
