//! Where lanes stop.

use crate::datagram::Datagram;
use crate::left::{NOTHING, with_datagram};
use std::alloc::Global;
use std::mem;
use std::sync::{Condvar, Mutex, MutexGuard, Wait};
use std::time::{Clock, Duration};

/// How many milliseconds the script waits for a lane, before it looks whether the lane has ended.
const PATIENCE: u64 = 100;

/// What a lane has tried to send, and where it stops.
#[derive(Drop)]
struct Passage {
    /// Behind how many datagrams it stops.
    allowed: u64,
    /// How many datagrams came here.
    passed: u64,
    /// All that came here.
    all: u64,
    /// Those that came since the script looked last.
    tried: Vec<Datagram>,
}

/// Where a lane stops: its wire comes here after the last try of each datagram, and waits until the script lets more
/// pass.
#[derive(Drop)]
pub struct Gate {
    passage: Mutex<Passage>,
    changed: Condvar,
}

impl Passage {
    /// Notes a datagram.
    fn note(&mut self, tried: Option<Datagram>) {
        self.passed = self.passed.saturating_add(1);
        if let Some(datagram) = tried {
            self.all = with_datagram(self.all, &datagram);
            let _ = self.tried.push(datagram);
        }
    }

    /// What came since the last call.
    fn take_tried(&mut self, alloc: Global) -> Vec<Datagram> {
        mem::replace(&mut self.tried, Vec::new(alloc))
    }
}

impl Gate {
    /// A gate at which a lane stops with its first datagram.
    pub fn new(alloc: Global) -> Self {
        Self {
            passage: Mutex::new(Passage {
                allowed: 0,
                passed: 0,
                all: NOTHING,
                tried: Vec::new(alloc),
            }),
            changed: Condvar::new(),
        }
    }

    /// A lane comes with the datagram that it tried, and waits until more are allowed.
    pub fn pass<R: Wait>(&self, rt: &R, tried: Option<Datagram>) {
        let mut passage = self.passage.lock(rt);
        passage.note(tried);
        self.changed.notify_all();
        let passage = self
            .changed
            .wait_while(rt, passage, |passage| passage.passed >= passage.allowed);
        MutexGuard::unlock(passage);
    }

    /// Lets the lane pass until so many datagrams came in all, and waits for that. Returns whether they did.
    pub fn reach<R: Wait + Clock>(&self, rt: &R, datagrams: u64) -> bool {
        let mut passage = self.passage.lock(rt);
        passage.allowed = datagrams;
        self.changed.notify_all();
        let (passage, answer) = self.changed.wait_timeout_while(
            rt,
            passage,
            Duration::from_millis(PATIENCE),
            |passage| passage.passed < datagrams,
        );
        MutexGuard::unlock(passage);
        !answer.timed_out()
    }

    /// What was tried since the last call.
    pub fn take_tried<R: Wait>(&self, rt: &R, alloc: Global) -> Vec<Datagram> {
        let mut passage = self.passage.lock(rt);
        let tried = passage.take_tried(alloc);
        MutexGuard::unlock(passage);
        tried
    }

    /// All that its lane has tried.
    pub fn all<R: Wait>(&self, rt: &R) -> u64 {
        let passage = self.passage.lock(rt);
        let all = passage.all;
        MutexGuard::unlock(passage);
        all
    }

    /// Lets the lane pass from now on.
    pub fn open<R: Wait>(&self, rt: &R) {
        let mut passage = self.passage.lock(rt);
        passage.allowed = u64::MAX;
        MutexGuard::unlock(passage);
        self.changed.notify_all();
    }
}
