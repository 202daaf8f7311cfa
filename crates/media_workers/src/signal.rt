//! The signal of a lane, and its pace.

use crate::pace::Pace;
use crate::signal_state::SignalState;
use std::alloc::Global;
use std::sync::{Arc, Condvar, Mutex, MutexGuard, Wait};

/// Wakes a lane. Raise it for each parcel that the lane is given, so that the lane can sleep until then.
///
/// It is open at first: the lane then waits at its ring, and takes processor time until it has a parcel. So a lane gets
/// its `End` even if the bridge doesn't start, because a later lane got no memory or no thread.
#[derive(Drop)]
pub struct Signal {
    state: Mutex<SignalState>,
    raised: Condvar,
}

impl Signal {
    /// An open signal that was not raised.
    pub fn new() -> Self {
        Self {
            state: Mutex::new(SignalState::new()),
            raised: Condvar::new(),
        }
    }

    /// Raises it for this many parcels that the lane was given.
    pub fn raise<R: Wait>(&self, rt: &R, parcels: u64) {
        let mut state = self.state.lock(rt);
        state.raise(parcels);
        MutexGuard::unlock(state);
        self.raised.notify_one();
    }

    /// Lets the lane sleep from its next parcel on. Call it once all lanes have started.
    pub fn close<R: Wait>(&self, rt: &R) {
        let mut state = self.state.lock(rt);
        state.close();
        MutexGuard::unlock(state);
    }

    /// Lets the lane sleep no more. Call it before the lane's `End`.
    pub fn open<R: Wait>(&self, rt: &R) {
        let mut state = self.state.lock(rt);
        state.open();
        MutexGuard::unlock(state);
        self.raised.notify_one();
    }

    /// Whether it was raised for this many parcels, or is open.
    fn was_raised<R: Wait>(&self, rt: &R, parcels: u64) -> bool {
        let state = self.state.lock(rt);
        let was_raised = state.let_pass(parcels);
        MutexGuard::unlock(state);
        was_raised
    }

    /// Sleeps until it was raised for this many parcels, or is open.
    fn wait<R: Wait>(&self, rt: &R, parcels: u64) {
        let state = self
            .raised
            .wait_while(rt, self.state.lock(rt), |state| !state.let_pass(parcels));
        MutexGuard::unlock(state);
    }
}

/// A lane calls this before it goes to sleep.
pub trait BeforeSleep {
    /// The lane has handled all that its signal was raised for, and goes to sleep now. Until the call returns it
    /// handles nothing.
    fn before_sleep(&self);
}

/// Does nothing.
impl BeforeSleep for () {
    fn before_sleep(&self) {}
}

/// A pace by a signal: each item passes once the signal was raised for its parcel, or while the signal is open. Until
/// then the lane sleeps. Before it sleeps, it calls `before_sleep`.
// A pace decides whether a lane spins or sleeps. So no clause of a lane speaks of it, and a test can hold a lane by
// another pace.
#[derive(Drop)]
pub struct SleepPace<R: Wait + Drop, F: BeforeSleep + Drop> {
    rt: R,
    signal: Arc<Signal, Global>,
    sleeper: F,
}

impl<R: Wait + Drop, F: BeforeSleep + Drop> SleepPace<R, F> {
    /// A pace by this signal. The lane calls `sleeper` before it sleeps.
    pub fn by(rt: R, signal: Arc<Signal, Global>, sleeper: F) -> Self {
        Self {
            rt,
            signal,
            sleeper,
        }
    }
}

impl<R: Wait + Drop, F: BeforeSleep + Drop> Pace for SleepPace<R, F> {
    ghost use Rattle.std.specs.Prelude.{◌≡◌, true};

    ghost answers = { λ pace n b. b ≡ true };

    fn pass(&mut self, item_no: u64) -> bool {
        if !self.signal.was_raised(&self.rt, item_no) {
            self.sleeper.before_sleep();
            self.signal.wait(&self.rt, item_no);
        }
        true
    }
}
