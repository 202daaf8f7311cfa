//! What a feed keeps of a lane beside its ring.

ghost use Rattle.std.specs.Prelude.{◌≡◌, length, map, Some, None};
ghost use Rattle.media_front.specs.inner.Statuses.{counted, owing, status_after_signal, fresh_status};

use media_workers::Signal;
use published_desk::Notice;
use std::alloc::Global;
use std::sync::{Arc, Wait};

/// From how many parcels on a lane is woken, whatever they are: a quarter of its ring, so that sound alone never fills
/// it.
const MANY_PARCELS: u64 = 256;

/// What a feed keeps of a lane beside its ring.
#[derive(Drop)]
pub struct LaneStatus {
    /// The notice that the lane's next parcel carries.
    pub(crate) owed: Option<Notice>,
    /// How many parcels the lane accepted since its signal was raised.
    pub(crate) unsignalled: u64,
    /// Whether one of these presses.
    pub(crate) pressed: bool,
    /// How many parcels the lane accepted.
    pub(crate) given: u64,
    /// How many parcels were dropped, since the lane's ring had too few free places for them.
    pub(crate) dropped: u64,
}

impl LaneStatus {
    /// A lane that was given nothing.
    pub(crate) fn new() -> Self
        ensures { result ≡ fresh_status }
    {
        Self {
            owed: None,
            unsignalled: 0,
            pressed: false,
            given: 0,
            dropped: 0,
        }
    }

    /// A copy of the notice that is owed.
    pub(crate) fn notice(&self) -> Option<Notice>
        ensures { result ≡ self.now.owed }
    {
        match &self.owed {
            Some(notice) => Some(notice.again()),
            None => None,
        }
    }

    /// Owes this notice.
    pub(crate) fn owe(&mut self, notice: Notice)
        ensures { self.new ≡ owing notice self.old }
    {
        self.owed = Some(notice);
    }

    /// Raises the lane's signal for all parcels that the lane accepted since, if one of them presses or they are many.
    pub(crate) fn signal<R: Wait>(&mut self, rt: &R, signal: &Signal)
        ensures { self.new ≡ status_after_signal self.old }
    {
        if self.pressed || self.unsignalled >= MANY_PARCELS {
            signal.raise(rt, self.unsignalled);
            self.unsignalled = 0;
            self.pressed = false;
        }
    }

    /// Counts a parcel, which presses or does not, and which was accepted with the notice or dropped.
    pub(crate) fn count(&mut self, accepted: bool, presses: bool)
        ensures { self.new ≡ counted accepted presses self.old }
    {
        if accepted {
            self.owed = None;
            self.unsignalled = self.unsignalled.saturating_add(1);
            self.given = self.given.saturating_add(1);
            self.pressed = self.pressed || presses;
        } else {
            self.dropped = self.dropped.saturating_add(1);
        }
    }
}

/// Owes this notice to each lane.
pub(crate) fn owe_all(statuses: &mut [LaneStatus], notice: &Notice)
    ensures { statuses.new ≡ map (owing notice.now) statuses.old }
{
    for at in 0..statuses.len() {
        statuses[at].owe(notice.again());
    }
}

/// Raises the signal of each lane whose signal is due.
pub(crate) fn signal_all<R: Wait>(
    rt: &R,
    signals: &[Arc<Signal, Global>],
    statuses: &mut [LaneStatus],
)
    requires { length signals.now ≡ length statuses.old }
    ensures { statuses.new ≡ map status_after_signal statuses.old }
{
    for at in 0..statuses.len() {
        statuses[at].signal(rt, &signals[at]);
    }
}
