//! What a front tells of its parts: whether the lanes of a feed have ended, how much waits for each, the receive side.

ghost use Rattle.std.specs.Prelude.{◌≡◌, ◌<◌, ◌≤◌, length};
ghost use Rattle.media_workers.specs.Ports.{ring_places};
ghost use Rattle.media_front.specs.FedLanes.{FedLane};

use crate::asking::{AskedLanes, any_has_ended};
use crate::feed::LaneFeed;
use crate::front::MediaFront;
use bridge_core::Ingress;
use media_workers::{Pace, PublisherName, Sink};

impl<N: PublisherName, P: Pace, S: Sink> AskedLanes for LaneFeed<N, P, S> {
    ghost use Rattle.std.specs.Prelude.{length};

    ghost count = { λ feed. length feed };

    ghost answered = { λ feed lane answer. Unit {0} };

    fn lanes(&self) -> u32 {
        self.count()
    }

    fn lane_has_ended(&self, lane: u32) -> bool {
        self.ended(lane)
    }
}

impl<N: PublisherName, P: Pace, S: Sink> LaneFeed<N, P, S> {
    /// Whether a lane has ended.
    fn ended(&self, lane: u32) -> bool
        requires lane { lane < length self.now }
    {
        self.bridge.ended(lane)
    }

    /// Whether any lane has ended. No contract speaks of the answer for lanes on threads.
    pub fn has_ended(&self) -> bool {
        any_has_ended(self)
    }

    /// How many parcels wait for a lane.
    fn waiting(&mut self, lane: u32) -> usize
        requires lane { lane < length self.old }
        ensures same { self.new ≡ self.old }
        ensures few { result ≤ ring_places }
    {
        self.bridge.waiting(lane)
    }
}

impl<N: PublisherName, P: Pace, S: Sink> MediaFront<N, P, S> {
    /// The receive side.
    pub fn ingress(&self) -> &Ingress
        ensures { result.now ≡ self.now.ingress }
    {
        &self.ingress
    }

    /// How many parcels wait for a lane in its ring: items that it was given and has not begun. It may begin some at
    /// any time.
    pub fn waiting(&mut self, lane: u32) -> usize
        requires lane { lane < length self.old.feed }
        ensures same { self.new ≡ self.old }
        ensures few { result ≤ ring_places }
    {
        self.feed.waiting(lane)
    }
}
