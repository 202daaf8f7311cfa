//! The lanes of a bridge, each with its signal and with what it is owed.

ghost use Rattle.std.specs.Prelude.{◌≡◌, ◌<◌, ◌≤◌, length, map, Some, slice_get};
ghost use Rattle.std.specs.Bool.{OnTrue};
ghost use Rattle.bridge_core.specs.Calls.{most_lanes};
ghost use Rattle.media_workers.specs.Bridges.{AllEnded};
ghost use Rattle.media_front.specs.FedLanes.{FedLane, ports_in, owing_notice, after_signal};

use crate::lane_status::{LaneStatus, owe_all, signal_all};
use media_workers::{Bridge, LaneEnd, Pace, PublisherName, Signal, Sink};
use published_desk::Notice;
use std::alloc::Global;
use std::marker::Model;
use std::sync::{Arc, Wait};
use std::thread::Threads;

/// The lanes of a bridge, each with its signal, with the notice that it is owed and with how many parcels were dropped
/// for it. It is not `Drop`: end it by [`LaneFeed::close`].
///
/// Contracts see it as its lanes.
pub struct LaneFeed<N: PublisherName, P: Pace, S: Sink> {
    pub(crate) bridge: Bridge<N, P, S>,
    /// One for each lane.
    pub(crate) statuses: Vec<LaneStatus>,
    /// One for each lane.
    pub(crate) signals: Vec<Arc<Signal, Global>>,
}

impl<N: PublisherName, P: Pace, S: Sink> Model for LaneFeed<N, P, S> {
    ghost use Rattle.std.specs.Prelude.{◌≡◌, ◌<◌, ◌≤◌, List, length, vec_len};
    ghost use Rattle.bridge_core.specs.Calls.{most_lanes};
    ghost use Rattle.media_front.specs.FedLanes.{FedLane};
    ghost use Rattle.media_front.specs.inner.Statuses.{lanes_by, AreOf};

    ghost Value = { List (FedLane P S) };

    ghost view = { λ f. lanes_by f.bridge f.statuses.items };

    ghost invariant = { λ f. (vec_len f.statuses ≡ length f.bridge) × (vec_len f.signals ≡ length f.bridge)
        × (length f.bridge ≤ most_lanes) × AreOf N.publisher f.statuses.items };
}

impl<N: PublisherName, P: Pace, S: Sink> LaneFeed<N, P, S> {
    /// How many lanes there are.
    pub fn count(&self) -> u32
        ensures count { result ≡ length self.now }
        ensures few { result ≤ most_lanes }
    {
        self.statuses.len() as u32
    }

    /// How many parcels a lane accepted.
    pub fn given(&self, lane: u32) -> u64
        requires lane { lane < length self.now }
        ensures { (x : FedLane _ _) → slice_get self.now lane ≡ Some x → result ≡ x.given }
    {
        self.statuses[lane as usize].given
    }

    /// How many parcels were dropped for a lane, since its ring had too few free places for them.
    pub fn dropped(&self, lane: u32) -> u64
        requires lane { lane < length self.now }
        ensures { (x : FedLane _ _) → slice_get self.now lane ≡ Some x → result ≡ x.dropped }
    {
        self.statuses[lane as usize].dropped
    }

    /// Each lane's next parcel carries this notice, in place of one that the lane was owed.
    pub fn tell(&mut self, notice: Notice)
        requires publisher { notice.publisher ≡ N.publisher }
        ensures { self.new ≡ map (owing_notice notice) self.old }
    {
        owe_all(&mut self.statuses, &notice);
    }

    /// Raises the signal of each lane that accepted something other than sound since it was raised last, or 256
    /// parcels: for all that it accepted. So sound alone waits for the next tick.
    // Sound only goes into a jitter buffer, and the tick that mixes it wakes the lane anyway.
    pub fn signal<R: Wait>(&mut self, rt: &R)
        ensures { self.new ≡ map after_signal self.old }
    {
        signal_all(rt, &self.signals, &mut self.statuses);
    }

    /// Opens each signal, gives each lane its `End`, and waits for the lanes' threads.
    pub fn close<R: Threads + Wait>(self, rt: &R) -> Vec<LaneEnd<N, S>>
        ensures ended { AllEnded P.answers S.taken (ports_in self) result.items }
    {
        let LaneFeed {
            bridge,
            statuses: _,
            signals,
        } = self;
        for signal in &signals {
            signal.open(rt);
        }
        bridge.close(rt)
    }
}
