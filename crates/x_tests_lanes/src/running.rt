//! Lanes that run, for tests.

ghost use Rattle.std.specs.Prelude.{◌≡◌, ◌<◌, ◌^◌, [], length, vec_len, All};
ghost use Rattle.media_workers.specs.LaneRuns.{LaneNow};
ghost use Rattle.media_workers.specs.Parcels.{IsFit};
ghost use Rattle.media_workers.specs.Bridges.{AreNew};

use crate::rings::Rings;
use bridge_core::Egress;
use media_workers::{Bridge, Lane, LaneEnd, Pace, Parcel, PublisherName, Sink, StartFault};
use rtrb::Producer;
use std::alloc::Global;
use std::sync::Wait;
use std::thread::Threads;

/// How lanes ended.
pub type Ends<N, S = Producer<Egress>> = Vec<LaneEnd<N, S>>;

/// Lanes that run, how many they are, and the rings that they send into if their sinks are rings. It is not `Drop`: end
/// it by [`Running::close`].
pub struct Running<N: PublisherName, P: Pace, S: Sink = Producer<Egress>> {
    bridge: Bridge<N, P, S>,
    rings: Rings,
    lanes: u32,
    ghost many: { length bridge ≡ lanes },
}

impl<N, P, S> Running<N, P, S>
where
    N: PublisherName + Send + Sync + 'static,
    P: Pace + Send + Drop + 'static,
    S: Sink + Send + Drop + 'static,
{
    /// Starts them.
    pub fn start<R: Threads + Wait + Copy + Send + 'static>(
        rt: &R,
        alloc: Global,
        lanes: Vec<Lane>,
        outfits: Vec<(P, S)>,
        rings: Rings,
    ) -> Result<Running<N, P, S>, (Vec<Lane>, StartFault)>
        requires new { AreNew lanes.items }
        requires publisher { All (λ (lane : LaneNow). lane.reader.publisher ≡ N.publisher) lanes.items }
        requires untaken { All (λ outfit. S.taken outfit.1 ≡ []) outfits.items }
        requires many { vec_len lanes < 2 ^ 32 }
    {
        let many = lanes.len() as u32;
        match Bridge::start(rt, alloc, lanes, outfits) {
            Ok(bridge) => Ok(Running {
                bridge,
                rings,
                lanes: many,
            }),
            Err(refused) => Err(refused),
        }
    }
}

impl<N: PublisherName, P: Pace, S: Sink> Running<N, P, S> {
    pub fn lanes(&self) -> u32 {
        self.lanes
    }

    /// Gives a lane a parcel, or hands it back.
    pub fn push(&mut self, lane: u32, parcel: Parcel) -> Result<(), Parcel>
        requires { IsFit N.publisher parcel }
    {
        if lane >= self.lanes {
            return Err(parcel);
        }
        self.bridge.push(lane, parcel)
    }

    /// Gives a lane a parcel, or hands it back if its ring has no more than `free` places left.
    pub fn push_leaving(&mut self, lane: u32, parcel: Parcel, free: usize) -> Result<(), Parcel>
        requires { IsFit N.publisher parcel }
    {
        if lane >= self.lanes {
            return Err(parcel);
        }
        self.bridge.push_leaving(lane, parcel, free)
    }

    /// The next egress of any lane.
    pub fn pop(&mut self) -> Option<(u32, Egress)> {
        self.rings.pop()
    }

    /// What the lanes send.
    pub fn rings(&mut self) -> &mut Rings {
        &mut self.rings
    }

    /// Whether there is such a lane and it has ended.
    pub fn ended(&self, lane: u32) -> bool {
        lane < self.lanes && self.bridge.ended(lane)
    }

    /// Gives a lane its `End`, if there is such a lane.
    pub fn push_end<R: Wait>(&mut self, rt: &R, lane: u32) {
        if lane >= self.lanes {
            return;
        }
        self.bridge.push_end(rt, lane);
    }

    /// Ends the lanes, whose rings have places for all that they still send.
    pub fn close<R: Threads + Wait>(self, rt: &R) -> Ends<N, S> {
        let Running {
            bridge,
            rings: _,
            lanes: _,
        } = self;
        bridge.close(rt)
    }
}
