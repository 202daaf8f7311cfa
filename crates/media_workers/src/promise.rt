//! What a lane's thread promises.

ghost use Rattle.std.specs.Prelude.{◌≡◌};
ghost use Rattle.media_workers.specs.inner.Threads.{IsRunOf};

use crate::lane::Lane;
use crate::lane_end::LaneEnd;
use crate::pace::Pace;
use crate::parcel::{FitParcels, Parcel};
use crate::publisher_name::PublisherName;
use crate::sink::Sink;
use rtrb::Consumer;
use std::alloc::Global;
use std::snapshot::Snapshot;
use std::thread::Promise;

/// What a lane's run began with.
// A thread promises the contract of `run`. After the join both ends of the ring of parcels are in one place, and the
// ring's own contract then gives their order.
#[derive(Drop)]
pub struct RunOf<N: PublisherName, P: Pace, S: Sink> {
    /// The lane.
    pub lane: Snapshot<Lane>,
    /// Where its parcels came from.
    pub consumer: Snapshot<Consumer<Parcel, Global, FitParcels<N>>>,
    /// Where its egress went.
    pub sink: Snapshot<S>,
    /// Its pace.
    pub pace: Snapshot<P>,
}

impl<N: PublisherName, P: Pace, S: Sink> RunOf<N, P, S> {
    /// The beginning of a run over these four.
    pub fn new(
        lane: &Lane,
        consumer: &Consumer<Parcel, Global, FitParcels<N>>,
        sink: &S,
        pace: &P,
    ) -> RunOf<N, P, S>
        ensures lane { result.lane.value ≡ lane.now }
        ensures consumer { result.consumer.value ≡ consumer.now }
        ensures sink { result.sink.value ≡ sink.now }
        ensures pace { result.pace.value ≡ pace.now }
    {
        RunOf {
            lane: Snapshot::of(lane),
            consumer: Snapshot::of(consumer),
            sink: Snapshot::of(sink),
            pace: Snapshot::of(pace),
        }
    }
}

impl<N: PublisherName, P: Pace, S: Sink> Promise<LaneEnd<N, S>> for RunOf<N, P, S> {
    ghost kept_by = { λ p r.
        IsRunOf P.answers S.taken S.feeds S.heard p.lane.value p.consumer.value p.sink.value p.pace.value r };
}
