//! A bridge's lanes, each on a thread of its own.

ghost use Rattle.std.specs.Prelude.{◌≡◌, ◌≢◌, ◌⊎◌, ◌↔◌, ◌<◌, ◌≤◌, ◌^◌, false, [], Some, length, All};
ghost use Rattle.std.specs.Prelude.{IfOk, OnOk, IfErr, slice_get, slice_set, vec_len};
ghost use Rattle.media_workers.specs.Parcels.{IsFit};
ghost use Rattle.media_workers.specs.LaneRuns.{LaneNow};
ghost use Rattle.media_workers.specs.Ports.{PortOf, ring_places, accept};
ghost use Rattle.media_workers.specs.Bridges.{AreNew, AllEnded, AllFeed, AllTold, ports_of};
ghost use Rattle.media_workers.specs.declared.parcel.Parcel.TheVariants.{End};

use crate::every_port::{close_all, end_at};
use crate::fault::StartFault;
use crate::lane::Lane;
use crate::lane_end::LaneEnd;
use crate::pace::Pace;
use crate::parcel::Parcel;
use crate::port::Port;
use crate::publisher_name::PublisherName;
use crate::sink::Sink;
use std::alloc::Global;
use std::marker::Model;
use std::sync::Wait;
use std::thread::Threads;

/// Lanes that run, each on a thread of its own. It is not `Drop`: end it by [`Bridge::close`].
///
/// Contracts see the lanes as they were handed in, each with its pace, its sink, and what `push` accepted for it.
// Without `Drop` each thread has to be joined, on error paths too. So no `?` stands where a bridge lives.
pub struct Bridge<N: PublisherName, P: Pace, S: Sink> {
    ports: Vec<Port<N, P, S>>,
    // Capacity for how the lanes end.
    ends: Vec<LaneEnd<N, S>>,
}

impl<N: PublisherName, P: Pace, S: Sink> Model for Bridge<N, P, S> {
    ghost use Rattle.std.specs.Prelude.{◌≡◌, ◌<◌, ◌≤◌, ◌^◌, List, [], vec_len, vec_capacity};
    ghost use Rattle.media_workers.specs.Ports.{PortOf};

    ghost Value = { List (PortOf P S) };

    ghost view = { λ b. b.ports.items };

    ghost invariant = { λ b.
        (b.ends.items ≡ []) × (vec_len b.ports ≤ vec_capacity b.ends) × (vec_len b.ports < 2 ^ 32) };
}

impl<N, P, S> Bridge<N, P, S>
where
    N: PublisherName + Send + Sync + 'static,
    P: Pace + Send + Drop + 'static,
    S: Sink + Send + Drop + 'static,
{
    /// Starts the lanes, each on a thread of its own with its outfit: its pace, and its sink, which has taken nothing
    /// yet. They are all lanes of one bridge, in the order of their numbers. Their readers are of this publisher, and
    /// none has handled an item.
    ///
    /// On the fault `Count` the lanes come back. On any other fault all lanes have been ended and dropped.
    pub fn start<R: Threads + Wait + Copy + Send + 'static>(
        rt: &R,
        alloc: Global,
        lanes: Vec<Lane>,
        outfits: Vec<(P, S)>,
    ) -> Result<Bridge<N, P, S>, (Vec<Lane>, StartFault)>
        requires new { AreNew lanes.items }
        requires publisher { All (λ (lane : LaneNow). lane.reader.publisher ≡ N.publisher) lanes.items }
        requires untaken { All (λ (x : P × S). S.taken x.1 ≡ []) outfits.items }
        requires many { vec_len lanes < 2 ^ 32 }
        ensures started { IfOk result (λ bridge. bridge ≡ ports_of lanes.items outfits.items) }
        ensures len { IfOk result (λ bridge. length bridge ≡ vec_len lanes) }
        ensures good { OnOk result ((0 < vec_len lanes) × (vec_len lanes ≡ vec_len outfits)) }
        ensures count { IfErr result (λ e.
            (e.1 ≡ StartFault.Count) ↔ ((vec_len lanes ≡ 0) ⊎ (vec_len lanes ≢ vec_len outfits))) }
        ensures back { IfErr result (λ e. e.1 ≡ StartFault.Count → e.0 ≡ lanes) }
        ensures none { IfErr result (λ e. e.1 ≢ StartFault.Count → e.0.items ≡ []) }
    {
        if lanes.is_empty() || lanes.len() != outfits.len() {
            return Err((lanes, StartFault::Count));
        }
        let count = lanes.len();
        let Ok(mut ports) = Vec::with_capacity(alloc, count) else {
            return Err((Vec::new(alloc), StartFault::OutOfMemory));
        };
        let Ok(ends) = Vec::with_capacity(alloc, count) else {
            return Err((Vec::new(alloc), StartFault::OutOfMemory));
        };
        for (lane, (pace, sink)) in lanes.into_iter().zip(outfits) {
            match Port::start(rt, alloc, lane, pace, sink) {
                Ok(port) => ports.push_reserved(port),
                Err(fault) => {
                    close_all(rt, ports, ends);
                    return Err((Vec::new(alloc), fault));
                }
            }
        }
        Ok(Bridge { ports, ends })
    }
}

impl<N: PublisherName, P: Pace, S: Sink> Bridge<N, P, S> {
    /// Gives a lane a parcel, or hands it back if the lane's ring is full or the lane has had its `End`. A ring holds
    /// 1,024 parcels.
    pub fn push(&mut self, lane: u32, parcel: Parcel) -> Result<(), Parcel>
        requires lane { lane < length self.old }
        requires fit { IsFit N.publisher parcel }
        ensures ok { OnOk result ((port : PortOf _ _) → slice_get self.old lane ≡ Some port →
            (port.closed ≡ false) × (self.new ≡ slice_set self.old lane (accept parcel port))) }
        ensures err { IfErr result (λ back. (back ≡ parcel) × (self.new ≡ self.old)) }
    {
        self.ports[lane as usize].push(parcel)
    }

    /// Gives a lane a parcel as `push` does, or hands it back if the lane's ring has no more than `free` places left.
    /// So these are kept for other parcels.
    pub fn push_leaving(&mut self, lane: u32, parcel: Parcel, free: usize) -> Result<(), Parcel>
        requires lane { lane < length self.old }
        requires fit { IsFit N.publisher parcel }
        ensures ok { OnOk result ((port : PortOf _ _) → slice_get self.old lane ≡ Some port →
            (port.closed ≡ false) × (self.new ≡ slice_set self.old lane (accept parcel port))) }
        ensures err { IfErr result (λ back. (back ≡ parcel) × (self.new ≡ self.old)) }
    {
        self.ports[lane as usize].push_leaving(parcel, free)
    }

    /// How many parcels wait for a lane in its ring. The lane may take some off at any time.
    pub fn waiting(&mut self, lane: u32) -> usize
        requires lane { lane < length self.old }
        ensures same { self.new ≡ self.old }
        ensures few { result ≤ ring_places }
    {
        self.ports[lane as usize].waiting()
    }

    /// Whether a lane has ended. No contract speaks of the answer.
    pub fn ended(&self, lane: u32) -> bool
        requires lane { lane < length self.now }
    {
        self.ports[lane as usize].has_ended()
    }

    /// Gives a lane its `End`, unless it has had it or has ended. It waits while the lane's ring is full, and so for a
    /// lane whose sink waits.
    pub fn push_end<R: Wait>(&mut self, rt: &R, lane: u32)
        requires lane { lane < length self.old }
        ensures ended { (port : PortOf _ _) → slice_get self.old lane ≡ Some port →
            (self.new ≡ self.old) ⊎ (self.new ≡ slice_set self.old lane (accept End port)) }
    {
        end_at(rt, &mut self.ports, lane as usize);
    }

    /// Gives an `End` to each lane that has had none, and waits for the lanes' threads. It hands back the sinks.
    ///
    /// A lane received the first parcels that were accepted for it: all of them if it ended by its `End`. A lane whose
    /// sink waits ends when the sink has taken all that the lane sends.
    pub fn close<R: Threads + Wait>(self, rt: &R) -> Vec<LaneEnd<N, S>>
        ensures ended { AllEnded P.answers S.taken self result.items }
        ensures fed { AllFeed S.feeds self result.items }
        ensures told { AllTold P.answers S.taken S.heard self result.items }
    {
        let Bridge { ports, ends } = self;
        close_all(rt, ports, ends)
    }
}
