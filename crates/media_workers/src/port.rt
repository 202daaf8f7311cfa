//! A lane's thread, with the ring to it.

ghost use Rattle.std.specs.Prelude.{◌≡◌, ◌≢◌, ◌≤◌, false, [], Err, IfOk, OnOk, IfErr};
ghost use Rattle.rtrb.specs.Ring.{sent, received, IsPair};
ghost use Rattle.media_workers.specs.Parcels.{IsFit};
ghost use Rattle.media_workers.specs.Ports.{ring_places, port_of, accept};
ghost use Rattle.media_workers.specs.Bridges.{EndsAs, EndsTold, StillFeeds};
ghost use Rattle.media_workers.specs.inner.Threads.{IsRunOf, is_end};

use crate::fault::StartFault;
use crate::lane::Lane;
use crate::lane_end::LaneEnd;
use crate::pace::Pace;
use crate::parcel::{FitParcels, Parcel};
use crate::promise::RunOf;
use crate::publisher_name::PublisherName;
use crate::sink::Sink;
use rtrb::{Producer, PushError, RingBuffer};
use std::alloc::{AllocError, Global};
use std::marker::Model;
use std::sync::atomic::{AtomicBool, Ordering};
use std::sync::{Arc, Wait};
use std::thread;
use std::thread::{PromisedHandle, Threads};

/// How many parcels a lane's ring holds.
const PARCELS: usize = 1_024;

/// A lane's thread, with the ring to it.
#[derive(Drop)]
pub struct Port<N: PublisherName, P: Pace, S: Sink> {
    parcels: Producer<Parcel, Global, FitParcels<N>>,
    thread: PromisedHandle<LaneEnd<N, S>, RunOf<N, P, S>>,
    // The lane sets it last.
    has_ended: Arc<AtomicBool, Global>,
    closed: bool,
}

impl<N: PublisherName, P: Pace, S: Sink> Model for Port<N, P, S> {
    ghost use Rattle.std.specs.Prelude.{◌≡◌, []};
    ghost use Rattle.rtrb.specs.Ring.{sent, received, IsPair};
    ghost use Rattle.media_workers.specs.Parcels.{works};
    ghost use Rattle.media_workers.specs.Ports.{PortOf};
    ghost use Rattle.media_workers.specs.inner.Threads.{IsWhole};

    ghost Value = { PortOf P S };

    ghost view = { λ p. record {
      lane = p.thread.promise.lane.value;
      pace = p.thread.promise.pace.value;
      sink = p.thread.promise.sink.value;
      accepted = works (sent p.parcels);
      closed = p.closed;
    } };

    ghost invariant = { λ p. IsPair p.parcels p.thread.promise.consumer.value
        × (received p.thread.promise.consumer.value ≡ [])
        × (S.taken p.thread.promise.sink.value ≡ [])
        × IsWhole (sent p.parcels) p.closed };
}

fn ends(parcel: &Parcel) -> bool
    ensures { result ≡ is_end parcel.now }
{
    matches!(parcel, Parcel::End)
}

/// A flag that isn't set, and a second handle of it.
fn flags(alloc: Global) -> Result<(Arc<AtomicBool, Global>, Arc<AtomicBool, Global>), AllocError> {
    let flag = Arc::new(alloc, AtomicBool::new(false))?;
    let other = Arc::try_clone(&flag)?;
    Ok((flag, other))
}

impl<N, P, S> Port<N, P, S>
where
    N: PublisherName + Send + Sync + 'static,
    P: Pace + Send + Drop + 'static,
    S: Sink + Send + Drop + 'static,
{
    /// Starts a lane's thread.
    pub fn start<R: Threads + Wait + Copy + Send + 'static>(
        rt: &R,
        alloc: Global,
        lane: Lane,
        pace: P,
        sink: S,
    ) -> Result<Port<N, P, S>, StartFault>
        requires publisher { lane.reader.publisher ≡ N.publisher }
        requires untaken { S.taken sink ≡ [] }
        ensures started { IfOk result (λ port. port ≡ port_of lane pace sink) }
        ensures fault { result ≢ Err StartFault.Count }
    {
        let Ok((parcels, consumer)) = RingBuffer::with_protocol::<Global, FitParcels<N>>(
            alloc, PARCELS,
        ) else {
            return Err(StartFault::OutOfMemory);
        };
        let Ok((has_ended, flag)) = flags(alloc) else {
            return Err(StartFault::OutOfMemory);
        };
        let promise = RunOf::new(&lane, &consumer, &sink, &pace);
        let own = *rt;
        let run = move || -> LaneEnd<N, S>
            requires { lane.reader.publisher ≡ N.publisher }
            ensures { IsRunOf P.answers S.taken S.feeds S.heard lane consumer sink pace result }
        {
            let end = lane.run(&own, alloc, consumer, sink, pace);
            flag.store(true, Ordering::SeqCst);
            end
        };
        match thread::spawn_with(rt, promise, run) {
            Ok(thread) => Ok(Port {
                parcels,
                thread,
                has_ended,
                closed: false,
            }),
            Err(_) => Err(StartFault::Spawn),
        }
    }
}

impl<N: PublisherName, P: Pace, S: Sink> Port<N, P, S> {
    /// Gives the lane a parcel, or hands it back if the ring is full or the lane has had its `End`.
    pub fn push(&mut self, parcel: Parcel) -> Result<(), Parcel>
        requires { IsFit N.publisher parcel }
        ensures ok { OnOk result ((self.old.closed ≡ false) × (self.new ≡ accept parcel self.old)) }
        ensures err { IfErr result (λ back. (back ≡ parcel) × (self.new ≡ self.old)) }
    {
        if self.closed {
            return Err(parcel);
        }
        let last = ends(&parcel);
        match self.parcels.push(parcel) {
            Ok(()) => {
                self.closed = last;
                Ok(())
            }
            Err(PushError::Full(back)) => Err(back),
        }
    }

    /// Whether the ring has more than `free` places left.
    fn has_places(&mut self, free: usize) -> bool
        ensures { self.new ≡ self.old }
    {
        self.parcels.cached_slots() > free || self.parcels.slots() > free
    }

    /// Gives the lane a parcel as `push` does, or hands it back if the ring has no more than `free` places left.
    pub fn push_leaving(&mut self, parcel: Parcel, free: usize) -> Result<(), Parcel>
        requires { IsFit N.publisher parcel }
        ensures ok { OnOk result ((self.old.closed ≡ false) × (self.new ≡ accept parcel self.old)) }
        ensures err { IfErr result (λ back. (back ≡ parcel) × (self.new ≡ self.old)) }
    {
        if self.has_places(free) {
            self.push(parcel)
        } else {
            Err(parcel)
        }
    }

    /// How many parcels wait in the ring. The lane may take some off at any time.
    pub fn waiting(&mut self) -> usize
        ensures same { self.new ≡ self.old }
        ensures few { result ≤ ring_places }
    {
        PARCELS.saturating_sub(self.parcels.slots())
    }

    /// Whether the lane has ended. No contract speaks of the answer.
    pub fn has_ended(&self) -> bool {
        self.has_ended.load(Ordering::SeqCst)
    }

    /// Whether the lane has had its `End`.
    pub fn is_closed(&self) -> bool
        ensures { result ≡ self.now.closed }
    {
        self.closed
    }

    /// Waits for the lane's thread, and shows what it received and sent.
    pub fn finish<R: Threads>(self, rt: &R) -> LaneEnd<N, S>
        ensures ended { EndsAs P.answers S.taken self result }
        ensures fed { StillFeeds S.feeds self result }
        ensures told { EndsTold P.answers S.taken S.heard self result }
    {
        let Port {
            mut parcels,
            thread,
            has_ended: _,
            closed: _,
        } = self;
        let mut end = thread.join(rt);
        end.consumer.slots_beside(&mut parcels);
        end
    }
}
