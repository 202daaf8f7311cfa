//! Signals for lanes and for whoever waits for them, and rings for what lanes send.

ghost use Rattle.std.specs.Prelude.{◌≡◌, [], All, IfOk};
ghost use Rattle.rtrb.specs.Ring.{sent};

use bridge_core::Egress;
use media_workers::{BeforeSleep, Bridge, Signal, SleepPace};
use rtrb::{Consumer, Producer, RingBuffer};
use std::alloc::{AllocError, Global};
use std::sync::{Arc, Wait};

/// Rings a signal each time a lane goes to sleep.
#[derive(Drop)]
pub struct Sleeper<R: Wait + Drop> {
    rt: R,
    signal: Arc<Signal, Global>,
}

impl<R: Wait + Drop> BeforeSleep for Sleeper<R> {
    fn before_sleep(&self) {
        self.signal.raise(&self.rt, 1);
    }
}

/// How many egresses a lane's ring holds: more than lanes are ever behind.
const RING: usize = 16_384;

/// The pace of a lane.
pub type LanePace<R> = SleepPace<R, Sleeper<R>>;

/// A bridge whose lanes send into rings.
pub type RingBridge<N, P> = Bridge<N, P, Producer<Egress>>;

/// What wakes lanes, takes what they send, and waits until they sleep.
#[derive(Drop)]
pub struct Signals<R: Wait + Drop> {
    /// A signal for each lane.
    pub signals: Vec<Arc<Signal, Global>>,
    /// What each lane sends.
    pub rings: Vec<Consumer<Egress>>,
    /// It lets item n pass once lanes went to sleep n times.
    pub sleeps: SleepPace<R, ()>,
}

/// Signals, and outfits by them.
#[derive(Drop)]
pub struct Paced<R: Wait + Drop> {
    /// The signals.
    pub signals: Signals<R>,
    /// A pace and a ring for each lane.
    pub outfits: Vec<(LanePace<R>, Producer<Egress>)>,
}

fn closed_signal<R: Wait>(rt: &R, alloc: Global) -> Result<Arc<Signal, Global>, AllocError> {
    let signal = Arc::new(alloc, Signal::new())?;
    signal.close(rt);
    Ok(signal)
}

/// Outfits of so many lanes. Their signals are closed, so that a lane also sleeps before its first parcel.
pub fn paces_for<R: Wait + Copy + Drop>(
    rt: &R,
    alloc: Global,
    lanes: u32,
) -> Result<Paced<R>, AllocError>
    ensures { IfOk result (λ paced. All (λ outfit. sent outfit.1 ≡ []) paced.outfits.items) }
{
    let front = closed_signal(rt, alloc)?;
    let mut signals = Vec::new(alloc);
    let mut rings = Vec::new(alloc);
    let mut outfits = Vec::new(alloc);
    for _lane in 0..lanes {
        let signal = closed_signal(rt, alloc)?;
        let sleeper = Sleeper {
            rt: *rt,
            signal: Arc::try_clone(&front)?,
        };
        let pace = SleepPace::by(*rt, Arc::try_clone(&signal)?, sleeper);
        let (sink, ring) = RingBuffer::new(alloc, RING)?;
        outfits.push((pace, sink))?;
        rings.push(ring)?;
        signals.push(signal)?;
    }
    let signals = Signals {
        signals,
        rings,
        sleeps: SleepPace::by(*rt, front, ()),
    };
    Ok(Paced { signals, outfits })
}

/// Rings each lane's signal for so many parcels.
pub fn ring_all<R: Wait>(rt: &R, signals: &Vec<Arc<Signal, Global>>, parcels: u64) {
    for signal in signals {
        signal.raise(rt, parcels);
    }
}

/// Lets no lane wait any more.
pub fn open_all<R: Wait>(rt: &R, signals: &Vec<Arc<Signal, Global>>) {
    for signal in signals {
        signal.open(rt);
    }
}
