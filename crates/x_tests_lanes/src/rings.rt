//! Rings for what lanes send.

ghost use Rattle.std.specs.Prelude.{◌≡◌, [], All, IfOk};
ghost use Rattle.rtrb.specs.Ring.{sent};

use bridge_core::Egress;
use media_workers::Pace;
use rtrb::{Consumer, Producer, RingBuffer};
use std::alloc::{AllocError, Global};

/// The most lanes that a bridge has.
const MOST_LANES: u32 = 16;

/// A pace and a ring for each lane.
pub type Outfits<P> = Vec<(P, Producer<Egress>)>;

/// The rings of lanes, from which the test takes what each sends.
#[derive(Drop)]
pub struct Rings {
    rings: Vec<Consumer<Egress>>,
}

impl Rings {
    pub fn none(alloc: Global) -> Rings {
        Rings {
            rings: Vec::new(alloc),
        }
    }

    /// The next egress on a lane's ring.
    pub fn pop_of(&mut self, lane: u32) -> Option<Egress> {
        self.rings.get_mut(lane as usize)?.pop().ok()
    }

    /// The next egress of the first lane whose ring has one.
    pub fn pop(&mut self) -> Option<(u32, Egress)> {
        for lane in 0..MOST_LANES {
            if let Some(egress) = self.pop_of(lane) {
                return Some((lane, egress));
            }
        }
        None
    }

    /// How many egresses are on a lane's ring.
    pub fn count(&mut self, lane: u32) -> usize {
        match self.rings.get_mut(lane as usize) {
            Some(ring) => ring.slots(),
            None => 0,
        }
    }
}

/// For each pace a ring with so many places.
pub fn outfits<P: Pace + Drop>(
    alloc: Global,
    paces: Vec<P>,
    places: usize,
) -> Result<(Outfits<P>, Rings), AllocError>
    ensures { IfOk result (λ made. All (λ outfit. sent outfit.1 ≡ []) made.0.items) }
{
    let mut outfits = Vec::new(alloc);
    let mut rings = Vec::new(alloc);
    for pace in paces {
        let (sink, ring) = RingBuffer::new(alloc, places)?;
        outfits.push((pace, sink))?;
        rings.push(ring)?;
    }
    Ok((outfits, Rings { rings }))
}
