//! Where a lane puts what it sends.

ghost use Rattle.std.specs.Prelude.{◌≡◌, List, [], ◌∷◌, ◌++◌};
ghost use Rattle.std.specs.declared.alloc.Global.{Global};
ghost use Rattle.rtrb.specs.Ring.{sent, IsPair};
ghost use Rattle.rtrb.specs.declared.consumer.Consumer.{Consumer};
ghost use Rattle.rtrb.specs.declared.AnyItems.{AnyItems};
ghost use Rattle.bridge_core.specs.declared.egress.Egress.{Egress};
ghost use Rattle.media_workers.specs.LaneRuns.{Versioned, handled_by};

use crate::lane_item::LaneItem;
use bridge_core::Egress;
use rtrb::{Producer, PushError};
use std::sync::Wait;
use std::thread;

/// Takes what a lane sends, on the lane's thread. Contracts see it as the list of what it took, and by what it was told
/// that the lane handled.
pub trait Sink: Drop {
    /// All that it took, oldest first.
    ghost taken: { Self → List (Egress Global) };

    /// This consumer gives out what the sink takes. A sink that is no ring feeds none.
    ghost feeds: { Self → Consumer (Egress Global) Global AnyItems → Type 0 };

    /// It was told that its lane handled these items, oldest first, each by this version of the desk. Of a sink that
    /// doesn't keep what it is told, this holds of no list.
    ghost heard: { Self → List Versioned → Type 0 };

    /// Takes one more. It may wait: then the lane waits, and whoever ends the lane.
    fn put<R: Wait>(&mut self, rt: &R, egress: Egress)
        ensures taken { taken self.new ≡ taken self.old ++ egress ∷ [] }
        ensures feeds { (c : Consumer (Egress Global) Global AnyItems) → feeds self.old c → feeds self.new c }
        ensures heard { (l : List Versioned) → heard self.old l → heard self.new l };

    /// The lane has handled an item by this version of the desk, and has put all that it sent for it.
    fn handled<R: Wait>(&mut self, rt: &R, version: u64, item: LaneItem)
        ensures taken { taken self.new ≡ taken self.old }
        ensures feeds { (c : Consumer (Egress Global) Global AnyItems) → feeds self.old c → feeds self.new c }
        ensures heard { (l : List Versioned) → heard self.old l → heard self.new (l ++ handled_by version item ∷ []) };
}

/// A ring, which waits while it is full.
///
/// Whoever hands it to a lane keeps the consumer, and pops it until the lane has ended. [`Bridge::push_end`] and
/// [`Bridge::close`] wait for a lane whose ring is full: pop from another thread meanwhile, or make the ring large
/// enough for all that is still to come. When the lane has ended, `slots_beside` of its end's sink shows that what was
/// popped is the beginning of what the lane sent.
///
/// [`Bridge::push_end`]: crate::Bridge::push_end
/// [`Bridge::close`]: crate::Bridge::close
impl Sink for Producer<Egress> {
    ghost taken = { sent };

    ghost feeds = { IsPair };

    ghost heard = { λ s l. ⊥ };

    fn put<R: Wait>(&mut self, rt: &R, egress: Egress) {
        let mut egress = egress;
        for _ in rt.forever() {
            match self.push(egress) {
                Ok(()) => return,
                Err(PushError::Full(back)) => egress = back,
            }
            thread::yield_now();
        }
        unreachable!()
    }

    fn handled<R: Wait>(&mut self, _rt: &R, _version: u64, _item: LaneItem) {}
}

/// Puts all of these, in their order.
pub(crate) fn put_all<R: Wait, S: Sink>(rt: &R, sink: &mut S, all: Vec<Egress>)
    ensures taken { S.taken sink.new ≡ S.taken sink.old ++ all.items }
    ensures feeds { (c : Consumer (Egress Global) Global AnyItems) → S.feeds sink.old c → S.feeds sink.new c }
    ensures heard { (l : List Versioned) → S.heard sink.old l → S.heard sink.new l }
{
    for egress in all {
        sink.put(rt, egress);
    }
}
