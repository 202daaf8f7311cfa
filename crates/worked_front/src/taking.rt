//! What is taken of a lane's ring.

ghost use Rattle.std.specs.Prelude.{◌≡◌, length, IfSome};
ghost use Rattle.std.specs.List.{AllByRecursion};
ghost use mathlib.Core.List.{IsPrefix};
ghost use Rattle.rtrb.specs.Ring.{received, sent, IsPair};

use bridge_core::Egress;
use media_workers::{Bridge, LaneEnd, Pace, PublisherName};
use rtrb::{Consumer, Producer};
use std::sync::Wait;
use std::thread::Threads;

/// Ends a bridge of one lane that sends into a ring. The ring has places for all that the lane still sends.
///
/// What was taken of the ring is the beginning of what the lane sent.
pub fn close_and_compare<N: PublisherName, P: Pace, R: Threads + Wait>(
    rt: &R,
    bridge: Bridge<N, P, Producer<Egress>>,
    taken: &mut Consumer<Egress>,
) -> Option<LaneEnd<N, Producer<Egress>>>
    requires one { length bridge ≡ 1 }
    requires ring { AllByRecursion (λ port. IsPair port.sink taken.old) bridge }
    ensures { IfSome result (λ end. IsPrefix (received taken.new) (sent end.sink)) }
{
    let mut ends = bridge.close(rt);
    let Some(mut end) = ends.pop() else {
        return None;
    };
    taken.slots_beside(&mut end.sink);
    Some(end)
}
