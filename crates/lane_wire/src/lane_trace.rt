//! Where a lane's sink hands on what the lane handled.

ghost use Rattle.std.specs.Prelude.{◌≡◌, ◌<◌, List, [], ◌∷◌, ◌++◌, IfOk, IsTrue};
ghost use Rattle.std.specs.Bool.{OnTrue};
ghost use Rattle.rtrb.specs.Ring.{received};
ghost use Rattle.lane_wire.specs.Handlings.{handed_on, free_places, HandsTo, IsSameTrace, HasAll, GoesOn};
ghost use Rattle.lane_wire.specs.declared.handled.Handled.{Handled as Handles};

use crate::handled::{Handled, HandledLog};
use rtrb::{Consumer, Producer, RingBuffer};
use std::alloc::{AllocError, Global};
use std::marker::Model;
use std::sync::Arc;
use std::sync::atomic::{AtomicBool, Ordering};

/// Where a lane's sink hands on what the lane handled: a ring. A sink gives it up for good when it finds it full.
#[derive(Drop)]
pub struct LaneTrace {
    ring: Producer<Handled>,
    is_lost: Arc<AtomicBool, Global>,
}

impl LaneTrace {
    /// A ring of this many places, the end of it where the items come out, and whether it was full once.
    pub fn new(
        alloc: Global,
        places: usize,
    ) -> Result<(LaneTrace, Consumer<Handled>, Arc<AtomicBool, Global>), AllocError>
        ensures pair { IfOk result (λ r. HandsTo r.0 r.1) }
        ensures none { IfOk result (λ r. handed_on r.0 ≡ []) }
        ensures received { IfOk result (λ r. received r.1 ≡ []) }
        ensures places { IfOk result (λ r. free_places r.0 ≡ places) }
    {
        let (ring, consumer) = RingBuffer::new(alloc, places)?;
        let is_lost = Arc::new(alloc, AtomicBool::new(false))?;
        let other = Arc::try_clone(&is_lost)?;
        Ok((LaneTrace { ring, is_lost }, consumer, other))
    }

    /// Hands on one more, or tells others that the ring was full.
    fn hand_on(&mut self, handled: Handled) -> bool
        ensures sent { OnTrue result (handed_on self.new ≡ handed_on self.old ++ handled ∷ []) }
        ensures ring { IsSameTrace self.old self.new }
        ensures free { 0 < free_places self.old → IsTrue result }
    {
        let is_handed_on = self.ring.push(handled).is_ok();
        if !is_handed_on {
            self.is_lost.store(true, Ordering::SeqCst);
        }
        is_handed_on
    }
}

/// What a sink was told that its lane handled, and where it hands that on until that was full once.
///
/// Contracts see both. While it is handed on, just what was handled is.
#[derive(Drop)]
pub struct LaneHandled {
    log: HandledLog,
    trace: Option<LaneTrace>,
}

impl Model for LaneHandled {
    ghost use Rattle.lane_wire.specs.Handlings.{HandledOf, handled_list, HasAll};

    ghost Value = { HandledOf };

    ghost view = { λ h. record { handled = handled_list h.log; trace = h.trace } };

    ghost invariant = { λ h. HasAll (handled_list h.log) h.trace };
}

impl LaneHandled {
    /// Nothing was handled.
    pub fn new(trace: Option<LaneTrace>) -> Self
        requires fresh { HasAll [] trace }
        ensures { result ≡ record { handled = []; trace = trace } }
    {
        Self {
            log: HandledLog::new(),
            trace,
        }
    }

    /// Notes one more, and hands it on without waiting.
    pub fn note(&mut self, handled: Handled)
        ensures handled { self.new.handled ≡ self.old.handled ++ handled ∷ [] }
        ensures all { HasAll self.new.handled self.new.trace }
        ensures trace { GoesOn self.old.trace self.new.trace }
    {
        self.log.note(&handled);
        self.trace = handed(self.trace.take(), handled);
    }
}

/// Hands on one more, if it is handed on to anybody. What was full is given up.
fn handed(trace: Option<LaneTrace>, handled: Handled) -> Option<LaneTrace>
    ensures all { (before : List Handles) → HasAll before trace → HasAll (before ++ handled ∷ []) result }
    ensures trace { GoesOn trace result }
{
    let mut trace = trace?;
    if trace.hand_on(handled) {
        Some(trace)
    } else {
        None
    }
}
