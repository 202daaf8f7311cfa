//! The end of a thread whose deeds are traced.

ghost use Rattle.std.specs.Prelude.{◌≡◌, ◌∷◌, ◌++◌, [], Some, None, IfOk, is_some};
ghost use Rattle.std.specs.Bool.{OnTrue};
ghost use Rattle.rtrb.specs.Ring.{sent};
ghost use Rattle.trace_ring.specs.Sender.{IsHandedOn};

use crate::receiver::TraceReceiver;
use rtrb::{Producer, RingBuffer};
use std::alloc::{AllocError, Global};
use std::marker::Model;
use std::sync::Arc;
use std::sync::atomic::{AtomicBool, Ordering};

/// The ring of a trace that is whole so far.
#[derive(Drop)]
struct WholeTrace<T: Drop> {
    ring: Producer<T>,
    /// Set once the trace is given up.
    is_lost: Arc<AtomicBool, Global>,
}

impl<T: Drop> WholeTrace<T> {
    /// Hands an item on. Returns whether there was a place for it.
    fn push(&mut self, item: T) -> bool
        ensures { OnTrue result (sent self.new.ring ≡ sent self.old.ring ++ item ∷ []) }
    {
        self.ring.push(item).is_ok()
    }
}

/// Where a thread hands on what is to be traced. It never waits.
///
/// Contracts see all that it was given, oldest first, or `None`: there is no trace, or it was given up.
#[derive(Drop)]
pub struct TraceSender<T: Drop> {
    whole: Option<WholeTrace<T>>,
}

impl<T: Drop> Model for TraceSender<T> {
    ghost use Rattle.std.specs.Prelude.{List, Option, option_map};
    ghost use Rattle.rtrb.specs.Ring.{sent};

    ghost Value = { Option (List T) };

    ghost view = { λ s. option_map (λ trace. sent trace.ring) s.whole };
}

/// Both ends of a ring that holds so many items. The only error is out of memory.
pub fn trace_ring<T: Drop>(
    alloc: Global,
    places: usize,
) -> Result<(TraceSender<T>, TraceReceiver<T>), AllocError>
    ensures sender { IfOk result (λ ends. ends.0 ≡ Some []) }
    ensures receiver { IfOk result (λ ends. ends.1 ≡ []) }
{
    let (producer, consumer) = RingBuffer::new(alloc, places)?;
    let is_lost = Arc::new(alloc, AtomicBool::new(false))?;
    let receiver = TraceReceiver::new(consumer, Arc::try_clone(&is_lost)?);
    let sender = TraceSender {
        whole: Some(WholeTrace {
            ring: producer,
            is_lost,
        }),
    };
    Ok((sender, receiver))
}

impl<T: Drop> TraceSender<T> {
    /// One without a trace: it drops what it is given.
    pub fn off() -> Self
        ensures { result ≡ None }
    {
        Self { whole: None }
    }

    /// Whether there is a trace that was not given up. Where there is none, an item need not be made.
    pub fn is_on(&self) -> bool
        ensures { result ≡ is_some self.now }
    {
        self.whole.is_some()
    }

    /// Hands an item on. Where the ring is full, the trace is given up, and the item is dropped.
    pub fn send(&mut self, item: T)
        ensures { IsHandedOn item self.old self.new }
    {
        match &mut self.whole {
            None => {}
            Some(trace) => {
                if !trace.push(item) {
                    self.give_up();
                }
            }
        }
    }

    /// Gives the trace up, as where an item got no memory.
    pub fn give_up(&mut self)
        ensures { self.new ≡ None }
    {
        if let Some(trace) = &self.whole {
            trace.is_lost.store(true, Ordering::SeqCst);
        }
        self.whole = None;
    }
}
