//! The end of a tracer.

ghost use Rattle.std.specs.Prelude.{◌≡◌, ◌∷◌, ◌++◌, [], IfSome, IfNone};
ghost use Rattle.rtrb.specs.Ring.{received};

use rtrb::Consumer;
use std::alloc::Global;
use std::marker::Model;
use std::sync::Arc;
use std::sync::atomic::{AtomicBool, Ordering};

/// Where a tracer takes what another thread hands on. Contracts see all that it has taken, oldest first.
#[derive(Drop)]
pub struct TraceReceiver<T: Drop> {
    ring: Consumer<T>,
    is_lost: Arc<AtomicBool, Global>,
}

impl<T: Drop> Model for TraceReceiver<T> {
    ghost use Rattle.std.specs.Prelude.{List};
    ghost use Rattle.rtrb.specs.Ring.{received};

    ghost Value = { List T };

    ghost view = { λ r. received r.ring };
}

impl<T: Drop> TraceReceiver<T> {
    /// The end of a ring, with a flag that is set once the trace is given up.
    pub fn new(ring: Consumer<T>, is_lost: Arc<AtomicBool, Global>) -> Self
        ensures { result ≡ received ring }
    {
        Self { ring, is_lost }
    }

    /// The next item, if one waits.
    pub fn next(&mut self) -> Option<T>
        ensures some { IfSome result (λ item. self.new ≡ self.old ++ item ∷ []) }
        ensures none { IfNone result (self.new ≡ self.old) }
    {
        self.ring.pop().ok()
    }

    /// Whether the sender gave the trace up. What it had handed on before may still wait. No contract speaks of it.
    pub fn is_lost(&self) -> bool {
        self.is_lost.load(Ordering::SeqCst)
    }
}
