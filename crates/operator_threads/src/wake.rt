//! What an operator's thread wakes.

ghost use Rattle.std.specs.Prelude.{◌≡◌, ◌++◌, ℕ, List, OnOk, OnErr};

use std::alloc::{AllocError, Global};
use std::sync::Wait;

/// Wakes a thread that waits. An operator's thread does so after each accepted call, and after `stop`.
pub trait Wake {
    /// Which octets may tell what the bridge counts, with so many seats in use.
    ghost counts: { Self → ℕ → List ℕ → Type 0 };

    /// Which octets may tell how loud the sources of sound are.
    ghost levels: { Self → List ℕ → Type 0 };

    /// Ends the wait of the other thread, now or the next one.
    fn wake(&self);

    /// Notes that the connection of the operator's thread was refused a seat.
    fn note_busy<R: Wait>(&self, rt: &R);

    /// Appends the lines that tell what the bridge counts; `used`: how many operators' seats are in use. An `Err`, out
    /// of memory, appends nothing.
    fn tell_stats<R: Wait>(
        &self,
        rt: &R,
        alloc: Global,
        used: u32,
        out: &mut Vec<u8>,
    ) -> Result<(), AllocError>
        ensures ok { OnOk result ((text : List ℕ)
            × (out.new.items ≡ out.old.items ++ text) × counts self.now used text) }
        ensures err { OnErr result (out.new.items ≡ out.old.items) };

    /// Appends the lines that tell how loud the sources of sound are. An `Err`, out of memory, appends nothing.
    fn tell_levels<R: Wait>(
        &self,
        rt: &R,
        alloc: Global,
        out: &mut Vec<u8>,
    ) -> Result<(), AllocError>
        ensures ok { OnOk result ((text : List ℕ)
            × (out.new.items ≡ out.old.items ++ text) × levels self.now text) }
        ensures err { OnErr result (out.new.items ≡ out.old.items) };
}
