//! Where the output of a script goes.

ghost use Rattle.std.specs.Prelude.{◌≡◌, ◌⊎◌, ℕ, ◌+◌, ◌<◌, List, length, Option, Some, refl};
ghost use Rattle.script_text.specs.inner.Pieces.{IsPortion, IsLeft, portion_of};
ghost use Rattle.script_text.specs.declared.sink.Portion.TheVariants as portions;

use std::alloc::Allocator;
use std::io;
use std::io::{ErrorKind, Write};

/// What a call of a sink did.
#[derive(Clone, Copy)]
pub enum Portion {
    /// It took this many octets from the front.
    Octets(usize),
    /// It took nothing, and may be called again.
    Interrupted,
    /// It ran out of memory and took nothing.
    OutOfMemory,
    /// It failed or took nothing.
    Failed,
}

/// Where octets go. A contract over any sink learns that a call may fail, run out of memory or take a part only from a
/// call that did.
pub trait TextSink {
    /// The octets that the sink holds, where they are known.
    ghost held: { Self → Option (List ℕ) };

    /// A call may fail or take nothing.
    ghost may_fail: { Type 0 };

    /// A call may run out of memory.
    ghost may_starve: { Type 0 };

    /// A call may take some octets and not all.
    ghost may_split: { Type 0 };

    /// This many calls led from one state to the other, and each of them left something to be taken.
    ghost goes_on: { ℕ → Self → Self → Type 0 };

    /// Writes some of the octets, from the front.
    fn write_some(&mut self, octets: &[u8]) -> Portion
        requires { 0 < length octets.now }
        ensures portion { IsPortion octets.now (held self.old) (held self.new) result }
        ensures failed { result ≡ portions.Failed → may_fail }
        ensures starved { result ≡ portions.OutOfMemory → may_starve }
        ensures whole { (n : ℕ) → result ≡ portions.Octets n → (n ≡ length octets.now) ⊎ may_split }
        ensures counted { (n : ℕ) (first : Self) → goes_on n first self.old → IsLeft octets.now result
            → goes_on (n + 1) first self.new };

    /// No calls lead from a state to itself.
    ghost at_first: { (s : Self) → goes_on 0 s s };
}

/// What the answer of a writer says.
fn portion_of(answer: io::Result<usize>) -> Portion
    ensures { result ≡ portion_of answer }
{
    match answer {
        Ok(0) => Portion::Failed,
        Ok(n) => Portion::Octets(n),
        Err(e) => match e.kind() {
            ErrorKind::Interrupted => Portion::Interrupted,
            ErrorKind::OutOfMemory => Portion::OutOfMemory,
            _ => Portion::Failed,
        },
    }
}

/// A vector takes all, or runs out of memory and takes nothing.
impl<A: Allocator> TextSink for Vec<u8, A> {
    ghost held = { λ v. Some v.items };

    ghost may_fail = { ⊥ };

    ghost may_starve = { Unit {0} };

    ghost may_split = { ⊥ };

    ghost goes_on = { λ n first v. n ≡ 0 };

    ghost at_first = { λ v. refl };

    fn write_some(&mut self, octets: &[u8]) -> Portion {
        match self.extend_from_slice(octets) {
            Ok(()) => Portion::Octets(octets.len()),
            Err(_) => Portion::OutOfMemory,
        }
    }
}

/// A writer from outside. Anything may go wrong with it.
#[derive(Drop)]
pub struct Writer<W: Write>(pub W);

impl<W: Write> TextSink for Writer<W> {
    ghost held = { λ s. W.contents s.0 };

    ghost may_fail = { Unit {0} };

    ghost may_starve = { Unit {0} };

    ghost may_split = { Unit {0} };

    ghost goes_on = { λ n first s. Unit {0} };

    ghost at_first = { λ s. tt };

    fn write_some(&mut self, octets: &[u8]) -> Portion {
        portion_of(self.0.write(octets))
    }
}
