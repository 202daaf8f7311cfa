//! Where a gate gives up waiting.

ghost use Rattle.std.specs.Prelude.{◌≡◌, IfOk, [], ◌∷◌, pos, true, false};
ghost use Rattle.worked_codecs.specs.Fixtures.{from, frame, sent};

use crate::fixtures::give;
use frame_gate::{Admitted, Gate, GaveUp, Place};
use std::alloc::{AllocError, Global};

/// A packet 255 above the first undecided number is waited for.
pub fn at_255_the_gate_waits(alloc: Global) -> Result<Admitted, AllocError>
    ensures pli { IfOk result (λ a. a.pli ≡ false) }
    ensures nacks { IfOk result (λ a. a.nacks ≡ from 106 253) }
{
    let mut gate = Gate::new(alloc)?;
    give(&mut gate, alloc, 103, true, 9000, b"\xab")?;
    give(&mut gate, alloc, 105, true, 12000, b"\xad")?;
    give(&mut gate, alloc, 359, false, 15000, b"\xae")
}

/// At 256 number 104 is given up, and 105, which is the first piece again, is left out.
pub fn at_256_the_gate_gives_up(alloc: Global) -> Result<Admitted, AllocError>
    ensures place { IfOk result (λ a. a.place ≡ Place.Taken) }
    ensures frames { IfOk result (λ a. a.frames ≡ []) }
    ensures pli { IfOk result (λ a. a.pli ≡ true) }
    ensures nacks { IfOk result (λ a. a.nacks ≡ from 106 254) }
{
    let mut gate = Gate::new(alloc)?;
    give(&mut gate, alloc, 103, true, 9000, b"\xab")?;
    give(&mut gate, alloc, 105, true, 12000, b"\xad")?;
    give(&mut gate, alloc, 360, false, 15000, b"\xae")
}

/// Number 102 is given up: 103, which is the first piece again, is left out, and the frame of 104 is given.
pub fn a_hole_is_given_up(alloc: Global) -> Result<GaveUp, AllocError>
    ensures frames { IfOk result (λ a. a.frames ≡ frame 15000 (sent (pos 104) true (174 ∷ []) ∷ []) ∷ []) }
    ensures pli { IfOk result (λ a. a.pli ≡ true) }
{
    let mut gate = Gate::new(alloc)?;
    give(&mut gate, alloc, 101, true, 9000, b"\xab")?;
    give(&mut gate, alloc, 103, true, 12000, b"\xad")?;
    give(&mut gate, alloc, 104, true, 15000, b"\xae")?;
    let prepared = gate.prepare_give_up(alloc, 102)?;
    Ok(gate.give_up(prepared))
}

/// A frame that is slow but whole so far is not cut: none of its numbers is missing.
pub fn a_slow_frame_is_left_alone(alloc: Global) -> Result<GaveUp, AllocError>
    ensures frames { IfOk result (λ a. a.frames ≡ []) }
    ensures pli { IfOk result (λ a. a.pli ≡ false) }
{
    let mut gate = Gate::new(alloc)?;
    give(&mut gate, alloc, 101, true, 9000, b"\xab")?;
    give(&mut gate, alloc, 102, false, 12000, b"\xad")?;
    give(&mut gate, alloc, 103, false, 12000, b"\xae")?;
    let prepared = gate.prepare_give_up(alloc, 102)?;
    Ok(gate.give_up(prepared))
}
