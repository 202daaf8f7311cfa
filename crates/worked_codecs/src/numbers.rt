//! Packets that come too late, twice, or from before the first wrap.

ghost use Rattle.std.specs.Prelude.{◌≡◌, pos, negsuc, IfOk, [], ◌∷◌, false};
ghost use Rattle.worked_codecs.specs.Fixtures.{frame, sent};

use crate::fixtures::give;
use frame_gate::{Admitted, Gate, Place};
use std::alloc::{AllocError, Global};

/// What belongs to a closed piece is too late.
pub fn a_decided_number_is_late(alloc: Global) -> Result<Admitted, AllocError>
    ensures place { IfOk result (λ a. a.place ≡ Place.Late) }
    ensures frames { IfOk result (λ a. a.frames ≡ []) }
    ensures nacks { IfOk result (λ a. a.nacks ≡ []) }
{
    let mut gate = Gate::new(alloc)?;
    give(&mut gate, alloc, 101, true, 9000, b"\xab")?;
    give(&mut gate, alloc, 101, true, 9000, b"\xab")
}

/// What waits behind a hole is taken once.
pub fn a_waiting_number_is_a_duplicate(alloc: Global) -> Result<Admitted, AllocError>
    ensures place { IfOk result (λ a. a.place ≡ Place.Duplicate) }
    ensures nacks { IfOk result (λ a. a.nacks ≡ []) }
{
    let mut gate = Gate::new(alloc)?;
    give(&mut gate, alloc, 101, true, 9000, b"\xab")?;
    give(&mut gate, alloc, 103, true, 12000, b"\xad")?;
    give(&mut gate, alloc, 103, true, 12000, b"\xad")
}

/// The first piece is decided up to where the run has come.
pub fn the_first_piece_is_late_too(alloc: Global) -> Result<Admitted, AllocError>
    ensures { IfOk result (λ a. a.place ≡ Place.Late) }
{
    let mut gate = Gate::new(alloc)?;
    give(&mut gate, alloc, 101, false, 9000, b"\xab")?;
    give(&mut gate, alloc, 101, false, 9000, b"\xab")
}

/// A run goes on from below 0.
pub fn numbers_go_on_from_below_zero(alloc: Global) -> Result<Admitted, AllocError>
    ensures { IfOk result (λ a.
        a.frames ≡ frame 12000 (sent (negsuc 0) false (172 ∷ []) ∷ sent (pos 0) false (173 ∷ []) ∷ []) ∷ []) }
{
    let mut gate = Gate::new(alloc)?;
    give(&mut gate, alloc, -2, true, 9000, b"\xab")?;
    give(&mut gate, alloc, -1, false, 12000, b"\xac")?;
    give(&mut gate, alloc, 0, false, 12000, b"\xad")?;
    give(&mut gate, alloc, 1, false, 15000, b"\xae")
}

/// A gate may begin at the least number.
pub fn the_least_number_is_taken(alloc: Global) -> Result<Admitted, AllocError>
    ensures { IfOk result (λ a. a.place ≡ Place.Taken) }
{
    let mut gate = Gate::new(alloc)?;
    give(&mut gate, alloc, -65536, true, 9000, b"\xab")
}

/// And at the greatest one.
pub fn the_greatest_number_is_taken(alloc: Global) -> Result<Admitted, AllocError>
    ensures { IfOk result (λ a. a.place ≡ Place.Taken) }
{
    let mut gate = Gate::new(alloc)?;
    give(&mut gate, alloc, 4611686018427453439, true, 9000, b"\xab")
}
