//! Packets that close frames.

ghost use Rattle.std.specs.Prelude.{◌≡◌, pos, IfOk, [], ◌∷◌, true, false};
ghost use Rattle.worked_codecs.specs.Fixtures.{frame, sent};

use crate::fixtures::give;
use frame_gate::{Admitted, Gate};
use std::alloc::{AllocError, Global};

/// The first packet ends the first piece, which is left out.
pub fn the_first_piece_is_left_out(alloc: Global) -> Result<Admitted, AllocError>
    ensures frames { IfOk result (λ a. a.frames ≡ []) }
    ensures nacks { IfOk result (λ a. a.nacks ≡ []) }
    ensures pli { IfOk result (λ a. a.pli ≡ false) }
{
    let mut gate = Gate::new(alloc)?;
    give(&mut gate, alloc, 101, true, 9000, b"\xab")
}

/// A number that is left out is asked for, and what comes behind it waits.
pub fn a_hole_is_asked_for(alloc: Global) -> Result<Admitted, AllocError>
    ensures frames { IfOk result (λ a. a.frames ≡ []) }
    ensures nacks { IfOk result (λ a. a.nacks ≡ pos 102 ∷ []) }
    ensures pli { IfOk result (λ a. a.pli ≡ false) }
{
    let mut gate = Gate::new(alloc)?;
    give(&mut gate, alloc, 101, true, 9000, b"\xab")?;
    give(&mut gate, alloc, 103, true, 12000, b"\xad")
}

/// The packet that was asked for closes the frame.
pub fn the_hole_is_filled(alloc: Global) -> Result<Admitted, AllocError>
    ensures frames { IfOk result (λ a.
        a.frames ≡ frame 12000 (sent (pos 102) false (172 ∷ []) ∷ sent (pos 103) true (173 ∷ []) ∷ []) ∷ []) }
    ensures nacks { IfOk result (λ a. a.nacks ≡ []) }
{
    let mut gate = Gate::new(alloc)?;
    give(&mut gate, alloc, 101, true, 9000, b"\xab")?;
    give(&mut gate, alloc, 103, true, 12000, b"\xad")?;
    give(&mut gate, alloc, 102, false, 12000, b"\xac")
}

/// Another timestamp closes the frame before it.
pub fn another_timestamp_closes_a_frame(alloc: Global) -> Result<Admitted, AllocError>
    ensures { IfOk result (λ a. a.frames ≡ frame 12000 (sent (pos 102) false (172 ∷ []) ∷ []) ∷ []) }
{
    let mut gate = Gate::new(alloc)?;
    give(&mut gate, alloc, 101, true, 9000, b"\xab")?;
    give(&mut gate, alloc, 102, false, 12000, b"\xac")?;
    give(&mut gate, alloc, 103, false, 15000, b"\xad")
}

/// A packet without payload closes nothing, whatever its marker and timestamp.
pub fn an_empty_packet_closes_nothing(alloc: Global) -> Result<Admitted, AllocError>
    ensures { IfOk result (λ a. a.frames ≡ []) }
{
    let mut gate = Gate::new(alloc)?;
    give(&mut gate, alloc, 101, true, 9000, b"\xab")?;
    give(&mut gate, alloc, 102, false, 12000, b"\xac")?;
    give(&mut gate, alloc, 103, true, 15000, b"")
}
