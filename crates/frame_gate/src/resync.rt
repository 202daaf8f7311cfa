//! Resyncs: points where reassembly starts afresh.

ghost use Rattle.std.specs.Prelude.{◌≡◌, ℕ, ◌+◌, ◌<◌, ◌≤◌, ◌^◌, length, IfOk, List, None};
ghost use Rattle.frame_gate.specs.inner.Cells.{held};
ghost use Rattle.frame_gate.specs.Epochs.{Epoch, placed, resynced};
ghost use Rattle.frame_gate.specs.inner.Ties.{Tied};
ghost use Rattle.frame_gate.specs.Frame.{WholeFrame};

use crate::cells::{CELLS, least_held};
use crate::frame::Frame;
use crate::held::HeldPacket;
use crate::walk::{Walk, drain};
use std::alloc::{AllocError, Allocator};

/// Places one cut, where reassembly starts afresh.
fn cut<A: Allocator + Copy>(
    alloc: A,
    cells: &[Option<HeldPacket<A>>],
    walk: Walk,
    number: u64,
    frames: &mut Vec<Frame<A>, A>,
) -> Result<Walk, AllocError>
    requires cells { length cells.now ≡ 256 }
    requires number { number ≤ 2 ^ 63 + 256 }
    requires far { walk.next + 256 ≤ number }
    ensures tied { IfOk result (λ w. (given : List WholeFrame) (e : Epoch)
        → Tied (held cells.now None) given e walk frames.old.items
        → Tied (held cells.now None) given (placed e number) w frames.new.items) }
    ensures next { IfOk result (λ w. (walk.next < w.next) × (w.next ≤ w.after) × (w.after ≤ number)) }
{
    let place = least_held(cells, walk.next, number);
    let begun = Walk {
        next: place,
        after: place,
        first: true,
        stamp: None,
    };
    drain(alloc, cells, None, begun, walk.next + CELLS, frames)
}

/// Places cuts until the number fits the cells.
pub fn resync<A: Allocator + Copy>(
    alloc: A,
    cells: &[Option<HeldPacket<A>>],
    from: Walk,
    number: u64,
    frames: &mut Vec<Frame<A>, A>,
) -> Result<Walk, AllocError>
    requires cells { length cells.now ≡ 256 }
    requires number { number ≤ 2 ^ 63 + 256 }
    requires ordered { (from.next ≤ from.after) × (from.next ≤ number) }
    ensures tied { IfOk result (λ w. (given : List WholeFrame) (e : Epoch) (most : ℕ)
        → Tied (held cells.now None) given e from frames.old.items → number < from.next + 256 + most
        → Tied (held cells.now None) given (resynced most e number) w frames.new.items) }
    ensures next { IfOk result (λ w. (from.next ≤ w.next) × (w.next ≤ w.after) × (w.next ≤ number)) }
    ensures capacity { IfOk result (λ w. number < w.next + 256) }
{
    let mut walk = from;
    while number - walk.next >= CELLS {
        walk = cut(alloc, cells, walk, number, frames)?;
    }
    Ok(walk)
}
