//! Items of a lane, at the end of what it can count.

ghost use Rattle.std.specs.Prelude.{◌≡◌, ◌≢◌, true, Err};
ghost use Rattle.media_items.specs.Inputs.{input_of, is_sized};

use bridge_core::{Egress, Item, LaneFault, LaneState};
use desk_rows::Rows;
use std::alloc::Global;

/// The last number that an item can have is given out.
pub fn has_a_number_left(
    alloc: Global,
    state: &mut LaneState,
    rows: &Rows,
    item: &Item,
) -> Result<Vec<Egress>, LaneFault>
    requires handled { state.old.handled ≡ 18446744073709551614 }
    requires sized { is_sized (input_of item.now) ≡ true }
    ensures { result ≢ Err LaneFault.Spent }
{
    state.step(alloc, 7, rows, item)
}

/// A lane that has handled 2^64 - 1 items handles no more, and stays as it is.
pub fn has_no_number_left(
    alloc: Global,
    state: &mut LaneState,
    rows: &Rows,
    item: &Item,
) -> Result<Vec<Egress>, LaneFault>
    requires handled { state.old.handled ≡ 18446744073709551615 }
    requires sized { is_sized (input_of item.now) ≡ true }
    ensures fault { result ≡ Err LaneFault.Spent }
    ensures same { state.new ≡ state.old }
{
    state.step(alloc, 7, rows, item)
}
