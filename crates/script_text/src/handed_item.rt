//! An item as a line spells it.

ghost use Rattle.std.specs.Prelude.{◌≡◌, true};
ghost use Rattle.media_items.specs.Inputs.{input_of, is_sized};

use bridge_core::Item;
use std::alloc::{Allocator, Global};

/// An item that a line hands the lane.
#[derive(Drop)]
pub(crate) struct HandedItem<A: Allocator + Copy = Global> {
    pub item: Item<A>,
    /// Sound has one of the clock rates, a sample at least, and no more than a packet may have.
    pub ghost sized: { is_sized (input_of item) ≡ true },
}
