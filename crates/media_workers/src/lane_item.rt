//! An item on its way to a lane.

ghost use Rattle.std.specs.Prelude.{◌≡◌};
ghost use Rattle.media_workers.specs.Parcels.{item_in};

use bridge_core::Item;
use std::alloc::Global;
use std::sync::Arc;

/// An item on its way to a lane.
///
/// What a lane does by it depends on [`LaneItem::item`] alone. An item of a lane's own is there for ticks and reports:
/// lanes are given these also where there is no memory for a shared one.
#[derive(Drop)]
pub enum LaneItem {
    /// An item of this lane alone. It takes no memory.
    Own(Item),
    /// An item that other lanes have too: one block of memory, which the last of them frees.
    Shared(Arc<Item, Global>),
}

impl LaneItem {
    /// The item.
    pub fn item(&self) -> &Item
        ensures { result.now ≡ item_in self.now }
    {
        match self {
            LaneItem::Own(item) => item,
            LaneItem::Shared(item) => item,
        }
    }
}
