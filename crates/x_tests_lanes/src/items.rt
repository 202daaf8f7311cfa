//! Items that lanes may handle.

ghost use Rattle.std.specs.Prelude.{◌≡◌, true};
ghost use Rattle.std.specs.Bool.{OnTrue};
ghost use Rattle.media_items.specs.Inputs.{input_of, is_sized};
ghost use Rattle.media_workers.specs.Parcels.{IsFit, item_in};

use crate::told::Told;
use bridge_core::Item;
use media_workers::{LaneItem, Parcel, PublisherName};
use std::alloc::Global;
use std::sync::Arc;

/// An item that lanes may handle.
#[derive(Drop)]
pub struct FitItem {
    item: LaneItem,
    ghost sized: { is_sized (input_of (item_in item)) ≡ true },
}

/// Whether lanes may handle an item: sound has 1 to 200 ms of samples at 8000 or 44100 Hz.
fn is_fit(item: &Item) -> bool
    ensures { OnTrue result (is_sized (input_of item.now) ≡ true) }
{
    match item {
        Item::Audio { rate, samples, .. } => {
            (*rate == 8_000 || *rate == 44_100)
                && (!samples.is_empty() && samples.len() <= *rate as usize / 5)
        }
        _ => true,
    }
}

impl FitItem {
    /// The item, for lanes to share, if they may handle it and memory suffices.
    pub fn new(alloc: Global, item: Item) -> Option<FitItem> {
        if !is_fit(&item) {
            return None;
        }
        let item = Arc::new(alloc, item).ok()?;
        Some(FitItem {
            item: LaneItem::Shared(item),
        })
    }

    /// A tick of one lane's own.
    pub fn tick(moment: u64) -> FitItem {
        FitItem {
            item: LaneItem::Own(Item::Tick { moment }),
        }
    }

    pub fn item(&self) -> &Item
        ensures { is_sized (input_of result.now) ≡ true }
    {
        self.item.item()
    }

    /// The same item once more, if lanes share it.
    pub fn again(&self) -> Option<FitItem> {
        match &self.item {
            LaneItem::Own(_) => None,
            LaneItem::Shared(item) => {
                let item = Arc::try_clone(item).ok()?;
                Some(FitItem {
                    item: LaneItem::Shared(item),
                })
            }
        }
    }

    /// A parcel of the item alone.
    pub fn alone<N: PublisherName>(self) -> Parcel
        ensures { IsFit N.publisher result }
    {
        Parcel::Work {
            item: self.item,
            notice: None,
        }
    }

    /// A parcel of the item with a notice.
    pub fn with<N: PublisherName>(self, told: Told<N>) -> Parcel
        ensures { IsFit N.publisher result }
    {
        Parcel::Work {
            item: self.item,
            notice: Some(told.into_notice()),
        }
    }
}
