//! How items are given to every lane.

ghost use Rattle.std.specs.Prelude.{◌≡◌, ◌<◌, true, length, map, Some, IfOk};
ghost use Rattle.std.specs.Prelude.{slice_get, slice_set};
ghost use Rattle.std.specs.List.{list_all};
ghost use Rattle.media_items.specs.Inputs.{input_of, is_sized};
ghost use Rattle.media_workers.specs.Parcels.{item_in};
ghost use Rattle.media_front.specs.FedLanes.{FedLane, IsFed, dropping, AreGiven, AllAreGiven};
ghost use Rattle.media_front.specs.inner.TimerItems.{input_at};
ghost use Rattle.media_front.specs.inner.Shares.{input_shared};

use crate::feed::LaneFeed;
use crate::offering::offer_item;
use crate::pressing::is_pressing;
use crate::timer_item::TimerItem;
use bridge_core::Item;
use media_workers::{LaneItem, Pace, PublisherName, Sink};
use std::alloc::{AllocError, Global};
use std::sync::Arc;

/// These items, for lanes to share: one block of memory an item, however many lanes there are.
pub(crate) fn share_all(
    alloc: Global,
    items: Vec<Item>,
) -> Result<Vec<Arc<Item, Global>>, AllocError>
    ensures { IfOk result (λ shared. map input_shared shared.items ≡ map input_of items.items) }
{
    let mut shared = Vec::with_capacity(alloc, items.len())?;
    for item in items {
        shared.push_reserved(Arc::new(alloc, item)?);
    }
    Ok(shared)
}

impl<N: PublisherName, P: Pace, S: Sink> LaneFeed<N, P, S> {
    /// Gives a lane an item, in a parcel with the notice that it is owed. A parcel that the lane hands back is dropped
    /// and counted.
    fn give_one(&mut self, lane: usize, item: LaneItem)
        requires lane { lane < length self.old }
        requires sized { is_sized (input_of (item_in item)) ≡ true }
        ensures { (x : FedLane P S) → slice_get self.old lane ≡ Some x →
            (y : FedLane P S) × IsFed (input_of (item_in item)) x y × (self.new ≡ slice_set self.old lane y) }
    {
        let notice = self.statuses[lane].notice();
        let presses = is_pressing(item.item());
        let accepted = offer_item(&mut self.bridge, lane as u32, item, notice).is_ok();
        self.statuses[lane].count(accepted, presses);
    }

    /// Counts a parcel that was dropped for a lane.
    fn drop_one(&mut self, lane: usize)
        requires lane { lane < length self.old }
        ensures { (x : FedLane P S) → slice_get self.old lane ≡ Some x →
            self.new ≡ slice_set self.old lane (dropping x) }
    {
        self.statuses[lane].count(false, false);
    }

    /// Gives a lane a shared item, as `give_one` does. Only where 2^63 - 1 parcels share it, it counts as dropped.
    fn give_share(&mut self, lane: usize, item: &Arc<Item, Global>)
        requires lane { lane < length self.old }
        requires sized { is_sized (input_shared item.now) ≡ true }
        ensures { (x : FedLane P S) → slice_get self.old lane ≡ Some x →
            (y : FedLane P S) × IsFed (input_shared item.now) x y × (self.new ≡ slice_set self.old lane y) }
    {
        match Arc::try_clone(item) {
            Ok(share) => self.give_one(lane, LaneItem::Shared(share)),
            Err(_) => self.drop_one(lane),
        }
    }

    /// Gives every lane a shared item.
    fn hand_out(&mut self, item: &Arc<Item, Global>)
        requires sized { is_sized (input_shared item.now) ≡ true }
        ensures { AreGiven self.old (input_shared item.now) self.new }
    {
        let count = self.count() as usize;
        for lane in 0..count {
            self.give_share(lane, item);
        }
    }

    /// Gives every lane these shared items, one after another.
    pub(crate) fn hand_out_all(&mut self, items: &[Arc<Item, Global>])
        requires sized { list_all is_sized (map input_shared items.now) ≡ true }
        ensures { AllAreGiven (map input_shared items.now) self.old self.new }
    {
        for item in items {
            self.hand_out(item);
        }
    }

    /// Gives every lane an item of the front's own. It takes no memory.
    pub(crate) fn give_timer_item(&mut self, timer_item: TimerItem)
        ensures { AreGiven self.old (input_at timer_item) self.new }
    {
        let count = self.count() as usize;
        for lane in 0..count {
            self.give_one(lane, LaneItem::Own(timer_item.item()));
        }
    }
}
