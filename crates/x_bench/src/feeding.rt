//! What is handed to lanes, and what is taken from them.

ghost use Rattle.std.specs.Prelude.{◌≡◌, ◌<◌, ◌≤◌, true, length};
ghost use Rattle.std.specs.Arc.{arc_value};
ghost use Rattle.media_items.specs.Inputs.{input_of, is_sized};
ghost use Rattle.media_workers.specs.Parcels.{item_in};

use crate::loads::Load;
use crate::paces::RingBridge;
use bridge_core::{Core, Egress, Item};
use media_workers::{LaneItem, Pace, Parcel, PublisherName};
use rtrb::Consumer;
use std::alloc::Global;
use std::io;
use std::sync::Arc;

/// Gives the lane of a core a step, and counts what it sends. False where an item is refused.
fn step_core(alloc: Global, core: &mut Core, load: &Load, step: u64, sent: &mut u64) -> bool {
    for place in 0..load.items() {
        let Ok(item) = load.item(alloc, step, place) else {
            return false;
        };
        if core.lanes() == 0 {
            return false;
        }
        let Ok(egresses) = core.item(alloc, 0, &item) else {
            return false;
        };
        *sent = sent.saturating_add(egresses.len() as u64);
    }
    true
}

/// Gives the lane of a core so many steps. It answers how many egresses there were.
pub fn feed_core(alloc: Global, core: &mut Core, load: &Load, steps: u64) -> io::Result<u64> {
    let mut sent = 0u64;
    for step in 0..steps {
        if !step_core(alloc, core, load, step, &mut sent) {
            return Err(io::Error::other("the core refuses an item"));
        }
    }
    Ok(sent)
}

/// Gives a lane an item. False where its ring is full.
fn push_item<N: PublisherName, P: Pace>(
    bridge: &mut RingBridge<N, P>,
    lane: u32,
    item: LaneItem,
) -> bool
    requires lane { lane < length bridge.old }
    requires sized { is_sized (input_of (item_in item)) ≡ true }
    ensures { length bridge.new ≡ length bridge.old }
{
    let parcel = Parcel::Work { item, notice: None };
    bridge.push(lane, parcel).is_ok()
}

/// Gives each lane an item, which they share. False where a ring is full.
fn push_shares<N: PublisherName, P: Pace>(
    bridge: &mut RingBridge<N, P>,
    lanes: u32,
    item: &Arc<Item, Global>,
) -> bool
    requires lanes { lanes ≤ length bridge.old }
    requires sized { is_sized (input_of (arc_value item.now)) ≡ true }
    ensures { length bridge.new ≡ length bridge.old }
{
    for lane in 0..lanes {
        let Ok(share) = Arc::try_clone(item) else {
            return false;
        };
        if !push_item(bridge, lane, LaneItem::Shared(share)) {
            return false;
        }
    }
    true
}

/// Gives each lane a step. False where a ring is full or memory runs out.
pub fn step_lanes<N: PublisherName, P: Pace>(
    alloc: Global,
    bridge: &mut RingBridge<N, P>,
    lanes: u32,
    load: &Load,
    step: u64,
) -> bool
    requires lanes { lanes ≤ length bridge.old }
    ensures { length bridge.new ≡ length bridge.old }
{
    for place in 0..load.items() {
        let Ok(item) = load.item(alloc, step, place) else {
            return false;
        };
        let Ok(item) = Arc::new(alloc, item) else {
            return false;
        };
        if !push_shares(bridge, lanes, &item) {
            return false;
        }
    }
    true
}

/// Takes the egresses that are on a ring, so many at most. It answers how many.
fn take_from(ring: &mut Consumer<Egress>, most: u64) -> u64 {
    for taken in 0..most {
        if ring.pop().is_err() {
            return taken;
        }
    }
    most
}

/// Takes the egresses that lanes sent, so many of each at most. It answers how many.
pub fn take_all(rings: &mut Vec<Consumer<Egress>>, most: u64) -> u64 {
    let mut taken = 0u64;
    for at in 0..rings.len() {
        taken = taken.saturating_add(take_from(&mut rings[at], most));
    }
    taken
}
