//! A lane that is given batches of steps, and sleeps between them.

ghost use Rattle.std.specs.Prelude.{◌≡◌, ◌<◌, length};

use crate::feeding::{step_lanes, take_all};
use crate::loads::Load;
use crate::paces::{RingBridge, Signals, ring_all};
use media_workers::{Pace, PublisherName};
use std::alloc::Global;
use std::sync::Wait;

/// The steps of a batch. A lane's ring holds all that it sends for them.
pub const BATCH: u64 = 32;

/// The most egresses that are taken for a batch.
const EGRESSES: u64 = 4_096;

/// Gives the first lane a batch of steps from this one on. False where its ring is full or memory runs out.
fn give_batch<N: PublisherName, P: Pace>(
    alloc: Global,
    bridge: &mut RingBridge<N, P>,
    load: &Load,
    first: u64,
) -> bool
    requires lane { 0 < length bridge.old }
    ensures { length bridge.new ≡ length bridge.old }
{
    for more in 0..BATCH {
        if !step_lanes(alloc, bridge, 1, load, first.saturating_add(more)) {
            return false;
        }
    }
    true
}

/// Gives the only lane so many batches. Before each but the first, and behind the last, it waits until the lane sleeps,
/// and takes what it sent. It answers how many egresses there were.
pub fn feed_batches<N: PublisherName, P: Pace, R: Wait + Drop>(
    rt: &R,
    alloc: Global,
    bridge: &mut RingBridge<N, P>,
    signals: &mut Signals<R>,
    load: &Load,
    batches: u64,
) -> u64
    requires lane { 0 < length bridge.old }
    ensures { length bridge.new ≡ length bridge.old }
{
    let items = BATCH.saturating_mul(u64::from(load.items()));
    let mut taken = 0u64;
    for batch in 0..batches {
        let _asleep = signals.sleeps.pass(batch.saturating_add(1));
        taken = taken.saturating_add(take_all(&mut signals.rings, EGRESSES));
        if !give_batch(alloc, bridge, load, batch.saturating_mul(BATCH)) {
            return taken;
        }
        ring_all(rt, &signals.signals, items);
    }
    let _asleep = signals.sleeps.pass(batches.saturating_add(1));
    taken.saturating_add(take_all(&mut signals.rings, EGRESSES))
}
