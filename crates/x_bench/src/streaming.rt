//! Lanes that always have something to do.

ghost use Rattle.std.specs.Prelude.{◌≡◌, ◌≤◌, length};

use crate::feeding::{step_lanes, take_all};
use crate::loads::Load;
use crate::paces::{RingBridge, Signals, ring_all};
use bridge_core::Egress;
use media_workers::{Pace, PublisherName, Signal};
use rtrb::Consumer;
use std::alloc::Global;
use std::sync::{Arc, Wait};
use std::thread;
use std::time::{Clock, Duration};

/// How many steps the lanes together may be behind.
const AHEAD: u64 = 12;

/// The most egresses of a lane that are taken at once.
const EGRESSES: u64 = 1_024;

/// After so many naps in a row, behind which the lanes had sent nothing, nothing more is awaited.
const NAPS: u64 = 100_000;

/// How many microseconds a nap has.
const NAP: u64 = 100;

/// How far lanes have come.
#[derive(Clone, Copy)]
pub struct Progress {
    /// The steps that they were given.
    given: u64,
    /// The egresses that were taken.
    pub taken: u64,
    /// The naps since something was taken.
    naps: u64,
}

/// What lanes are to do.
#[derive(Clone, Copy)]
pub struct Course {
    /// How many steps lanes are to take.
    pub steps: u64,
    /// How many egresses come of all steps.
    pub egresses: u64,
}

impl Course {
    /// Whether the next step is due.
    fn is_due(&self, progress: Progress) -> bool {
        let each = self.egresses / self.steps.max(1);
        let behind = each
            .saturating_mul(progress.given)
            .saturating_sub(progress.taken);
        progress.given < self.steps && behind < AHEAD.saturating_mul(each)
    }

    fn is_over(&self, progress: Progress) -> bool {
        progress.taken >= self.egresses || progress.naps >= NAPS
    }
}

/// Gives all lanes a step, and raises their signals. False where a ring is full or memory runs out.
fn give_step<N: PublisherName, P: Pace, R: Wait>(
    rt: &R,
    alloc: Global,
    bridge: &mut RingBridge<N, P>,
    signals: &Vec<Arc<Signal, Global>>,
    load: &Load,
    lanes: u32,
    step: u64,
) -> bool
    requires lanes { lanes ≤ length bridge.old }
    ensures { length bridge.new ≡ length bridge.old }
{
    let given = step_lanes(alloc, bridge, lanes, load, step);
    ring_all(rt, signals, u64::from(load.items()));
    given
}

/// Takes what the lanes sent, and naps where they sent nothing.
fn take_some<R: Clock>(rt: &R, rings: &mut Vec<Consumer<Egress>>, progress: &mut Progress) {
    let some = take_all(rings, EGRESSES);
    progress.taken = progress.taken.saturating_add(some);
    if some == 0 {
        progress.naps = progress.naps.saturating_add(1);
        thread::sleep(rt, Duration::from_micros(NAP));
    } else {
        progress.naps = 0;
    }
}

/// Gives all lanes so many steps, a few ahead, and takes what they send. It answers how many egresses there were.
pub fn feed_stream<N: PublisherName, P: Pace, R: Wait + Clock + Drop>(
    rt: &R,
    alloc: Global,
    bridge: &mut RingBridge<N, P>,
    signals: &mut Signals<R>,
    load: &Load,
    lanes: u32,
    course: &Course,
) -> u64
    requires lanes { lanes ≤ length bridge.old }
    ensures { length bridge.new ≡ length bridge.old }
{
    let mut progress = Progress {
        given: 0,
        taken: 0,
        naps: 0,
    };
    for _ in rt.forever() {
        if course.is_over(progress) {
            break;
        }
        if course.is_due(progress) {
            if !give_step(
                rt,
                alloc,
                bridge,
                &signals.signals,
                load,
                lanes,
                progress.given,
            ) {
                break;
            }
            progress.given = progress.given.saturating_add(1);
        } else {
            take_some(rt, &mut signals.rings, &mut progress);
        }
    }
    progress.taken
}
