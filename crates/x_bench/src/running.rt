//! Bridges whose lanes run, each on a thread of its own, and a core that does the same on one.

ghost use Rattle.std.specs.Prelude.{◌≡◌, ◌<◌, ◌≤◌, All, length};
ghost use Rattle.published_desk.specs.Published.{ReaderOf};

use crate::batches::{BATCH, feed_batches};
use crate::feeding::feed_core;
use crate::lanes::lanes_by;
use crate::loads::Load;
use crate::paces::{Paced, RingBridge, Signals, open_all, paces_for};
use crate::rooms::{Plan, core_with};
use crate::streaming::{Course, feed_stream};
use crate::timing::{Took, Watch};
use media_workers::{Pace, PublisherName};
use published_desk::{LaneReader, Opened, start};
use std::alloc::Global;
use std::io;
use std::marker::Brand;
use std::sync::Wait;
use std::thread::Threads;
use std::time::{Clock, CpuClock};

/// How lanes are fed.
#[derive(Clone, Copy)]
pub enum Way {
    /// The first lane, by so many batches.
    Batches(u64),
    /// All lanes, without a break.
    Stream(Course),
}

/// As many steps as these batches have, by the lane of a core with this room.
pub fn batches_by_core<R: Clock + CpuClock>(
    rt: &R,
    alloc: Global,
    plan: &Plan,
    load: &Load,
    batches: u64,
) -> io::Result<Took> {
    steps_by_core(rt, alloc, plan, load, batches.saturating_mul(BATCH))
}

/// So many steps by the lane of a core with this room.
pub fn steps_by_core<R: Clock + CpuClock>(
    rt: &R,
    alloc: Global,
    plan: &Plan,
    load: &Load,
    steps: u64,
) -> io::Result<Took> {
    let mut core = core_with(alloc, plan)?;
    let watch = Watch::begin(rt);
    let sent = feed_core(alloc, &mut core, load, steps)?;
    Ok(watch.took(rt, sent))
}

/// Feeds the lanes of a bridge.
fn fed<N: PublisherName, P: Pace, R: Wait + Clock + CpuClock + Drop>(
    rt: &R,
    alloc: Global,
    bridge: &mut RingBridge<N, P>,
    signals: &mut Signals<R>,
    load: &Load,
    lanes: u32,
    way: &Way,
) -> Took
    requires first { 0 < lanes }
    requires lanes { lanes ≤ length bridge.old }
{
    let watch = Watch::begin(rt);
    let taken = match way {
        Way::Batches(batches) => feed_batches(rt, alloc, bridge, signals, load, *batches),
        Way::Stream(course) => feed_stream(rt, alloc, bridge, signals, load, lanes, course),
    };
    watch.took(rt, taken)
}

/// Starts lanes by these readers, feeds them, and ends them.
fn by_readers<
    N: PublisherName + Send + Sync + 'static,
    R: Threads + Wait + Clock + CpuClock + Copy + Send + Drop + 'static,
>(
    rt: &R,
    alloc: Global,
    readers: Vec<LaneReader>,
    load: &Load,
    count: u32,
    way: &Way,
) -> io::Result<Took>
    requires readers { All (λ (r : ReaderOf). r.publisher ≡ N.publisher) readers.items }
{
    let lanes = lanes_by::<N>(alloc, readers, count)?;
    let Paced {
        mut signals,
        outfits,
    } = paces_for(rt, alloc, count)?;
    match RingBridge::<N, _>::start(rt, alloc, lanes, outfits) {
        Ok(mut bridge) => {
            let took = fed(rt, alloc, &mut bridge, &mut signals, load, count, way);
            open_all(rt, &signals.signals);
            let _ends = bridge.close(rt);
            Ok(took)
        }
        Err(_) => Err(io::Error::other("the lanes do not start")),
    }
}

/// Publishes the rows of a room, and feeds lanes that have readers of them.
fn by_publisher<
    N: PublisherName + Send + Sync + 'static,
    R: Threads + Wait + Clock + CpuClock + Copy + Send + Drop + 'static,
>(
    rt: &R,
    alloc: Global,
    opened: Opened,
    plan: &Plan,
    load: &Load,
    count: u32,
    way: &Way,
) -> io::Result<Took>
    requires { opened ≡ N.publisher }
{
    let core = core_with(alloc, plan)?;
    let rows = core.rows().copy(alloc)?;
    match start(alloc, rt, opened, rows, count as usize) {
        Ok((publisher, readers)) => {
            let took = by_readers::<N, R>(rt, alloc, readers, load, count, way);
            publisher.end(rt);
            took
        }
        Err(_) => Err(io::Error::other("there is no publisher")),
    }
}

/// A load by so many lanes on threads, in this room.
pub fn by_lanes<R: Threads + Wait + Clock + CpuClock + Copy + Send + Drop + 'static>(
    rt: &R,
    alloc: Global,
    plan: &Plan,
    load: &Load,
    count: u32,
    way: &Way,
) -> io::Result<Took> {
    by_publisher::<Brand, R>(rt, alloc, Opened::new(), plan, load, count, way)
}
