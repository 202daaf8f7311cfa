//! A lane that sleeps by its signal.

ghost use Rattle.std.specs.Prelude.{◌≡◌, All};
ghost use Rattle.desk_rows.specs.Desk.{blank as no_rows};
ghost use Rattle.published_desk.specs.Published.{new_reader};

use crate::beginning::begun;
use crate::rows::{FIRST, SECOND, frame, set_up};
use crate::running::{Ends, Running};
use crate::stage::OneDesk;
use crate::streams::is_packet;
use crate::together::next;
use crate::told::{OfBrand, Told};
use media_workers::{BeforeSleep, Pace, PublisherName, Signal, SleepPace};
use operator_desk::{DeskBrand, DeskNames, Log};
use published_desk::LaneReader;
use std::alloc::Global;
use std::marker::Brand;
use std::sync::atomic::{AtomicU64, Ordering};
use std::sync::{Arc, Wait};
use std::test::*;
use std::thread;
use std::thread::Threads;

/// Counts how often a lane goes to sleep.
#[derive(Drop)]
struct Sleeps {
    times: Arc<AtomicU64, Global>,
}

impl BeforeSleep for Sleeps {
    fn before_sleep(&self) {
        self.times.fetch_add(1, Ordering::SeqCst);
    }
}

/// A lane's signal, and how often the lane went to sleep.
#[derive(Drop)]
struct Bed {
    signal: Arc<Signal, Global>,
    times: Arc<AtomicU64, Global>,
}

/// Waits until the lane has gone to sleep so often.
fn wait_for_sleep<R: Wait>(rt: &R, bed: &Bed, times: u64) {
    for _ in rt.forever() {
        if bed.times.load(Ordering::SeqCst) >= times {
            return;
        }
        thread::yield_now();
    }
    unreachable!()
}

/// Gives the lane the frame with a notice, and rings. Says whether the parcel was accepted.
fn wake<N: PublisherName, P: Pace, R: Wait>(
    rt: &R,
    alloc: Global,
    running: &mut Running<N, P>,
    bed: &Bed,
    told: Told<N>,
) -> bool {
    let is_given = match frame(alloc) {
        Some(item) => running.push(0, item.with(told)).is_ok(),
        None => false,
    };
    if is_given {
        bed.signal.raise(rt, 1);
    }
    is_given
}

/// Waits for the two packets of the frame. Says whether they are these.
fn takes_packets<N: PublisherName, P: Pace, R: Wait>(rt: &R, running: &mut Running<N, P>) -> bool {
    let (_, first) = next(rt, running);
    let (_, second) = next(rt, running);
    is_packet(&first, 6, 1, 65535, &FIRST) && is_packet(&second, 6, 1, 0, &SECOND)
}

/// Whether the one lane handled one item and refused none.
fn is_handled<N: PublisherName>(ends: &Ends<N>) -> bool {
    match ends.as_slice() {
        [end] => end.handled == 1 && end.refused.is_none(),
        _ => false,
    }
}

/// Whether the lane sleeps, wakes for a parcel, sleeps again, and ends once its signal is open.
fn sleeps_well<N: PublisherName, P: Pace, R: Threads + Wait>(
    rt: &R,
    alloc: Global,
    running: Running<N, P>,
    bed: &Bed,
    told: Told<N>,
) -> bool {
    let mut running = running;
    wait_for_sleep(rt, bed, 1);
    let is_woken = wake(rt, alloc, &mut running, bed, told);
    let is_sent = is_woken && takes_packets(rt, &mut running);
    if is_woken {
        wait_for_sleep(rt, bed, 2);
    }
    let times = bed.times.load(Ordering::SeqCst);
    bed.signal.open(rt);
    let ends = running.close(rt);
    is_sent && times == 2 && is_handled(&ends)
}

/// A signal and a count.
fn made_bed(alloc: Global) -> Option<Bed> {
    let signal = Arc::new(alloc, Signal::new()).ok()?;
    let times = Arc::new(alloc, AtomicU64::new(0)).ok()?;
    Some(Bed { signal, times })
}

/// The pace of the signal.
fn paces<R: Wait + Copy + Drop>(
    rt: &R,
    alloc: Global,
    bed: &Bed,
) -> Option<Vec<SleepPace<R, Sleeps>>> {
    let signal = Arc::try_clone(&bed.signal).ok()?;
    let times = Arc::try_clone(&bed.times).ok()?;
    let mut paces = Vec::new(alloc);
    paces
        .push(SleepPace::by(*rt, signal, Sleeps { times }))
        .ok()?;
    Some(paces)
}

/// The same, with a lane that is started for it. Its signal is closed before, so that it also sleeps before its first
/// parcel.
fn is_started<
    H: DeskBrand + Send + Sync + 'static,
    R: Threads + Wait + Copy + Drop + Send + 'static,
>(rt: &R, alloc: Global, readers: Vec<LaneReader>, told: Told<OfBrand<H>>) -> Option<bool>
    requires { All (λ reader. reader ≡ new_reader H.publisher H.start) readers.items }
{
    let bed = made_bed(alloc)?;
    bed.signal.close(rt);
    let paces = paces(rt, alloc, &bed)?;
    let running = begun::<H, SleepPace<R, Sleeps>, R>(rt, alloc, readers, paces)?;
    Some(sleeps_well(rt, alloc, running, &bed, told))
}

/// The same, over a desk that is set up.
fn scene<H: DeskBrand + Send + Sync + 'static, R: Threads + Wait + Copy + Drop + Send + 'static>(
    rt: &R,
    alloc: Global,
    log: &Log,
    names: DeskNames,
) -> bool
    requires log { log.now ≡ H.cells }
    requires ledger { (names.ledger.name ≡ H.name) × (names.ledger.parts ≡ H.parts) }
    requires publisher { names.publisher ≡ H.publisher }
    requires start { no_rows 1 ≡ H.start }
    requires seats { (1 ≡ H.seats) × (H.seats ≡ H.parts) }
{
    match OneDesk::<H>::open(rt, alloc, log, names, 1) {
        Some((desk, readers)) => {
            let mut desk = desk;
            let is_set_up = desk.does_all(rt, alloc, &set_up());
            let told = desk.notice(rt);
            let is_well = is_started(rt, alloc, readers, told);
            desk.end(rt);
            is_set_up && is_well == Some(true)
        }
        None => false,
    }
}

/// A lane sleeps by its signal until it is raised for a parcel, handles it, and sleeps again. Once the signal is open
/// it takes its `End`.
#[test]
fn a_lane_sleeps_by_its_signal(rt: HostRuntime) -> Result<(), Fail> {
    let alloc = rt.alloc();
    let log = Log::new(alloc)?;
    assert!(rt; scene::<Brand, _>(&rt, alloc, &log, DeskNames::new(1)));
    Ok(())
}
