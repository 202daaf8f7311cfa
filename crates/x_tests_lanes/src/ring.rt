//! A full ring.

ghost use Rattle.std.specs.Prelude.{◌≡◌, All};
ghost use Rattle.desk_rows.specs.Desk.{blank as no_rows};
ghost use Rattle.published_desk.specs.Published.{new_reader};

use crate::beginning::begun;
use crate::items::FitItem;
use crate::paces::Held;
use crate::rows::set_up;
use crate::running::{Ends, Running};
use crate::stage::OneDesk;
use crate::told::{OfBrand, Told};
use bridge_core::Item;
use media_workers::{LaneItem, Pace, Parcel, PublisherName};
use operator_desk::{DeskBrand, DeskNames, Log};
use published_desk::LaneReader;
use std::alloc::Global;
use std::marker::Brand;
use std::sync::atomic::{AtomicBool, Ordering};
use std::sync::{Arc, Wait};
use std::test::*;
use std::thread::Threads;

/// How many parcels a lane's ring holds.
const RING_PARCELS: u64 = 1_024;

/// How many places are left free of it by a parcel that matters less.
const LEFT: u64 = 64;

/// Gives the lane so many parcels. Says whether each was accepted.
fn gives<N: PublisherName, P: Pace>(running: &mut Running<N, P>, parcels: u64) -> bool {
    for moment in 0..parcels {
        if running.push(0, FitItem::tick(moment).alone::<N>()).is_err() {
            return false;
        }
    }
    true
}

/// Gives the lane a parcel that leaves places free. Says whether it was accepted.
fn gives_leaving<N: PublisherName, P: Pace>(running: &mut Running<N, P>) -> bool {
    let parcel = FitItem::tick(78).alone::<N>();
    running.push_leaving(0, parcel, LEFT as usize).is_ok()
}

/// Fills the ring. Says whether each parcel was accepted, but for one that had to leave places free which were the last
/// ones.
fn fills<N: PublisherName, P: Pace>(running: &mut Running<N, P>) -> bool {
    let most = RING_PARCELS - LEFT - 1;
    gives(running, most)
        && gives_leaving(running)
        && !gives_leaving(running)
        && gives(running, LEFT)
}

/// Whether it is a tick of this moment with a notice.
fn is_told_tick(parcel: &Parcel, wanted: u64) -> bool {
    match parcel {
        Parcel::Work {
            item: LaneItem::Own(Item::Tick { moment }),
            notice: Some(_),
        } => *moment == wanted,
        _ => false,
    }
}

/// Whether one more parcel is handed back with its notice.
fn is_handed_back<N: PublisherName, P: Pace>(running: &mut Running<N, P>, told: Told<N>) -> bool {
    match running.push(0, FitItem::tick(77).with(told)) {
        Ok(()) => false,
        Err(parcel) => is_told_tick(&parcel, 77),
    }
}

/// Whether the one lane handled so many items and refused none.
fn are_handled<N: PublisherName>(ends: &Ends<N>, items: u64) -> bool {
    match ends.first() {
        Some(end) => ends.len() == 1 && end.handled == items && end.refused.is_none(),
        None => false,
    }
}

/// Fills the ring of a held lane, and lets it go.
fn is_full<N: PublisherName, P: Pace, R: Threads + Wait>(
    rt: &R,
    running: Running<N, P>,
    gate: &AtomicBool,
    told: Told<N>,
) -> bool {
    let mut running = running;
    let is_filled = fills(&mut running);
    let is_back = is_handed_back(&mut running, told);
    gate.store(true, Ordering::SeqCst);
    let ends = running.close(rt);
    is_filled && is_back && are_handled(&ends, RING_PARCELS)
}

/// A held pace.
fn held(alloc: Global, gate: &Arc<AtomicBool, Global>) -> Option<Vec<Held>> {
    let gate = Arc::try_clone(gate).ok()?;
    let mut paces = Vec::new(alloc);
    paces.push(Held { gate }).ok()?;
    Some(paces)
}

/// The same, with a lane that is started for it.
fn is_held<H: DeskBrand + Send + Sync + 'static, R: Threads + Wait + Copy + Send + 'static>(
    rt: &R,
    alloc: Global,
    readers: Vec<LaneReader>,
    told: Told<OfBrand<H>>,
) -> bool
    requires { All (λ reader. reader ≡ new_reader H.publisher H.start) readers.items }
{
    let Ok(gate) = Arc::new(alloc, AtomicBool::new(false)) else {
        return false;
    };
    let Some(paces) = held(alloc, &gate) else {
        return false;
    };
    match begun::<H, Held, R>(rt, alloc, readers, paces) {
        Some(running) => is_full(rt, running, &gate, told),
        None => false,
    }
}

/// The same, over a desk that is set up.
fn scene<H: DeskBrand + Send + Sync + 'static, R: Threads + Wait + Copy + Drop + Send + 'static>(
    rt: &R,
    alloc: Global,
    log: &Log,
    names: DeskNames,
) -> bool
    requires log { log.now ≡ H.cells }
    requires ledger { (names.ledger.name ≡ H.name) × (names.ledger.parts ≡ H.parts) }
    requires publisher { names.publisher ≡ H.publisher }
    requires start { no_rows 1 ≡ H.start }
    requires seats { (1 ≡ H.seats) × (H.seats ≡ H.parts) }
{
    match OneDesk::<H>::open(rt, alloc, log, names, 1) {
        Some((desk, readers)) => {
            let mut desk = desk;
            let is_set_up = desk.does_all(rt, alloc, &set_up());
            let told = desk.notice(rt);
            let is_well = is_held(rt, alloc, readers, told);
            desk.end(rt);
            is_set_up && is_well
        }
        None => false,
    }
}

/// A held lane accepts as many parcels as its ring holds, and hands the next one back with its notice. A parcel that
/// has to leave 64 places free it accepts while there are more, and then hands back. Once it goes on, all that were
/// accepted are handled.
#[test]
fn a_full_ring_hands_back(rt: HostRuntime) -> Result<(), Fail> {
    let alloc = rt.alloc();
    let log = Log::new(alloc)?;
    assert!(rt; scene::<Brand, _>(&rt, alloc, &log, DeskNames::new(1)));
    Ok(())
}
