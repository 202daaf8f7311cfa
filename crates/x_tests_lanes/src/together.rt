//! Two lanes at once.

ghost use Rattle.std.specs.Prelude.{◌≡◌, All};
ghost use Rattle.desk_rows.specs.Desk.{blank as no_rows};
ghost use Rattle.published_desk.specs.Published.{new_reader};

use crate::beginning::begun_with;
use crate::items::FitItem;
use crate::paces::Together;
use crate::rows::{FIRST, SECOND, frame, set_up};
use crate::running::{Ends, Running};
use crate::stage::OneDesk;
use crate::streams::is_packet;
use crate::told::{OfBrand, Told};
use bridge_core::Egress;
use media_workers::{Pace, PublisherName};
use operator_desk::{DeskBrand, DeskNames, Log};
use published_desk::LaneReader;
use std::alloc::Global;
use std::marker::Brand;
use std::sync::atomic::AtomicBool;
use std::sync::{Arc, Wait};
use std::test::*;
use std::thread;
use std::thread::Threads;

/// Gives each lane an item, which they share, with the notice. False where one isn't accepted.
fn tell_all<N: PublisherName, P: Pace>(
    running: &mut Running<N, P>,
    item: &FitItem,
    told: &Told<N>,
) -> bool {
    for lane in 0..running.lanes() {
        let is_given = match item.again() {
            Some(share) => running.push(lane, share.with(told.again())).is_ok(),
            None => false,
        };
        if !is_given {
            return false;
        }
    }
    true
}

/// The next two egresses with their lanes, for which it waits.
fn next_two<N: PublisherName, P: Pace, R: Wait>(
    rt: &R,
    running: &mut Running<N, P>,
) -> ((u32, Egress), (u32, Egress)) {
    let first = next(rt, running);
    let second = next(rt, running);
    (first, second)
}

/// The next egress with its lane, for which it waits.
pub fn next<N: PublisherName, P: Pace, R: Wait>(
    rt: &R,
    running: &mut Running<N, P>,
) -> (u32, Egress) {
    for _ in rt.forever() {
        if let Some(given) = running.pop() {
            return given;
        }
        thread::yield_now();
    }
    unreachable!()
}

/// Waits until the second lane has ended. Says whether it alone has, and nothing is given from then on.
fn second_has_ended<N: PublisherName, P: Pace, R: Wait>(
    rt: &R,
    running: &mut Running<N, P>,
) -> bool {
    for _ in rt.forever() {
        if running.ended(1) {
            return !running.ended(0) && running.pop().is_none();
        }
        thread::yield_now();
    }
    unreachable!()
}

/// Whether each of two lanes has its number, handled one item and refused none.
fn are_both_handled<N: PublisherName>(ends: &Ends<N>) -> bool {
    match ends.as_slice() {
        [first, second] => {
            first.lane == 0
                && second.lane == 1
                && first.handled == 1
                && second.handled == 1
                && first.refused.is_none()
                && second.refused.is_none()
        }
        _ => false,
    }
}

/// Lets both lanes handle the frame. The second sends its packets, of which its ring holds one, and is asked to end
/// before they are taken.
fn are_together<N: PublisherName, P: Pace, R: Threads + Wait>(
    rt: &R,
    alloc: Global,
    running: Running<N, P>,
    told: Told<N>,
) -> bool {
    let mut running = running;
    let is_told = match frame(alloc) {
        Some(item) => tell_all(&mut running, &item, &told),
        None => false,
    };
    if !is_told {
        running.close(rt);
        return false;
    }
    running.push_end(rt, 1);
    let ((lane, first), (other, second)) = next_two(rt, &mut running);
    let is_ended = second_has_ended(rt, &mut running);
    let ends = running.close(rt);
    is_ended
        && lane == 1
        && other == 1
        && is_packet(&first, 6, 1, 65535, &FIRST)
        && is_packet(&second, 6, 1, 0, &SECOND)
        && are_both_handled(&ends)
}

/// Two paces that wait for each other.
fn paces(alloc: Global) -> Option<Vec<Together>> {
    let first = Arc::new(alloc, AtomicBool::new(false)).ok()?;
    let second = Arc::new(alloc, AtomicBool::new(false)).ok()?;
    let one = Together {
        own: Arc::try_clone(&first).ok()?,
        other: Arc::try_clone(&second).ok()?,
    };
    let mut paces = Vec::new(alloc);
    paces.push(one).ok()?;
    let two = Together {
        own: second,
        other: first,
    };
    paces.push(two).ok()?;
    Some(paces)
}

/// The same, with lanes that are started for it.
fn are_started<H: DeskBrand + Send + Sync + 'static, R: Threads + Wait + Copy + Send + 'static>(
    rt: &R,
    alloc: Global,
    readers: Vec<LaneReader>,
    told: Told<OfBrand<H>>,
) -> bool
    requires { All (λ reader. reader ≡ new_reader H.publisher H.start) readers.items }
{
    let Some(paces) = paces(alloc) else {
        return false;
    };
    match begun_with::<H, Together, R>(rt, alloc, readers, paces, 1) {
        Some(running) => are_together(rt, alloc, running, told),
        None => false,
    }
}

/// The same, over a desk that is set up.
fn scene<H: DeskBrand + Send + Sync + 'static, R: Threads + Wait + Copy + Drop + Send + 'static>(
    rt: &R,
    alloc: Global,
    log: &Log,
    names: DeskNames,
) -> bool
    requires log { log.now ≡ H.cells }
    requires ledger { (names.ledger.name ≡ H.name) × (names.ledger.parts ≡ H.parts) }
    requires publisher { names.publisher ≡ H.publisher }
    requires start { no_rows 1 ≡ H.start }
    requires seats { (1 ≡ H.seats) × (H.seats ≡ H.parts) }
{
    match OneDesk::<H>::open(rt, alloc, log, names, 2) {
        Some((desk, readers)) => {
            let mut desk = desk;
            let is_set_up = desk.does_all(rt, alloc, &set_up());
            let told = desk.notice(rt);
            let is_well = is_set_up && are_started(rt, alloc, readers, told);
            desk.end(rt);
            is_well
        }
        None => false,
    }
}

/// Two lanes run at once: the pace of each waits until the other's was asked. Each handles the frame, and the lane of
/// the stream's number sends its two packets, although its ring holds one: it waits until one is taken. Asked to end
/// meanwhile, it ends behind both, and before the other lane.
#[test]
fn lanes_run_together(rt: HostRuntime) -> Result<(), Fail> {
    let alloc = rt.alloc();
    let log = Log::new(alloc)?;
    assert!(rt; scene::<Brand, _>(&rt, alloc, &log, DeskNames::new(1)));
    Ok(())
}
