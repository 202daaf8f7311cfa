//! An item that a lane refuses.

ghost use Rattle.std.specs.Prelude.{◌≡◌, All};
ghost use Rattle.desk_rows.specs.Desk.{blank as no_rows};
ghost use Rattle.published_desk.specs.Published.{new_reader};

use crate::beginning::begun;
use crate::gathering::{asked_by, paces, wait_until};
use crate::items::FitItem;
use crate::paces::{Asked, Counted};
use crate::running::{Ends, Running};
use crate::stage::OneDesk;
use crate::told::OfBrand;
use bridge_core::Item;
use media_workers::{HandleFault, LaneItem, Pace, PublisherName};
use operator_desk::{DeskBrand, DeskNames, Log};
use published_desk::LaneReader;
use std::alloc::Global;
use std::marker::Brand;
use std::sync::{Arc, Wait};
use std::test::*;
use std::thread;
use std::thread::Threads;

/// Waits until the lane has ended.
fn wait_for_end<N: PublisherName, P: Pace, R: Wait>(rt: &R, running: &Running<N, P>, lane: u32) {
    for _ in rt.forever() {
        if lane >= running.lanes() || running.ended(lane) {
            return;
        }
        thread::yield_now();
    }
    unreachable!()
}

/// Whether it is a tick of this moment that could not enter the desk.
fn is_tick_without_entry(refused: &Option<(LaneItem, HandleFault)>, wanted: u64) -> bool {
    match refused {
        Some((LaneItem::Own(Item::Tick { moment }), HandleFault::NoEntry)) => *moment == wanted,
        _ => false,
    }
}

/// Whether the first lane gave its second item back, and the other handled both of its items.
fn are_as_wanted<N: PublisherName>(ends: &Ends<N>) -> bool {
    match ends.as_slice() {
        [first, second] => {
            first.handled == 1
                && is_tick_without_entry(&first.refused, 5)
                && second.handled == 1
                && second.refused.is_none()
        }
        _ => false,
    }
}

/// Each lane handles a tick. Then the desk ends, and the first lane is given another.
fn is_refused<'a, H: DeskBrand, N: PublisherName, P: Pace, R: Threads + Wait>(
    rt: &R,
    running: Running<N, P>,
    desk: OneDesk<'a, H>,
    asked: &Vec<Arc<Asked, Global>>,
) -> bool {
    let mut running = running;
    let first = running.push(0, FitItem::tick(1).alone::<N>()).is_ok();
    let second = running.push(1, FitItem::tick(1).alone::<N>()).is_ok();
    if first && second {
        wait_until(rt, asked, 2);
    }
    desk.end(rt);
    let third = running.push(0, FitItem::tick(5).alone::<N>()).is_ok();
    if third {
        wait_for_end(rt, &running, 0);
    }
    let goes_on = !running.ended(1);
    let ends = running.close(rt);
    first && second && third && goes_on && are_as_wanted(&ends)
}

/// Two lanes, and what they are asked.
type Started<H> = (Running<OfBrand<H>, Counted>, Vec<Arc<Asked, Global>>);

/// The two lanes, and what they are asked.
fn started<H: DeskBrand + Send + Sync + 'static, R: Threads + Wait + Copy + Send + 'static>(
    rt: &R,
    alloc: Global,
    readers: Vec<LaneReader>,
) -> Option<Started<H>>
    requires { All (λ reader. reader ≡ new_reader H.publisher H.start) readers.items }
{
    let asked = asked_by(alloc, 2)?;
    let paces = paces(alloc, &asked)?;
    let running = begun::<H, Counted, R>(rt, alloc, readers, paces)?;
    Some((running, asked))
}

/// The same, over a desk.
fn scene<H: DeskBrand + Send + Sync + 'static, R: Threads + Wait + Copy + Drop + Send + 'static>(
    rt: &R,
    alloc: Global,
    log: &Log,
    names: DeskNames,
) -> bool
    requires log { log.now ≡ H.cells }
    requires ledger { (names.ledger.name ≡ H.name) × (names.ledger.parts ≡ H.parts) }
    requires publisher { names.publisher ≡ H.publisher }
    requires start { no_rows 1 ≡ H.start }
    requires seats { (1 ≡ H.seats) × (H.seats ≡ H.parts) }
{
    match OneDesk::<H>::open(rt, alloc, log, names, 2) {
        Some((desk, readers)) => match started::<H, R>(rt, alloc, readers) {
            Some((running, asked)) => is_refused(rt, running, desk, &asked),
            None => {
                desk.end(rt);
                false
            }
        }
        None => false,
    }
}

/// A lane whose publisher has ended gives its next item back and ends. Another lane goes on.
#[test]
fn a_refused_item_comes_back(rt: HostRuntime) -> Result<(), Fail> {
    let alloc = rt.alloc();
    let log = Log::new(alloc)?;
    assert!(rt; scene::<Brand, _>(&rt, alloc, &log, DeskNames::new(1)));
    Ok(())
}
