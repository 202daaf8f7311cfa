//! Outfits that are not as many as lanes.

ghost use Rattle.std.specs.Prelude.{◌≡◌, All};
ghost use Rattle.desk_rows.specs.Desk.{blank as no_rows};
ghost use Rattle.published_desk.specs.Published.{new_reader};

use crate::lanes::lanes;
use crate::paces::Free;
use crate::rings::outfits;
use crate::running::Running;
use crate::stage::OneDesk;
use crate::told::OfBrand;
use media_workers::StartFault;
use operator_desk::{DeskBrand, DeskNames, Log};
use published_desk::LaneReader;
use std::alloc::Global;
use std::marker::Brand;
use std::sync::Wait;
use std::test::*;
use std::thread::Threads;

fn free(alloc: Global, count: usize) -> Option<Vec<Free>> {
    let mut paces = Vec::new(alloc);
    for _ in 0..count {
        paces.push(Free {}).ok()?;
    }
    Some(paces)
}

/// How many lanes come back of a start with so many outfits that is refused for its counts.
fn back<H: DeskBrand + Send + Sync + 'static, R: Threads + Wait + Copy + Send + 'static>(
    rt: &R,
    alloc: Global,
    readers: Vec<LaneReader>,
    count: usize,
) -> Option<usize>
    requires { All (λ reader. reader ≡ new_reader H.publisher H.start) readers.items }
{
    let (outfits, rings) = outfits(alloc, free(alloc, count)?, 1).ok()?;
    let lanes = lanes::<H>(alloc, readers).ok()?;
    match Running::<OfBrand<H>, Free>::start(rt, alloc, lanes, outfits, rings) {
        Ok(running) => {
            running.close(rt);
            None
        }
        Err((lanes, fault)) => (fault == StartFault::Count).then_some(lanes.len()),
    }
}

/// The same, over a desk that has ended.
fn scene<H: DeskBrand + Send + Sync + 'static, R: Threads + Wait + Copy + Drop + Send + 'static>(
    rt: &R,
    alloc: Global,
    log: &Log,
    names: DeskNames,
) -> bool
    requires log { log.now ≡ H.cells }
    requires ledger { (names.ledger.name ≡ H.name) × (names.ledger.parts ≡ H.parts) }
    requires publisher { names.publisher ≡ H.publisher }
    requires start { no_rows 1 ≡ H.start }
    requires seats { (1 ≡ H.seats) × (H.seats ≡ H.parts) }
{
    match OneDesk::<H>::open(rt, alloc, log, names, 2) {
        Some((desk, readers)) => {
            desk.end(rt);
            back::<H, R>(rt, alloc, readers, 1) == Some(2)
                && back::<H, R>(rt, alloc, Vec::new(alloc), 0) == Some(0)
        }
        None => false,
    }
}

/// Where outfits are too few, or there is no lane, no lane runs and the lanes come back.
#[test]
fn too_few_outfits_hand_lanes_back(rt: HostRuntime) -> Result<(), Fail> {
    let alloc = rt.alloc();
    let log = Log::new(alloc)?;
    assert!(rt; scene::<Brand, _>(&rt, alloc, &log, DeskNames::new(1)));
    Ok(())
}
