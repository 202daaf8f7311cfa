//! A lane whose signal nobody raises, closes or opens, as where the bridge does not start.

ghost use Rattle.std.specs.Prelude.{◌≡◌, All};
ghost use Rattle.desk_rows.specs.Desk.{blank as no_rows};
ghost use Rattle.published_desk.specs.Published.{new_reader};

use crate::beginning::begun;
use crate::stage::OneDesk;
use media_workers::{Signal, SleepPace};
use operator_desk::{DeskBrand, DeskNames, Log};
use published_desk::LaneReader;
use std::alloc::Global;
use std::marker::Brand;
use std::sync::{Arc, Wait};
use std::test::*;
use std::thread::Threads;

/// A pace by a new signal.
fn paces<R: Wait + Copy + Drop>(rt: &R, alloc: Global) -> Option<Vec<SleepPace<R, ()>>> {
    let signal = Arc::new(alloc, Signal::new()).ok()?;
    let mut paces = Vec::new(alloc);
    paces.push(SleepPace::by(*rt, signal, ())).ok()?;
    Some(paces)
}

/// Whether a lane that is started and closed has ended and handled nothing.
fn has_ended<
    H: DeskBrand + Send + Sync + 'static,
    R: Threads + Wait + Copy + Drop + Send + 'static,
>(rt: &R, alloc: Global, readers: Vec<LaneReader>) -> Option<bool>
    requires { All (λ reader. reader ≡ new_reader H.publisher H.start) readers.items }
{
    let paces = paces(rt, alloc)?;
    let running = begun::<H, SleepPace<R, ()>, R>(rt, alloc, readers, paces)?;
    let ends = running.close(rt);
    Some(match ends.as_slice() {
        [end] => end.handled == 0 && end.refused.is_none(),
        _ => false,
    })
}

/// The same, over a desk that is not set up.
fn scene<H: DeskBrand + Send + Sync + 'static, R: Threads + Wait + Copy + Drop + Send + 'static>(
    rt: &R,
    alloc: Global,
    log: &Log,
    names: DeskNames,
) -> bool
    requires log { log.now ≡ H.cells }
    requires ledger { (names.ledger.name ≡ H.name) × (names.ledger.parts ≡ H.parts) }
    requires publisher { names.publisher ≡ H.publisher }
    requires start { no_rows 1 ≡ H.start }
    requires seats { (1 ≡ H.seats) × (H.seats ≡ H.parts) }
{
    match OneDesk::<H>::open(rt, alloc, log, names, 1) {
        Some((desk, readers)) => {
            let has_ended = has_ended::<H, R>(rt, alloc, readers);
            desk.end(rt);
            has_ended == Some(true)
        }
        None => false,
    }
}

/// A lane gets its `End` and ends, though its signal was never raised.
#[test]
fn a_lane_ends_unsignalled(rt: HostRuntime) -> Result<(), Fail> {
    let alloc = rt.alloc();
    let log = Log::new(alloc)?;
    assert!(rt; scene::<Brand, _>(&rt, alloc, &log, DeskNames::new(1)));
    Ok(())
}
