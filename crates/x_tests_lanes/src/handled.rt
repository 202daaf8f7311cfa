//! Lanes without a thread, which are told of calls.

ghost use Rattle.std.specs.Prelude.{◌≡◌, All};
ghost use Rattle.desk_rows.specs.Desk.{blank as no_rows};
ghost use Rattle.published_desk.specs.Published.{new_reader};

use crate::items::FitItem;
use crate::lanes::{OwnLane, own_lane};
use crate::rows::{FIRST, SECOND, frame, mute, set_up, unmute};
use crate::stage::OneDesk;
use crate::streams::{is_packet, version_of};
use crate::told::{OfBrand, Told};
use bridge_core::Egress;
use media_workers::PublisherName;
use operator_desk::{DeskBrand, DeskNames, Log};
use published_desk::LaneReader;
use std::alloc::Global;
use std::marker::Brand;
use std::sync::Wait;
use std::test::*;
use std::thread::Threads;

/// What a lane sends for an item once it is told.
fn sent_after<N: PublisherName>(
    alloc: Global,
    lane: &mut OwnLane<N>,
    item: &FitItem,
    told: Told<N>,
) -> Option<Vec<Egress>> {
    lane.learn(told);
    lane.handle(alloc, item).ok()
}

/// Whether they are the two packets of the frame, by version 8 and for this item.
fn are_packets(sent: &Vec<Egress>, item: u64) -> bool {
    match sent.as_slice() {
        [first, second] => {
            is_packet(first, 8, item, 65535, &FIRST) && is_packet(second, 8, item, 0, &SECOND)
        }
        _ => false,
    }
}

/// Whether once the source is muted the first lane, which is told of it, sends nothing. The third lane is told nothing:
/// it sends nothing either, or packets by a version below that of the mute.
fn is_muted<'a, H: DeskBrand, R: Wait>(
    rt: &R,
    alloc: Global,
    desk: &mut OneDesk<'a, H>,
    first: &mut OwnLane<OfBrand<H>>,
    third: &mut OwnLane<OfBrand<H>>,
) -> Option<bool> {
    let item = frame(alloc)?;
    let of_mute = desk.does(rt, alloc, mute())?;
    let muted = sent_after(alloc, first, &item, of_mute)?;
    let untold = third.handle(alloc, &item).ok()?;
    Some(muted.is_empty() && untold.iter().all(|egress| version_of(egress) < 7))
}

/// Whether once the source is no longer muted the first lane, which is told of it, sends the frame, and the second lane
/// sends the same when all that it is told is the last notice.
fn is_unmuted<'a, H: DeskBrand, R: Wait>(
    rt: &R,
    alloc: Global,
    desk: &mut OneDesk<'a, H>,
    first: &mut OwnLane<OfBrand<H>>,
    second: &mut OwnLane<OfBrand<H>>,
) -> Option<bool> {
    let item = frame(alloc)?;
    let of_unmute = desk.does(rt, alloc, unmute())?;
    let heard = sent_after(alloc, first, &item, of_unmute)?;
    let beside = sent_after(alloc, second, &item, desk.notice(rt))?;
    Some(are_packets(&heard, 2) && are_packets(&beside, 1))
}

/// Whether three lanes handle the frame so. The desk then has version 8, and the rows that it was set up with.
fn are_told<'a, H: DeskBrand, R: Wait>(
    rt: &R,
    alloc: Global,
    desk: &mut OneDesk<'a, H>,
    lanes: (
        OwnLane<OfBrand<H>>,
        OwnLane<OfBrand<H>>,
        OwnLane<OfBrand<H>>,
    ),
) -> Option<bool> {
    let (mut first, mut second, mut third) = lanes;
    let is_muted = is_muted(rt, alloc, desk, &mut first, &mut third)?;
    let is_unmuted = is_unmuted(rt, alloc, desk, &mut first, &mut second)?;
    Some(is_muted && is_unmuted && desk.has_only(rt, alloc, 8, &set_up()))
}

/// The same, with lanes of these readers, over a desk without rows.
fn is_played<'a, H: DeskBrand, R: Wait>(
    rt: &R,
    alloc: Global,
    desk: &mut OneDesk<'a, H>,
    readers: &mut Vec<LaneReader>,
) -> Option<bool>
    requires { All (λ reader. reader ≡ new_reader H.publisher H.start) readers.old.items }
{
    if !desk.does_all(rt, alloc, &set_up()) {
        return None;
    }
    let first = own_lane::<H>(alloc, readers);
    let second = own_lane::<H>(alloc, readers);
    let third = own_lane::<H>(alloc, readers);
    are_told(rt, alloc, desk, (first?, second?, third?))
}

/// The same, over a desk.
fn scene<H: DeskBrand + Send + Sync + 'static, R: Threads + Wait + Copy + Drop + Send + 'static>(
    rt: &R,
    alloc: Global,
    log: &Log,
    names: DeskNames,
) -> bool
    requires log { log.now ≡ H.cells }
    requires ledger { (names.ledger.name ≡ H.name) × (names.ledger.parts ≡ H.parts) }
    requires publisher { names.publisher ≡ H.publisher }
    requires start { no_rows 1 ≡ H.start }
    requires seats { (1 ≡ H.seats) × (H.seats ≡ H.parts) }
{
    match OneDesk::<H>::open(rt, alloc, log, names, 3) {
        Some((desk, readers)) => {
            let mut desk = desk;
            let mut readers = readers;
            let is_well = is_played(rt, alloc, &mut desk, &mut readers);
            desk.end(rt);
            is_well == Some(true)
        }
        None => false,
    }
}

/// A lane that is told of the mute of a source sends none of its frame. Told of the mute's end, it sends both packets.
/// So does another lane that is told of the end alone. A lane that is told nothing sends none of the frame after the
/// mute, or sends it by an older version.
#[test]
fn a_lane_handles_by_what_it_is_told(rt: HostRuntime) -> Result<(), Fail> {
    let alloc = rt.alloc();
    let log = Log::new(alloc)?;
    assert!(rt; scene::<Brand, _>(&rt, alloc, &log, DeskNames::new(1)));
    Ok(())
}
