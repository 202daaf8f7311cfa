//! Runs without a thread, over a sink of the tests.

ghost use Rattle.std.specs.Prelude.{◌≡◌, All};
ghost use Rattle.desk_rows.specs.Desk.{blank as no_rows};
ghost use Rattle.published_desk.specs.Published.{new_reader};

use crate::items::FitItem;
use crate::lanes::{OwnLane, own_lane};
use crate::list_sink::ListSink;
use crate::paces::{Asked, Counted, StopsAt};
use crate::rows::{FIRST, SECOND, frame, set_up};
use crate::stage::OneDesk;
use crate::streams::is_packet;
use crate::told::{OfBrand, Told};
use bridge_core::Egress;
use media_workers::{FitParcels, Pace, Parcel, PublisherName};
use operator_desk::{DeskBrand, DeskNames, Log};
use published_desk::LaneReader;
use rtrb::{Consumer, Producer, RingBuffer};
use std::alloc::Global;
use std::marker::Brand;
use std::sync::{Arc, Wait};
use std::test::*;
use std::thread::Threads;

/// The ends of a ring of parcels.
type Ring<N> = (
    Producer<Parcel, Global, FitParcels<N>>,
    Consumer<Parcel, Global, FitParcels<N>>,
);

/// How a run ended: how many items it handled, whether it refused one, and what it sent.
#[derive(Drop)]
struct Ran {
    handled: u64,
    has_refused: bool,
    sent: Vec<Egress>,
}

/// A ring with a tick, the frame, a tick and an end.
fn filled<N: PublisherName>(alloc: Global, told: Told<N>) -> Option<Ring<N>> {
    let (producer, consumer) = RingBuffer::with_protocol::<Global, FitParcels<N>>(alloc, 4).ok()?;
    let mut producer = producer;
    let first = producer.push(FitItem::tick(1).with(told)).is_ok();
    let second = producer.push(frame(alloc)?.alone::<N>()).is_ok();
    let third = producer.push(FitItem::tick(2).alone::<N>()).is_ok();
    let last = producer.push(Parcel::End).is_ok();
    (first && second && third && last).then_some((producer, consumer))
}

/// Runs the lane over the ring.
fn run<N: PublisherName, P: Pace + Drop, R: Wait>(
    rt: &R,
    alloc: Global,
    lane: OwnLane<N>,
    consumer: Consumer<Parcel, Global, FitParcels<N>>,
    pace: P,
) -> Ran {
    let sink = ListSink::new(alloc);
    let end = lane.into_lane().run(rt, alloc, consumer, sink, pace);
    Ran {
        handled: end.handled,
        has_refused: end.refused.is_some(),
        sent: end.sink.into_sent(),
    }
}

/// Whether they are the packets of the frame.
fn are_packets(sent: &Vec<Egress>) -> bool {
    match sent.as_slice() {
        [first, second] => {
            is_packet(first, 6, 2, 65535, &FIRST) && is_packet(second, 6, 2, 0, &SECOND)
        }
        _ => false,
    }
}

/// Whether the run to the `End` handles three items, and its pace is asked for 1, 2, 3 and 4.
fn is_counted<N: PublisherName, R: Wait>(
    rt: &R,
    alloc: Global,
    lane: OwnLane<N>,
    consumer: Consumer<Parcel, Global, FitParcels<N>>,
) -> Option<bool> {
    let asked = Arc::new(alloc, Asked::new()).ok()?;
    let pace = Counted {
        asked: Arc::try_clone(&asked).ok()?,
    };
    let ran = run(rt, alloc, lane, consumer, pace);
    let is_counted = asked.times() == 4 && asked.is_in_order();
    Some(is_counted && ran.handled == 3 && !ran.has_refused && are_packets(&ran.sent))
}

/// Whether the run handles the items before that at which its pace stops, and the packets are sent if the frame is one
/// of them.
fn is_stopped<N: PublisherName, R: Wait>(
    rt: &R,
    alloc: Global,
    lane: OwnLane<N>,
    consumer: Consumer<Parcel, Global, FitParcels<N>>,
    item_no: u64,
) -> bool {
    let ran = run(rt, alloc, lane, consumer, StopsAt { item_no });
    let is_sent = if item_no > 2 {
        are_packets(&ran.sent)
    } else {
        ran.sent.is_empty()
    };
    is_sent && ran.handled.wrapping_add(1) == item_no && !ran.has_refused
}

/// Whether the lane runs as it has to over a filled ring.
fn is_run<H: DeskBrand, R: Wait>(
    rt: &R,
    alloc: Global,
    readers: Vec<LaneReader>,
    told: Told<OfBrand<H>>,
    stops_at: Option<u64>,
) -> Option<bool>
    requires { All (λ reader. reader ≡ new_reader H.publisher H.start) readers.items }
{
    let mut readers = readers;
    let lane = own_lane::<H>(alloc, &mut readers)?;
    let (_producer, consumer) = filled(alloc, told)?;
    match stops_at {
        Some(item_no) => Some(is_stopped(rt, alloc, lane, consumer, item_no)),
        None => is_counted(rt, alloc, lane, consumer),
    }
}

/// The same, over a desk that is set up.
fn scene<H: DeskBrand + Send + Sync + 'static, R: Threads + Wait + Copy + Drop + Send + 'static>(
    rt: &R,
    alloc: Global,
    log: &Log,
    names: DeskNames,
    stops_at: Option<u64>,
) -> bool
    requires log { log.now ≡ H.cells }
    requires ledger { (names.ledger.name ≡ H.name) × (names.ledger.parts ≡ H.parts) }
    requires publisher { names.publisher ≡ H.publisher }
    requires start { no_rows 1 ≡ H.start }
    requires seats { (1 ≡ H.seats) × (H.seats ≡ H.parts) }
{
    match OneDesk::<H>::open(rt, alloc, log, names, 1) {
        Some((desk, readers)) => {
            let mut desk = desk;
            let is_set_up = desk.does_all(rt, alloc, &set_up());
            let told = desk.notice(rt);
            let is_run = is_run::<H, R>(rt, alloc, readers, told, stops_at);
            desk.end(rt);
            is_set_up && is_run == Some(true)
        }
        None => false,
    }
}

/// The same, over a log of its own.
fn plays<R: Threads + Wait + Copy + Drop + Send + 'static>(
    rt: &R,
    alloc: Global,
    stops_at: Option<u64>,
) -> bool {
    match Log::new(alloc) {
        Ok(log) => scene::<Brand, R>(rt, alloc, &log, DeskNames::new(1), stops_at),
        Err(_) => false,
    }
}

/// A lane runs to its `End`, and its pace is asked for each item and for the `End`, by their numbers.
#[test]
fn a_run_ends_by_its_end(rt: HostRuntime) -> Result<(), Fail> {
    assert!(rt; plays(&rt, rt.alloc(), None));
    Ok(())
}

/// Where its pace answers no, a lane ends, and has handled the items before.
#[test]
fn a_run_ends_by_its_pace(rt: HostRuntime) -> Result<(), Fail> {
    assert!(rt; plays(&rt, rt.alloc(), Some(3)));
    Ok(())
}
