//! How a bridge begins, and the way to its end.

ghost use Rattle.std.specs.Prelude.{◌≡◌, ◌≤◌, ◌+◌, true, [], vec_len, All, IfOk};
ghost use Rattle.ingress.specs.Names.{is_name};
ghost use Rattle.desk_rows.specs.Desk.{blank as no_rows, good};
ghost use Rattle.published_desk.specs.Published.{ReaderOf, new_reader};
ghost use Rattle.bridge_core.specs.Calls.{most_lanes};
ghost use Rattle.operator_desk.specs.LegalLogs.{IsLegal, calls_of as calls_in};
ghost use Rattle.operator_desk.specs.Opening.{most_operators};
ghost use Rattle.bridge_server.specs.Counts.{counts_by};
ghost use Rattle.bridge_server.specs.OneRun.{IsSetUp, IsOneRun, signer, sent_into};
ghost use Rattle.bridge_server.specs.WholeRun.{IsWholeRun};
ghost use Rattle.bridge_server.specs.inner.Running.{IsNewMedia};

use crate::causes::{desk_fault, note_desk, note_end, note_round, note_start, start_fault};
use crate::ending::{close, gather, give_up};
use crate::front::Front;
use crate::listener::OperatorListener;
use crate::parts::{records_of, sockets_of};
use crate::rounds::{Running, ServerMedia};
use crate::serving::serve;
use crate::setup::Setup;
use crate::sinks::LaneSocket;
use crate::stopped::Stopped;
use crate::tracing::Tracer;
use crate::waking::FrontWaker;
use crate::watching::SystemWatch;
use bridge_core::{Ingress, Settings};
use bridge_monitor::Teller;
use event_loop::{FrontKept, FrontState, FrontTrace, Rounds};
use lane_wire::WireSink;
use media_front::{LaneFeed, MediaFront, pli_octets};
use operator_desk::{DeskBrand, DeskNames, Log, MAX_OPERATORS, Seat, SharedDesk};
use operator_threads::Operators;
use published_desk::LaneReader;
use rate_limiter::RateLimiter;
use std::alloc::Global;
use std::marker::Brand;
use std::net::Net;
use std::sync::Wait;
use std::thread::Threads;
use std::time::Clock;
use udp_wire::{FrontFault, ReportTimer};

/// Runs a bridge until an operator stops it.
// The log has all its cells from the start: a cell's place is its call's number, and no call may be refused because its
// log is out of memory.
pub(crate) fn open<R>(
    rt: &R,
    alloc: Global,
    front: Front,
    teller: &Teller,
) -> Result<Stopped, FrontFault>
where
    R: Threads + Clock + Wait + Net + Copy + Send + Sync + Drop + 'static,
    ensures legal { IfOk result (λ s. IsLegal (no_rows front.settings.bridge.bridge_ssrc) s.log.items) }
    ensures accepted { IfOk result (λ s. s.accepted.items ≡ counts_by s.log.items front.settings.operators) }
    ensures one { IfOk result (λ s. IsOneRun (signer front.settings.bridge)
        (no_rows front.settings.bridge.bridge_ssrc) (calls_in s.log.items) (sent_into s.sent.items)) }
    ensures whole { IfOk result (λ s. IsWholeRun R (signer front.settings.bridge)
        (no_rows front.settings.bridge.bridge_ssrc) s) }
    ensures dropped { IfOk result (λ s. vec_len s.dropped ≡ front.settings.lanes) }
    ensures sent { IfOk result (λ s. vec_len s.sent ≡ front.settings.lanes) }
{
    let log = Log::new(alloc)?;
    let ssrc = front.settings.bridge.bridge_ssrc;
    let operators = front.settings.operators;
    open_in::<Brand, _>(
        rt,
        alloc,
        &log,
        DeskNames::new(operators),
        ssrc,
        front,
        teller,
    )
}

/// Runs a bridge whose desk has a brand of its own, with the SSRC of its settings.
fn open_in<'a, H, R>(
    rt: &R,
    alloc: Global,
    log: &'a Log,
    names: DeskNames,
    ssrc: u32,
    front: Front,
    teller: &Teller,
) -> Result<Stopped, FrontFault>
where
    H: DeskBrand + Setup + Send + Sync + 'static,
    R: Threads + Clock + Wait + Net + Copy + Send + Sync + Drop + 'static,
    requires log { log.now ≡ H.cells }
    requires ledger { (names.ledger.name ≡ H.name) × (names.ledger.parts ≡ H.parts) }
    requires publisher { names.publisher ≡ H.publisher }
    requires start { no_rows ssrc ≡ H.start }
    requires seats { (front.settings.operators ≡ H.seats) × (H.seats ≡ H.parts) }
    requires who { signer front.settings.bridge ≡ H.who }
    requires lanes { front.settings.lanes ≡ H.lanes }
    ensures legal { IfOk result (λ s. IsLegal H.start s.log.items) }
    ensures accepted { IfOk result (λ s. s.accepted.items ≡ counts_by s.log.items front.settings.operators) }
    ensures one { IfOk result (λ s. IsOneRun H.who H.start (calls_in s.log.items) (sent_into s.sent.items)) }
    ensures whole { IfOk result (λ s. IsWholeRun R H.who H.start s) }
    ensures dropped { IfOk result (λ s. vec_len s.dropped ≡ H.lanes) }
    ensures sent { IfOk result (λ s. vec_len s.sent ≡ H.lanes) }
{
    let operators = front.settings.operators;
    // One reader for each lane, and one for the front.
    let readers = front.settings.lanes as usize + 1;
    let made = SharedDesk::<H>::new(rt, alloc, log, names, ssrc, operators, readers);
    match made {
        // There are as many seats as operators.
        Ok((desk, seats, readers)) if seats.len() <= MAX_OPERATORS as usize => {
            run(rt, alloc, desk, seats, readers, front, teller)
        }
        Ok((desk, _seats, _readers)) => {
            desk.end(rt);
            Err(FrontFault::Internal)
        }
        Err(fault) => Err(desk_fault(fault)),
    }
}

/// Starts the lanes. Returns the front, its waker, where operators connect, and what writes the trace, if there is one.
fn begin<H, R>(
    rt: &R,
    alloc: Global,
    mut readers: Vec<LaneReader>,
    front: Front,
    teller: &Teller,
) -> Result<(Running<H, R>, FrontWaker, OperatorListener, Option<Tracer>), FrontFault>
where
    H: DeskBrand + Setup + Send + Sync + 'static,
    R: Threads + Clock + Wait + Copy + Send + Drop + 'static,
    requires readers { All (λ (reader : ReaderOf). reader ≡ new_reader H.publisher H.start) readers.items }
    requires few { vec_len readers ≤ most_lanes + 1 }
    requires lanes { vec_len readers ≡ H.lanes + 1 }
    requires who { signer front.settings.bridge ≡ H.who }
{
    let own = readers.pop();
    let (sockets, trace, parts) = sockets_of(rt, alloc, front, teller)?;
    let bridge = &parts.settings.bridge;
    let (records, sinks) = records_of(alloc, &sockets.udp, trace, bridge, readers.len(), teller)?;
    let start = parts.moments.start();
    let reports = ReportTimer::begin(parts.settings.report_ms, start);
    let mut media = media_of(rt, alloc, readers, bridge, sinks, reports, teller)?;
    media.renew();
    let kept = FrontKept::begin(alloc, start);
    let state = FrontState {
        inlet: sockets.inlet,
        wire: sockets.wire,
        watch: SystemWatch::new(rt, parts.moments),
        media,
        ticked: start,
        stats: records.stats,
        kept,
    };
    let trace = FrontTrace::new(records.trace);
    let rounds = Rounds::new(alloc, state, own, parts.chunk, trace);
    let running = Running {
        rounds,
        begun: None,
        lanes: records.lanes,
    };
    Ok((running, parts.waker, parts.listener, records.tracer))
}

/// Starts the lanes, one for each reader, each with a sink.
fn media_of<H, R>(
    rt: &R,
    alloc: Global,
    readers: Vec<LaneReader>,
    settings: &Settings,
    sinks: Vec<WireSink<LaneSocket>>,
    reports: ReportTimer,
    teller: &Teller,
) -> Result<ServerMedia<H, R>, FrontFault>
where
    H: DeskBrand + Setup + Send + Sync + 'static,
    R: Threads + Clock + Wait + Copy + Send + Drop + 'static,
    requires readers { All (λ (reader : ReaderOf). reader ≡ new_reader H.publisher H.start) readers.items }
    requires few { vec_len readers ≤ most_lanes }
    requires lanes { vec_len readers ≡ H.lanes }
    requires who { signer settings.now ≡ H.who }
    requires many { vec_len sinks ≡ vec_len readers }
    requires untaken { All (λ sink. sink.taken ≡ []) sinks.items }
    ensures set_up { IfOk result (λ media. IsSetUp H.who H.lanes H.start H.publisher media) }
    ensures new { IfOk result (λ media. IsNewMedia media) }
{
    if !settings.is_good() {
        // Settings that were read always are.
        return Err(FrontFault::Internal);
    }
    let ingress = Ingress::new(alloc, settings.try_clone()?)?;
    let limiter = RateLimiter::new(alloc)?;
    let cost = pli_octets(alloc, settings)?;
    match LaneFeed::start(rt, alloc, readers, settings, sinks) {
        Ok(feed) => Ok(MediaFront::new(ingress, feed, limiter, cost, reports)),
        Err(fault) => {
            note_start(rt, teller, fault);
            Err(start_fault(fault))
        }
    }
}

/// Ends a bridge whose rounds are over, with how the last of them ended: its desk, and then its lanes.
fn conclude<'a, H, R>(
    rt: &R,
    alloc: Global,
    operators: Operators<'a, H>,
    count: u32,
    running: Running<H, R>,
    round: Result<(), FrontFault>,
    teller: &Teller,
) -> Result<Stopped, FrontFault>
where
    H: DeskBrand + Setup + Send + Sync + 'static,
    R: Threads + Clock + Wait + Net + Copy + Send + Sync + Drop + 'static,
    requires parts { H.seats ≡ H.parts }
    requires first { good H.start ≡ true }
    ensures legal { IfOk result (λ s. IsLegal H.start s.log.items) }
    ensures accepted { IfOk result (λ s. s.accepted.items ≡ counts_by s.log.items count) }
    ensures one { IfOk result (λ s. IsOneRun H.who H.start (calls_in s.log.items) (sent_into s.sent.items)) }
    ensures whole { IfOk result (λ s. IsWholeRun R H.who H.start s) }
    ensures dropped { IfOk result (λ s. vec_len s.dropped ≡ H.lanes) }
    ensures sent { IfOk result (λ s. vec_len s.sent ≡ H.lanes) }
{
    // The desk ends first: a lane then ends at its next item, and what is left in its ring is dropped.
    match gather(rt, alloc, operators, count) {
        Ok((desk, last)) => {
            let fault = round.as_ref().err().copied();
            let lanes = close(rt, alloc, running, fault, &last, teller);
            note_end(rt, teller, lanes.as_ref().err().copied());
            Stopped::told(round, lanes, Ok(desk))
        }
        Err(fault) => {
            note_desk(rt, teller, fault);
            let lanes = give_up(rt, running, teller, fault);
            Stopped::told(round, Err(lanes), Err(fault))
        }
    }
}

/// Runs a bridge over a desk until an operator stops it, and ends the desk.
fn run<'a, H, R>(
    rt: &R,
    alloc: Global,
    desk: SharedDesk<'a, H>,
    seats: Vec<Seat<'a, H>>,
    readers: Vec<LaneReader>,
    front: Front,
    teller: &Teller,
) -> Result<Stopped, FrontFault>
where
    H: DeskBrand + Setup + Send + Sync + 'static,
    R: Threads + Clock + Wait + Net + Copy + Send + Sync + Drop + 'static,
    requires readers { All (λ (reader : ReaderOf). reader ≡ new_reader H.publisher H.start) readers.items }
    requires few { vec_len readers ≤ most_lanes + 1 }
    requires lanes { vec_len readers ≡ H.lanes + 1 }
    requires who { signer front.settings.bridge ≡ H.who }
    requires seats { vec_len seats ≤ most_operators }
    requires parts { H.seats ≡ H.parts }
    requires first { good H.start ≡ true }
    ensures legal { IfOk result (λ s. IsLegal H.start s.log.items) }
    ensures accepted { IfOk result (λ s. s.accepted.items ≡ counts_by s.log.items front.settings.operators) }
    ensures one { IfOk result (λ s. IsOneRun H.who H.start (calls_in s.log.items) (sent_into s.sent.items)) }
    ensures whole { IfOk result (λ s. IsWholeRun R H.who H.start s) }
    ensures dropped { IfOk result (λ s. vec_len s.dropped ≡ H.lanes) }
    ensures sent { IfOk result (λ s. vec_len s.sent ≡ H.lanes) }
{
    let count = front.settings.operators;
    match begin(rt, alloc, readers, front, teller) {
        Ok((running, waker, listener, tracer)) => {
            let operators = Operators::new(rt, alloc, desk, seats);
            let mut running = running;
            let mut listener = listener;
            let done = serve(
                rt,
                alloc,
                &operators,
                &waker,
                &mut listener,
                &mut running,
                tracer,
            );
            note_round(rt, teller, &running, &done);
            if operators.has_failed() {
                note_desk(rt, teller, FrontFault::DeskEnded);
            }
            conclude(rt, alloc, operators, count, running, done, teller)
        }
        Err(fault) => {
            desk.end(rt);
            Err(fault)
        }
    }
}
