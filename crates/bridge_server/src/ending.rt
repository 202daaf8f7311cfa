//! How a bridge ends: its desk first, and then its lanes.

ghost use Rattle.std.specs.Prelude.{◌≡◌, true, List, map, Some, None, Err, IfOk, IfErr, OnOk, unwrap_or, vec_len};
ghost use mathlib.Core.List.{IsPrefix};
ghost use Rattle.udp_wire.specs.declared.ending.FrontFault.TheVariants.{Internal};
ghost use Rattle.desk_rows.specs.Desk.{good};
ghost use Rattle.published_desk.specs.Published.{ReaderOf};
ghost use Rattle.operator_desk.specs.Answers.{Tells};
ghost use Rattle.operator_desk.specs.Entry.{EntryOf};
ghost use Rattle.operator_desk.specs.LegalLogs.{IsLegal, calls_of as calls_in};
ghost use Rattle.lane_laws.specs.Learnt.{HaveEnded, HaveKnown};
ghost use Rattle.media_front.specs.FedLanes.{FedLane};
ghost use Rattle.media_workers.specs.declared.signal.SleepPace.{SleepPace as Sleeps};
ghost use Rattle.lane_wire.specs.Sinks.{SinkOf};
ghost use Rattle.whole_laws.specs.Whole.{IsWhole};
ghost use Rattle.bridge_server.specs.Counts.{counts_by};
ghost use Rattle.bridge_server.specs.Ends.{ended_by_log};
ghost use Rattle.bridge_server.specs.OneRun.{IsSetUp, IsOneRun, sent_into};
ghost use Rattle.bridge_server.specs.WholeRun.{left_by};
ghost use Rattle.bridge_server.specs.inner.Running.{HasLeft};
ghost use Rattle.bridge_server.specs.declared.sinks.LaneSocket.{LaneSocket as OnSocket};

use crate::calls::calls_of;
use crate::causes::note_lanes;
use crate::rounds::{Running, ServerMedia};
use crate::setup::Setup;
use crate::sinks::LaneSocket;
use crate::stopped::{DeskEnd, FrontLeft, MediaEnd};
use bridge_monitor::Teller;
use event_loop::FrontState;
use lane_laws::{lanes_saw_what_they_know, none_knew_more, the_running_headline};
use lane_wire::{WireSink, sent_of};
use media_front::{PublisherOf, fault_of};
use media_workers::{LaneEnd, Pace, PublisherName, Sink, SleepPace};
use operator_desk::{DeskBrand, GatherFault};
use operator_threads::Operators;
use published_desk::{LaneReader, Notice};
use std::alloc::{AllocError, Global};
use std::sync::Wait;
use std::thread::Threads;
use std::time::Clock;
use udp_wire::FrontFault;
use whole_laws::{fronts_that_ran, lanes_that_ran};

/// The bridge's fault, if the log can't be gathered.
fn gather_fault(fault: GatherFault) -> FrontFault
    ensures { result ≡ ended_by_log fault }
{
    match fault {
        GatherFault::OutOfMemory => FrontFault::OutOfMemory,
        GatherFault::Ended => FrontFault::DeskEnded,
        // A bridge hands in all seats of its own desk, which has its own log.
        GatherFault::SeatMissing { .. } | GatherFault::SeatForeign { .. } | GatherFault::LogTaken =>
            FrontFault::Internal,
    }
}

/// Ends the desk. Returns its log, with how many calls of each operator it has, and the notice of its last version.
pub(crate) fn gather<'a, H: DeskBrand, R: Wait>(
    rt: &R,
    alloc: Global,
    operators: Operators<'a, H>,
    count: u32,
) -> Result<(DeskEnd, Notice), FrontFault>
    requires parts { H.seats ≡ H.parts }
    ensures legal { IfOk result (λ r. IsLegal H.start (r.0).log.items) }
    ensures tells { IfOk result (λ r. Tells H.start H.publisher (r.0).log.items r.1) }
    ensures accepted { IfOk result (λ r. (r.0).accepted.items ≡ counts_by (r.0).log.items count) }
{
    let (desk, seats) = operators.end();
    match desk.gather(rt, alloc, seats) {
        Ok((log, last)) => {
            let accepted = calls_of(alloc, count, &log)?;
            Ok((DeskEnd { log, accepted }, last))
        }
        Err((desk, _seats, fault, _behind)) => {
            desk.end(rt);
            Err(gather_fault(fault))
        }
    }
}

/// The media of a bridge whose rounds are over, its front's reader unless a round is under way or has failed, and what
/// the front left behind.
fn parts_of<H: DeskBrand + Setup, R: Wait + Clock + Drop>(
    running: Running<H, R>,
) -> (ServerMedia<H, R>, Option<LaneReader>, FrontLeft)
    ensures set_up { IsSetUp H.who H.lanes H.start H.publisher result.0 }
    ensures left { (reader : ReaderOf) → result.1 ≡ Some reader →
        HasLeft H.who H.start H.publisher result.0 reader result.2 }
{
    let Running {
        rounds,
        begun: _,
        lanes: _,
    } = running;
    let mut rounds = rounds;
    let reader = rounds.reader.take();
    let FrontState {
        inlet,
        wire,
        watch,
        media,
        ticked: _,
        stats: _,
        kept: _,
    } = rounds.into_state();
    let left = FrontLeft {
        read: inlet.into_log(),
        told: watch.into_log(),
        tried: wire.into_log(),
    };
    (media, reader, left)
}

/// The fault of its last round, or else `Internal`, if a front has no reader, since a round is under way or has failed.
/// `Internal`, too, if it knew of a later version than this notice. None does, if the notice is of the last version of
/// a desk that had ended before.
fn compare_front(
    reader: Option<LaneReader>,
    last: &Notice,
    round: Option<FrontFault>,
) -> Result<(), FrontFault>
    requires { (known : ReaderOf) → reader ≡ Some known → known.publisher ≡ last.now.publisher }
    ensures known { OnOk result ((known : ReaderOf) × (reader ≡ Some known) × IsPrefix known.lists last.now.lists) }
    ensures fault { reader ≡ None → result ≡ Err (unwrap_or round Internal) }
{
    let Some(reader) = reader else {
        return Err(round.unwrap_or(FrontFault::Internal));
    };
    let known = reader.known();
    if last.version() < known.version() {
        return Err(FrontFault::Internal);
    }
    last.agrees(&known);
    Ok(())
}

/// The fault `Internal` if a lane knew of a later version than this notice when it ended. None does, if the notice is
/// of the last version of a desk that had ended before.
fn compare<N: PublisherName, P: Pace, S: Sink>(
    ends: &Vec<LaneEnd<N, S>>,
    last: &Notice,
) -> Result<(), FrontFault>
    requires ended { HaveEnded P.answers S.taken last.now.publisher ends.now.items }
    ensures known { OnOk result (HaveKnown last.now.lists ends.now.items) }
    ensures fault { IfErr result (λ fault. fault ≡ Internal) }
{
    if none_knew_more::<N, P, S>(ends, last) {
        Ok(())
    } else {
        Err(FrontFault::Internal)
    }
}

/// Ends the lanes of a desk that has ended, by the notice of its last version. `round` is the fault of the front's last
/// round. Returns how many items were dropped for each lane, what each sent, and what the front did.
pub(crate) fn close<H, R>(
    rt: &R,
    alloc: Global,
    running: Running<H, R>,
    round: Option<FrontFault>,
    last: &Notice,
    teller: &Teller,
) -> Result<MediaEnd, FrontFault>
where
    H: DeskBrand + Setup + Send + Sync + 'static,
    R: Threads + Clock + Wait + Copy + Send + Drop + 'static,
    requires first { good H.start ≡ true }
    requires publisher { last.now.publisher ≡ H.publisher }
    ensures one { IfOk result (λ end. (log : List EntryOf) →
        IsLegal H.start log → Tells H.start H.publisher log last.now →
        IsOneRun H.who H.start (calls_in log) (sent_into end.sent.items)) }
    ensures whole { IfOk result (λ end. (log : List EntryOf) →
        IsLegal H.start log → Tells H.start H.publisher log last.now →
        IsWhole (Sleeps R (Unit {0})) (SinkOf OnSocket) H.who H.start log
        (left_by end.front end.dropped.items end.sent.items)) }
    ensures dropped { IfOk result (λ end. vec_len end.dropped ≡ H.lanes) }
    ensures sent { IfOk result (λ end. vec_len end.sent ≡ H.lanes) }
{
    let (media, reader, front) = parts_of(running);
    let dropped = dropped_of(alloc, &media);
    let ends = media.close(rt);
    note_lanes(rt, teller, &ends);
    lanes_saw_what_they_know::<PublisherOf<H>, SleepPace<R, ()>, WireSink<LaneSocket>>();
    the_running_headline::<PublisherOf<H>, SleepPace<R, ()>, WireSink<LaneSocket>>();
    fronts_that_ran::<SleepPace<R, ()>, WireSink<LaneSocket>>();
    lanes_that_ran::<PublisherOf<H>, SleepPace<R, ()>, WireSink<LaneSocket>>();
    if let Some(fault) = fault_of(&ends) {
        return Err(fault);
    }
    compare::<PublisherOf<H>, SleepPace<R, ()>, WireSink<LaneSocket>>(&ends, last)?;
    compare_front(reader, last, round)?;
    let dropped = dropped?;
    let sent = sent_of(alloc, ends)?;
    Ok(MediaEnd {
        dropped,
        sent,
        front,
    })
}

/// Ends the lanes of a bridge whose log is lost by a fault. Returns that of the lanes, or else this one.
pub(crate) fn give_up<H, R>(
    rt: &R,
    running: Running<H, R>,
    teller: &Teller,
    fault: FrontFault,
) -> FrontFault
where
    H: DeskBrand + Setup + Send + Sync + 'static,
    R: Threads + Clock + Wait + Copy + Send + Drop + 'static,
{
    let (media, _reader, _left) = parts_of(running);
    let ends = media.close(rt);
    note_lanes(rt, teller, &ends);
    fault_of(&ends).unwrap_or(fault)
}

/// How many items were dropped for each lane.
fn dropped_of<H, R>(alloc: Global, media: &ServerMedia<H, R>) -> Result<Vec<u64>, AllocError>
where
    H: DeskBrand,
    R: Wait + Clock + Drop,
    ensures { IfOk result (λ dropped. dropped.items ≡ map (λ (x : FedLane _ _). x.dropped) media.now.feed) }
{
    let mut dropped = Vec::new(alloc);
    for lane in 0..media.lanes() {
        dropped.push(media.dropped(lane))?;
    }
    Ok(dropped)
}
