//! How lanes are started, each with a signal.

ghost use Rattle.std.specs.Prelude.{◌≡◌, ◌≤◌, ◌↔◌, true, [], Err, length, map, All, IfOk, vec_len};
ghost use Rattle.std.specs.List.{AllByRecursion};
ghost use Rattle.ingress.specs.Names.{is_name};
ghost use Rattle.published_desk.specs.Published.{ReaderOf};
ghost use Rattle.bridge_core.specs.Calls.{most_lanes};
ghost use Rattle.media_workers.specs.LaneRuns.{LaneNow};
ghost use Rattle.media_workers.specs.Bridges.{AreNew};
ghost use Rattle.media_front.specs.FedLanes.{lanes_in, IsFresh};
ghost use Rattle.media_front.specs.inner.Statuses.{fresh_status};

use crate::feed::LaneFeed;
use crate::lane_status::LaneStatus;
use bridge_core::{LaneState, Settings};
use media_workers::{Bridge, Lane, PublisherName, Signal, Sink, SleepPace, StartFault};
use published_desk::LaneReader;
use std::alloc::{AllocError, Global};
use std::sync::{Arc, Wait};
use std::thread::Threads;

/// The statuses of `count` lanes that were given nothing.
fn statuses_for(alloc: Global, count: usize) -> Result<Vec<LaneStatus>, AllocError>
    ensures len { IfOk result (λ statuses. vec_len statuses ≡ count) }
    ensures fresh { IfOk result (λ statuses. All (λ status. status ≡ fresh_status) statuses.items) }
{
    let mut statuses = Vec::with_capacity(alloc, count)?;
    for _ in 0..count {
        statuses.push_reserved(LaneStatus::new());
    }
    Ok(statuses)
}

/// `count` signals.
fn signals_for(alloc: Global, count: usize) -> Result<Vec<Arc<Signal, Global>>, AllocError>
    ensures { IfOk result (λ signals. vec_len signals ≡ count) }
{
    let mut signals = Vec::with_capacity(alloc, count)?;
    for _ in 0..count {
        signals.push_reserved(Arc::new(alloc, Signal::new())?);
    }
    Ok(signals)
}

/// Closes each signal: each lane sleeps from its next parcel on.
fn close_all<R: Wait>(rt: &R, signals: &Vec<Arc<Signal, Global>>) {
    for signal in signals {
        signal.close(rt);
    }
}

/// What each lane is started with beside itself: a pace by its signal, and its sink.
fn outfits_for<R: Wait + Copy + Drop, S: Sink>(
    rt: &R,
    alloc: Global,
    signals: &[Arc<Signal, Global>],
    sinks: Vec<S>,
) -> Result<Vec<(SleepPace<R, ()>, S)>, AllocError>
    requires many { length signals.now ≡ vec_len sinks }
    requires untaken { All (λ (sink : S). S.taken sink ≡ []) sinks.items }
    ensures len { IfOk result (λ outfits. vec_len outfits ≡ vec_len sinks) }
    ensures untaken { IfOk result (λ outfits. All (λ x. S.taken x.1 ≡ []) outfits.items) }
{
    let mut outfits = Vec::with_capacity(alloc, signals.len())?;
    let mut at = 0;
    for sink in sinks {
        let signal = Arc::try_clone(&signals[at])?;
        outfits.push_reserved((SleepPace::by(*rt, signal, ()), sink));
        at += 1;
    }
    Ok(outfits)
}

/// A lane for each reader.
fn lanes_for(
    alloc: Global,
    readers: Vec<LaneReader>,
    settings: &Settings,
) -> Result<Vec<Lane>, AllocError>
    requires name { is_name settings.now.cname ≡ true }
    requires few { vec_len readers ≤ most_lanes }
    ensures new { IfOk result (λ lanes. AreNew lanes.items) }
    ensures who { IfOk result (λ lanes. All (λ (lane : LaneNow). lane.state.who
        ≡ record { ssrc = settings.now.bridge_ssrc; cname = settings.now.cname }) lanes.items) }
    ensures readers { IfOk result (λ lanes. map (λ (lane : LaneNow). lane.reader) lanes.items ≡ readers.items) }
{
    let count = readers.len();
    let mut lanes = Vec::with_capacity(alloc, count)?;
    let mut number = 0;
    for reader in readers {
        let state = LaneState::new(alloc, number, count as u32, settings.try_clone()?)?;
        lanes.push_reserved(Lane::new(reader, state));
        number += 1;
    }
    Ok(lanes)
}

impl<N, R, S> LaneFeed<N, SleepPace<R, ()>, S>
where
    N: PublisherName + Send + Sync + 'static,
    R: Threads + Wait + Copy + Send + Drop + 'static,
    S: Sink + Send + Drop + 'static,
{
    /// Starts a lane for each of 1 to 16 readers, on a thread of its own, which sends by a sink of its own. It signs by
    /// the SSRC and the CNAME of the settings. From its first parcel on, a lane sleeps while it has none. Until then it
    /// takes processor time.
    ///
    /// The fault is `Count` if there is no reader. All lanes have been ended and dropped after any fault.
    pub fn start(
        rt: &R,
        alloc: Global,
        readers: Vec<LaneReader>,
        settings: &Settings,
        sinks: Vec<S>,
    ) -> Result<Self, StartFault>
        requires name { is_name settings.now.cname ≡ true }
        requires publisher { All (λ (reader : ReaderOf). reader.publisher ≡ N.publisher) readers.items }
        requires few { vec_len readers ≤ most_lanes }
        requires many { vec_len sinks ≡ vec_len readers }
        requires untaken { All (λ (sink : S). S.taken sink ≡ []) sinks.items }
        ensures new { IfOk result (λ feed. AreNew (lanes_in feed)) }
        ensures who { IfOk result (λ feed. All (λ (lane : LaneNow). lane.state.who
            ≡ record { ssrc = settings.now.bridge_ssrc; cname = settings.now.cname }) (lanes_in feed)) }
        ensures readers { IfOk result (λ feed. map (λ (lane : LaneNow). lane.reader) (lanes_in feed) ≡ readers.items) }
        ensures fresh { IfOk result (λ feed. AllByRecursion IsFresh feed) }
        ensures count { result ≡ Err StartFault.Count ↔ readers.items ≡ [] }
    {
        if readers.is_empty() {
            return Err(StartFault::Count);
        }
        let count = readers.len();
        let Ok(statuses) = statuses_for(alloc, count) else {
            return Err(StartFault::OutOfMemory);
        };
        let Ok(signals) = signals_for(alloc, count) else {
            return Err(StartFault::OutOfMemory);
        };
        let Ok(outfits) = outfits_for(rt, alloc, &signals, sinks) else {
            return Err(StartFault::OutOfMemory);
        };
        let Ok(lanes) = lanes_for(alloc, readers, settings) else {
            return Err(StartFault::OutOfMemory);
        };
        match Bridge::start(rt, alloc, lanes, outfits) {
            Ok(bridge) => {
                close_all(rt, &signals);
                Ok(LaneFeed {
                    bridge,
                    statuses,
                    signals,
                })
            }
            Err((_, fault)) => Err(fault),
        }
    }
}
