//! A bridge that runs over a script, from its beginning to its end.

ghost use Rattle.std.specs.Prelude.{◌≡◌, ◌≤◌, true, [], All, vec_len};
ghost use Rattle.ingress.specs.Names.{is_name};
ghost use Rattle.desk_rows.specs.Desk.{blank as no_rows};
ghost use Rattle.published_desk.specs.Published.{ReaderOf, new_reader};
ghost use Rattle.bridge_core.specs.Calls.{most_lanes};

use crate::act::{MOST_LANES, Plan};
use crate::difference::Difference;
use crate::edge::{ScriptInlet, ScriptWatch, ScriptWire};
use crate::ending::{ended, gathered};
use crate::gate::Gate;
use crate::one_thread::{OneThread, SEATS, SSRC, START, report_timer, settings};
use crate::sink::{FatedSink, gates_for, sinks_for};
use crate::talker::Place;
use crate::talkers::Talkers;
use crate::tally::Tally;
use crate::wakes::Wakes;
use bridge_core::{Ingress, Settings};
use bridge_stats::BridgeStats;
use event_loop::{BegunRound, FrontKept, FrontState, FrontTrace, Rounds};
use media_front::{LaneFeed, MediaFront, PublisherOf, pli_octets};
use media_workers::SleepPace;
use operator_desk::{DeskBrand, DeskNames, Log, SharedDesk};
use operator_threads::Operators;
use published_desk::LaneReader;
use rate_limiter::RateLimiter;
use std::alloc::Global;
use std::marker::Brand;
use std::sync::{Arc, Wait};
use std::thread::Threads;
use std::time::Clock;

/// The media of a bridge over a script.
pub type ScriptMedia<H, R> = MediaFront<PublisherOf<H>, SleepPace<R, ()>, FatedSink<R>>;

/// The rounds of a bridge over a script.
pub type ScriptRounds<H, R> = Rounds<
    PublisherOf<H>,
    SleepPace<R, ()>,
    FatedSink<R>,
    ScriptInlet,
    ScriptWire,
    ScriptWatch,
>;

/// The front of a bridge, the gates of its lanes, and the model. It is not `Drop`: end it by `ended`.
pub struct Scene<H: DeskBrand, R: Wait + Drop> {
    pub rounds: ScriptRounds<H, R>,
    /// The round that has begun.
    pub begun: Option<BegunRound>,
    pub gates: Vec<Arc<Gate, Global>>,
    pub model: OneThread,
    /// How many lanes the bridge has.
    pub lanes: u32,
    /// How many beats there were.
    pub beats: u32,
    pub tally: Tally,
}

/// What was played of a bridge that didn't begin.
fn unplayed(difference: Difference) -> Tally {
    let mut tally = Tally::new();
    tally.note(Err(difference));
    tally
}

/// Plays a script.
pub fn played<R: Threads + Clock + Wait + Copy + Send + Drop + 'static>(
    rt: &R,
    alloc: Global,
    text: &String,
) -> Tally {
    let Some(plan) = Plan::read(text.as_str()) else {
        return unplayed(Difference::Line);
    };
    match Log::new(alloc) {
        Ok(log) => begin::<Brand, _>(rt, alloc, &log, DeskNames::new(SEATS), plan, text),
        Err(_) => unplayed(Difference::Memory),
    }
}

/// The same on a bridge whose desk has a brand of its own.
// A call that picks what a brand stands for takes no `&str`.
fn begin<'a, H, R>(
    rt: &R,
    alloc: Global,
    log: &'a Log,
    names: DeskNames,
    plan: Plan,
    text: &String,
) -> Tally
where
    H: DeskBrand + Send + Sync + 'static,
    R: Threads + Clock + Wait + Copy + Send + Drop + 'static,
    requires log { log.now ≡ H.cells }
    requires ledger { (names.ledger.name ≡ H.name) × (names.ledger.parts ≡ H.parts) }
    requires publisher { names.publisher ≡ H.publisher }
    requires start { no_rows SSRC ≡ H.start }
    requires seats { (SEATS ≡ H.seats) × (H.seats ≡ H.parts) }
{
    let readers = plan.lanes.min(MOST_LANES) as usize + 1;
    let made = SharedDesk::<H>::new(rt, alloc, log, names, SSRC, SEATS, readers);
    let Ok((desk, seats, readers)) = made else {
        return unplayed(Difference::Begin);
    };
    match scene_of::<H, R>(rt, alloc, readers, plan) {
        Ok(scene) => run(
            rt,
            alloc,
            Operators::new(rt, alloc, desk, seats),
            scene,
            text.as_str(),
        ),
        Err(difference) => {
            desk.end(rt);
            unplayed(difference)
        }
    }
}

/// Plays a script on a bridge, and ends it.
fn run<'a, H, R>(
    rt: &R,
    alloc: Global,
    operators: Operators<'a, H>,
    scene: Scene<H, R>,
    text: &str,
) -> Tally
where
    H: DeskBrand + Send + Sync + 'static,
    R: Threads + Clock + Wait + Copy + Send + Drop + 'static,
    requires parts { H.seats ≡ H.parts }
{
    let mut scene = scene;
    let front = Wakes::new();
    let place = Place {
        rt,
        alloc,
        operators: &operators,
        front: &front,
    };
    let mut talkers = Talkers::nobody();
    let done = scene.play(&place, &mut talkers, text);
    talkers.leave();
    let Place {
        rt: _,
        alloc: _,
        operators: _,
        front: _,
    } = place;
    scene.tally.note(done);
    let notice = operators.latest(rt);
    let calls = gathered(rt, alloc, operators);
    scene.tally.has_seats = calls.is_some();
    if calls != Some(scene.model.desk.accepted) {
        scene.tally.note(Err(Difference::Log));
    }
    let done = scene.round_after(rt, alloc, notice);
    scene.tally.note(done);
    ended(rt, scene)
}

/// A bridge with a lane for each reader but the last, which is the front's.
fn scene_of<H, R>(
    rt: &R,
    alloc: Global,
    readers: Vec<LaneReader>,
    plan: Plan,
) -> Result<Scene<H, R>, Difference>
where
    H: DeskBrand + Send + Sync + 'static,
    R: Threads + Clock + Wait + Copy + Send + Drop + 'static,
    requires { All (λ (reader : ReaderOf). reader ≡ new_reader H.publisher H.start) readers.items }
{
    let mut readers = readers;
    let own = readers.pop();
    let gates = gates_for(alloc, readers.len())?;
    let model = OneThread::new(alloc, plan)?;
    let chunk = vec![in alloc; 0; 9_000]?;
    let stats = BridgeStats::new(alloc)?;
    let sinks = sinks_for(rt, alloc, &gates, plan.seed)?;
    if readers.len() > MOST_LANES as usize || sinks.len() != readers.len() {
        return Err(Difference::Begin);
    }
    let media = media_of::<H, R>(rt, alloc, readers, settings(), sinks, plan)?;
    Ok(Scene {
        rounds: rounds_of(alloc, own, media, stats, chunk),
        begun: None,
        gates,
        model,
        lanes: plan.lanes,
        beats: 0,
        tally: Tally::new(),
    })
}

/// The rounds of a front that has done nothing yet.
fn rounds_of<H, R>(
    alloc: Global,
    reader: Option<LaneReader>,
    media: ScriptMedia<H, R>,
    stats: BridgeStats,
    chunk: Vec<u8>,
) -> ScriptRounds<H, R>
where
    H: DeskBrand + Send + Sync + 'static,
    R: Threads + Clock + Wait + Copy + Send + Drop + 'static,
{
    let state = FrontState {
        inlet: ScriptInlet::new(alloc),
        wire: ScriptWire::new(alloc),
        watch: ScriptWatch::new(alloc, START),
        media,
        ticked: START,
        stats,
        kept: FrontKept::begin(alloc, START),
    };
    Rounds::new(alloc, state, reader, chunk, FrontTrace::off())
}

/// Starts a lane for each reader, with these sinks.
fn media_of<H, R>(
    rt: &R,
    alloc: Global,
    readers: Vec<LaneReader>,
    settings: Settings,
    sinks: Vec<FatedSink<R>>,
    plan: Plan,
) -> Result<ScriptMedia<H, R>, Difference>
where
    H: DeskBrand + Send + Sync + 'static,
    R: Threads + Clock + Wait + Copy + Send + Drop + 'static,
    requires readers { All (λ (reader : ReaderOf). reader ≡ new_reader H.publisher H.start) readers.items }
    requires few { vec_len readers ≤ most_lanes }
    requires name { is_name settings.cname ≡ true }
    requires many { vec_len sinks ≡ vec_len readers }
    requires untaken { All (λ sink. sink.taken ≡ []) sinks.items }
{
    let ingress = Ingress::new(alloc, settings.try_clone()?)?;
    let limiter = RateLimiter::new(alloc)?;
    let cost = pli_octets(alloc, &settings)?;
    match LaneFeed::start(rt, alloc, readers, &settings, sinks) {
        Ok(feed) => {
            let mut media = MediaFront::new(ingress, feed, limiter, cost, report_timer(plan));
            media.renew();
            Ok(media)
        }
        Err(_) => Err(Difference::Begin),
    }
}
