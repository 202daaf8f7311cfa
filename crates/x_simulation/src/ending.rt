//! How a bridge over a script ends.

ghost use Rattle.std.specs.Prelude.{◌≡◌};

use crate::difference::Difference;
use crate::gate::Gate;
use crate::lane_model::LaneModel;
use crate::left::FrontLists;
use crate::scene::{Scene, ScriptMedia, ScriptRounds};
use crate::sink::counted;
use crate::tally::Tally;
use event_loop::FrontState;
use media_workers::HandleFault;
use operator_desk::DeskBrand;
use operator_threads::Operators;
use std::alloc::Global;
use std::sync::{Arc, Wait};
use std::thread::Threads;
use std::time::Clock;

/// How many calls the log has, once all seats are back.
pub fn gathered<'a, H: DeskBrand, R: Wait>(
    rt: &R,
    alloc: Global,
    operators: Operators<'a, H>,
) -> Option<u64>
    requires parts { H.seats ≡ H.parts }
{
    let (desk, seats) = operators.end();
    match desk.gather(rt, alloc, seats) {
        Ok((log, _)) => Some(log.len() as u64),
        Err((desk, _, _, _)) => {
            desk.end(rt);
            None
        }
    }
}

/// The media of rounds that are over, and what the front leaves behind.
fn left_by<H, R>(rounds: ScriptRounds<H, R>) -> (ScriptMedia<H, R>, FrontLists)
where
    H: DeskBrand + Send + Sync + 'static,
    R: Threads + Clock + Wait + Copy + Send + Drop + 'static,
{
    let FrontState {
        inlet,
        wire,
        watch,
        media,
        ticked: _,
        stats: _,
        kept: _,
    } = rounds.into_state();
    let left = FrontLists {
        read: inlet.queue.all,
        told: watch.all,
        tried: wire.all,
    };
    (media, left)
}

/// Compares what a lane leaves behind: all that it tried, how many datagrams these were, and how many items it handled.
fn compare_lane(lane: usize, own: &LaneModel, tried: u64, left: (u64, u64), tally: &mut Tally) {
    let (datagrams, handled) = left;
    if own.datagrams != datagrams || own.kept < handled {
        tally.note(Err(Difference::Counts(lane)));
    }
    if own.all != tried {
        tally.note(Err(Difference::Lane(lane)));
    }
}

/// Lets all lanes pass from now on.
fn open_all<R: Wait>(rt: &R, gates: &[Arc<Gate, Global>]) {
    for gate in gates {
        gate.open(rt);
    }
}

/// Ends the lanes of a bridge whose desk has ended, and compares what the bridge leaves behind.
pub fn ended<H, R>(rt: &R, scene: Scene<H, R>) -> Tally
where
    H: DeskBrand + Send + Sync + 'static,
    R: Threads + Clock + Wait + Copy + Send + Drop + 'static,
{
    let Scene {
        rounds,
        begun: _,
        gates,
        model,
        lanes: _,
        beats: _,
        tally,
    } = scene;
    open_all(rt, &gates);
    let mut tally = tally;
    let (media, left) = left_by(rounds);
    if left != model.left {
        tally.note(Err(Difference::Left));
    }
    for end in media.close(rt) {
        let lane = end.lane as usize;
        if matches!(
            end.refused,
            Some((_, HandleFault::Spent | HandleFault::OutOfMemory))
        ) {
            tally.note(Err(Difference::Fault(lane)));
        }
        let left = (counted(&end.sink.counts()), end.handled);
        if let (Some(own), Some(gate)) = (model.lanes.get(lane), gates.get(lane)) {
            compare_lane(lane, own, gate.all(rt), left, &mut tally);
        }
    }
    tally
}
