//! The front of a bridge that runs: its rounds over the system's sockets and clock.

ghost use Rattle.std.specs.Prelude.{◌≡◌};

use crate::setup::Setup;
use crate::sinks::LaneSocket;
use crate::sockets::{FrontSocket, UdpInlet};
use crate::watching::SystemWatch;
use bridge_monitor::{LaneCounts, StatsDesk, Teller};
use event_lines::{Cause, Event, LaneDrops};
use event_loop::{BegunRound, Rounds};
use lane_wire::WireSink;
use media_front::{MediaFront, PublisherOf};
use media_workers::SleepPace;
use operator_desk::DeskBrand;
use published_desk::Notice;
use std::marker::Model;
use std::sync::Wait;
use std::time::Clock;
use udp_wire::FrontFault;

/// The media of a bridge whose desk has brand H, on a runtime R.
pub(crate) type ServerMedia<H, R> = MediaFront<
    PublisherOf<H>,
    SleepPace<R, ()>,
    WireSink<LaneSocket>,
>;

/// The rounds of a bridge whose desk has brand H, on a runtime R.
pub(crate) type ServerRounds<H, R> = Rounds<
    PublisherOf<H>,
    SleepPace<R, ()>,
    WireSink<LaneSocket>,
    UdpInlet<R>,
    FrontSocket,
    SystemWatch<R>,
>;

/// What a front knows once it has waited.
#[derive(Clone, Copy)]
pub(crate) struct FrontWait {
    /// Whether connections may wait.
    pub(crate) may_wait: bool,
    /// The moment at which ticks were given last, in nanoseconds since 1970.
    pub(crate) now: u64,
}

/// The front of a bridge that runs.
///
/// Contracts see the lanes as they were handed in. Nothing that a round does changes which they are, or by which name
/// the bridge signs. Whatever `serve` does with it, from its fresh state on it has done whole rounds, one after
/// another.
// So nothing that runs rounds needs a clause that says so. This is why a round that has begun lies here until it ends.
pub(crate) struct Running<H: DeskBrand + Setup, R: Wait + Clock + Drop> {
    pub(crate) rounds: ServerRounds<H, R>,
    /// The round that has begun, if one has.
    pub(crate) begun: Option<BegunRound>,
    pub(crate) lanes: LaneCounts,
}

impl<H: DeskBrand + Setup, R: Wait + Clock + Drop> Model for Running<H, R> {
    ghost use Rattle.std.specs.Prelude.{List};
    ghost use Rattle.media_workers.specs.LaneRuns.{LaneNow};
    ghost use Rattle.media_front.specs.FedLanes.{lanes_in};
    ghost use Rattle.bridge_server.specs.inner.Running.{IsRunning};

    ghost Value = { List LaneNow };

    ghost view = { λ r. lanes_in r.rounds.state.front.feed };

    ghost invariant = { λ r. IsRunning H.who H.lanes H.start H.publisher r.rounds.state r.rounds.reader r.begun };
}

impl<
    H: DeskBrand + Setup + Send + Sync + 'static,
    R: Wait + Clock + Copy + Send + Drop + 'static,
> Running<H, R> {
    /// Begins a round: waits until something has come, or a tick is due. A lane that has ended is a fault.
    pub(crate) fn begin_round(&mut self) -> Result<FrontWait, FrontFault> {
        let begun = self.rounds.begin_round()?;
        let waited = FrontWait {
            may_wait: begun.may_wait,
            now: begun.now,
        };
        self.begun = Some(begun);
        Ok(waited)
    }

    /// Ends the round that has begun: takes in what has come and what is due. The fault is `Internal` where none has.
    pub(crate) fn end_round(&mut self, rt: &R, notice: Notice) -> Result<(), FrontFault>
        requires { notice.publisher ≡ H.publisher }
    {
        let Some(begun) = self.begun.take() else {
            return Err(FrontFault::Internal);
        };
        self.rounds.end_round(rt, begun, notice)
    }

    /// Tells of each lane its first dropped item of a second. `drops` is what is known of each lane.
    pub(crate) fn tell_drops(&self, rt: &R, teller: &Teller, drops: &mut [LaneDrops]) {
        let now = self.rounds.state.ticked;
        let media = &self.rounds.state.media;
        for lane in 0..media.lanes() {
            let items = media.dropped(lane);
            if let Some(known) = drops.get_mut(lane as usize) {
                if known.look(items, now) {
                    teller.tell(rt, Event::Dropped { lane, items });
                }
            }
        }
    }

    /// Answers the operators' threads that ask what the bridge counts. Where none asks, it does nothing.
    pub(crate) fn answer_stats(&mut self, rt: &R, desk: &StatsDesk) {
        let lanes = &mut self.lanes;
        let front = &mut self.rounds.state;
        desk.answer(rt, front.ticked, &front.stats, &mut front.media, lanes);
    }

    /// What failed last at its sockets and its clock.
    pub(crate) fn trouble(&self) -> Option<Cause> {
        match self.rounds.state.inlet.trouble() {
            Some(cause) => Some(cause),
            None => self.rounds.state.watch.trouble(),
        }
    }
}
