//! The lines of a script, on a bridge and on the model.

ghost use Rattle.std.specs.Prelude.{◌≡◌};

use crate::act::Act;
use crate::beat::{beat_frame, beat_line};
use crate::datagram::{Datagram, are_same};
use crate::difference::Difference;
use crate::lane_model::LaneModel;
use crate::scene::{Scene, ScriptMedia};
use crate::talker::Place;
use crate::talkers::Talkers;
use operator_desk::DeskBrand;
use published_desk::Notice;
use std::alloc::Global;
use std::sync::Wait;
use std::time::Clock;

/// The most items that give datagrams which a lane handles for one line.
const MOST_STOPS: u64 = 2_000;
/// How often the script waits for a lane: 20 s in all.
const MOST_WAITS: u32 = 200;
/// How many nanoseconds there are between rounds that the script doesn't ask for, and how many a look at the watch
/// takes.
const STEP: u64 = 20_000_000;

const LOOK: i64 = 1_000;

impl<H: DeskBrand, R: Wait + Clock + Drop> Scene<H, R> {
    /// Plays a script.
    pub fn play<'b, 'a>(
        &mut self,
        place: &Place<'b, 'a, H, R>,
        talkers: &mut Talkers<'b, 'a, H, R>,
        text: &str,
    ) -> Result<(), Difference> {
        self.begin(place, talkers)?;
        for line in text.lines() {
            self.tally.line = self.tally.line.saturating_add(1);
            let Some(act) = Act::read(line) else {
                return Err(Difference::Line);
            };
            self.act(place, talkers, act)?;
        }
        talkers.finish(place, &mut self.model)?;
        self.round(place, STEP, LOOK)?;
        self.let_go(place)?;
        self.count(place)
    }

    /// Makes the room of the beat. Its source has a probation.
    fn begin<'b, 'a>(
        &mut self,
        place: &Place<'b, 'a, H, R>,
        talkers: &mut Talkers<'b, 'a, H, R>,
    ) -> Result<(), Difference> {
        let line = beat_line(place.alloc, self.lanes)?;
        let model = &mut self.model;
        talkers.act(place, model, 0, Act::Connect(0))?;
        talkers.act(place, model, 0, Act::Say(0, line.as_str()))?;
        talkers.finish(place, &mut self.model)?;
        for _ in 0..6u32 {
            self.round(place, STEP, LOOK)?;
        }
        self.let_go(place)
    }

    /// Does what a line asks for.
    fn act<'b, 'a>(
        &mut self,
        place: &Place<'b, 'a, H, R>,
        talkers: &mut Talkers<'b, 'a, H, R>,
        act: Act<'_>,
    ) -> Result<(), Difference> {
        match act {
            Act::Nothing => Ok(()),
            Act::Connect(who)
            | Act::Say(who, _)
            | Act::Turn(who, _)
            | Act::Hang(who)
            | Act::Fail(who) => talkers.act(place, &mut self.model, who, act),
            Act::Datagram(from, digits) => match hex::decode(place.alloc, digits) {
                Ok(octets) => self.come(Some(Datagram::new(from, octets))),
                Err(_) => Err(Difference::Line),
            },
            Act::Other => self.come(None),
            Act::Begin(step, look) => self.begin_round(place.alloc, step, look),
            Act::Round(step, look) => self.round(place, step, look),
            Act::Go(lane, stops, left) => self.go(place, lane, stops, left),
        }
    }

    /// A datagram waits, or something else.
    fn come(&mut self, datagram: Option<Datagram>) -> Result<(), Difference> {
        self.rounds.state.inlet.queue.waiting.push_back(datagram)?;
        Ok(())
    }

    /// Begins a round of the front, unless one has begun. The beat comes first in it.
    fn begin_round(&mut self, alloc: Global, step: u64, look: i64) -> Result<(), Difference> {
        self.rounds.state.watch.pass(step, look);
        if self.begun.is_some() {
            return Ok(());
        }
        self.beats = self.beats.wrapping_add(1);
        let beat = beat_frame(alloc, self.beats)?;
        self.rounds
            .state
            .inlet
            .queue
            .waiting
            .push_front(Some(beat))?;
        self.begun = Some(self.rounds.begin_round()?);
        Ok(())
    }

    /// Ends a round of the front, which may have begun before.
    fn round<'b, 'a>(
        &mut self,
        place: &Place<'b, 'a, H, R>,
        step: u64,
        look: i64,
    ) -> Result<(), Difference> {
        self.begin_round(place.alloc, step, look)?;
        let Some(begun) = self.begun.take() else {
            return Err(Difference::Front);
        };
        let notice = place.operators.latest(place.rt);
        self.rounds.end_round(place.rt, begun, notice)?;
        self.compare(place)
    }

    /// Compares what the front did in a round.
    fn compare<'b, 'a>(&mut self, place: &Place<'b, 'a, H, R>) -> Result<(), Difference> {
        let came = self.rounds.state.inlet.queue.take_read(place.alloc);
        let told = self.rounds.state.watch.take_told(place.alloc);
        let tried = self.rounds.state.wire.take_tried();
        self.model.round(&came, &told)?;
        self.tally.rounds = self.tally.rounds.saturating_add(1);
        self.tally.packets = self.tally.packets.saturating_add(tried.len() as u64);
        if place.operators.has_seat(place.rt) != (self.model.seats > 0) {
            Err(Difference::Seat)
        } else if are_same(&tried, &self.model.take_tried()) {
            Ok(())
        } else {
            Err(Difference::Front)
        }
    }

    /// Has a round of a front whose desk has ended: what waits is read, and nothing is tried.
    pub fn round_after(&mut self, rt: &R, alloc: Global, notice: Notice) -> Result<(), Difference>
        requires { notice.publisher ≡ H.publisher }
    {
        self.come(Some(beat_frame(alloc, self.beats)?))?;
        self.come(None)?;
        self.rounds.state.watch.pass(STEP, LOOK);
        let begun = self.rounds.begin_round()?;
        self.rounds.end_round(rt, begun, notice)?;
        let tried = self.rounds.state.wire.take_tried();
        let came = self.rounds.state.inlet.queue.take_read(alloc);
        let told = self.rounds.state.watch.take_told(alloc);
        self.model.pass(&came, &told)?;
        if tried.is_empty() && !came.is_empty() {
            Ok(())
        } else {
            Err(Difference::Front)
        }
    }

    /// Lets each lane send all.
    fn let_go<'b, 'a>(&mut self, place: &Place<'b, 'a, H, R>) -> Result<(), Difference> {
        for lane in 0..self.gates.len() {
            self.go(place, lane, MOST_STOPS, 0)?;
        }
        Ok(())
    }

    /// Lets a lane handle so many items that give datagrams, and stop before the last ones of the last of them.
    fn go<'b, 'a>(
        &mut self,
        place: &Place<'b, 'a, H, R>,
        lane: usize,
        stops: u64,
        left: u64,
    ) -> Result<(), Difference> {
        let mut given = 0;
        for _ in 0..stops.min(MOST_STOPS) {
            match self.model.advance(lane)? {
                0 => break,
                some => given = some,
            }
        }
        match left.checked_rem(given) {
            Some(left) => self.reach(place, lane, left),
            None => Ok(()),
        }
    }

    /// Lets a lane go on until it has tried all datagrams of the model's lane but so many, and compares them.
    fn reach<'b, 'a>(
        &mut self,
        place: &Place<'b, 'a, H, R>,
        lane: usize,
        left: u64,
    ) -> Result<(), Difference> {
        let (count, wanted) = self.model.sent(lane, left)?;
        let is_there = self.wait(place, lane, count);
        let Some(gate) = self.gates.get(lane) else {
            return Ok(());
        };
        let tried = gate.take_tried(place.rt, place.alloc);
        self.tally.packets = self.tally.packets.saturating_add(tried.len() as u64);
        if !is_there {
            Err(Difference::Stuck(lane))
        } else if !are_same(&tried, &wanted) {
            Err(Difference::Lane(lane))
        } else {
            Ok(())
        }
    }

    /// Waits until a lane has tried so many datagrams. Returns whether it does.
    fn wait<'b, 'a>(&self, place: &Place<'b, 'a, H, R>, lane: usize, count: u64) -> bool {
        let Some(gate) = self.gates.get(lane) else {
            return false;
        };
        for _ in 0..MOST_WAITS {
            if gate.reach(place.rt, count) {
                return true;
            }
            if self.rounds.state.media.has_ended() {
                return false;
            }
        }
        false
    }

    /// Compares how often the front was woken, and how many parcels were dropped.
    fn count<'b, 'a>(&mut self, place: &Place<'b, 'a, H, R>) -> Result<(), Difference> {
        if !place.front.are_those(&self.model) {
            return Err(Difference::Wakes);
        }
        self.tally.dropped = dropped_in(&self.rounds.state.media, &self.model.lanes)?;
        Ok(())
    }
}

/// How many parcels were dropped for lanes, if as many were for each lane of the model.
fn dropped_in<H: DeskBrand, R: Wait + Clock + Drop>(
    media: &ScriptMedia<H, R>,
    lanes: &[LaneModel],
) -> Result<u64, Difference> {
    let mut all: u64 = 0;
    for lane in 0..media.lanes() {
        let dropped = media.dropped(lane);
        let own = lanes.get(lane as usize);
        if own.map(|own| own.dropped) != Some(dropped) {
            return Err(Difference::Counts(lane as usize));
        }
        all = all.saturating_add(dropped);
    }
    Ok(all)
}
