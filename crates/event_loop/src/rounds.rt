//! The rounds of a front: what it does each time that it is woken.

ghost use Rattle.std.specs.Prelude.{◌≡◌, ◌∷◌, [], ℕ, Bool, List, Some, OnOk};
ghost use Rattle.event_loop.specs.Turns.{Turn, HaveDone, looked, gave_ticks, let_wait, made_report, judged_wake};
ghost use Rattle.event_loop.specs.Shapes.{IsDue, IsTaking, IsPassing, IsTakenIn, IsRound, waits, signals};

use crate::inlet::Inlet;
use crate::state::FrontState;
use crate::trace::FrontTrace;
use crate::watch::Watch;
use desk_rows::Rows;
use media_workers::{Pace, PublisherName, Sink};
use published_desk::{LaneReader, Notice};
use std::alloc::Global;
use std::sync::Wait;
use udp_wire::{FrontFault, Wire};

/// The rounds of a front: the front, and its own reader of the published desk.
pub struct Rounds<N: PublisherName, P: Pace, S: Sink, I: Inlet, W: Wire, C: Watch> {
    pub(crate) alloc: Global,
    /// The front, with what it did.
    pub state: FrontState<N, P, S, I, W, C>,
    /// It is out while a round is under way, and after a fault.
    pub reader: Option<LaneReader>,
    /// What was read last.
    pub(crate) chunk: Vec<u8>,
    /// Where it tells what it does, if it is traced.
    pub(crate) trace: FrontTrace,
}

impl<N: PublisherName, P: Pace, S: Sink, I: Inlet, W: Wire, C: Watch> Rounds<N, P, S, I, W, C> {
    /// The rounds of a front that has had none. It reads into the chunk.
    pub fn new(
        alloc: Global,
        state: FrontState<N, P, S, I, W, C>,
        reader: Option<LaneReader>,
        chunk: Vec<u8>,
        trace: FrontTrace,
    ) -> Self
        ensures state { result.state ≡ state }
        ensures reader { result.reader ≡ reader }
    {
        Self {
            alloc,
            state,
            reader,
            chunk,
            trace,
        }
    }

    /// The front, once its rounds are over.
    pub fn into_state(self) -> FrontState<N, P, S, I, W, C>
        ensures { result ≡ self.state }
    {
        let Rounds {
            alloc: _,
            state,
            reader: _,
            chunk: _,
            trace: _,
        } = self;
        state
    }

    /// Takes in what has come and what is due by one entry into the published desk, and wakes the lanes. Gives the
    /// reader back.
    pub(crate) fn round<R: Wait>(
        &mut self,
        rt: &R,
        reader: LaneReader,
        notice: Notice,
    ) -> (LaneReader, Result<(), FrontFault>)
        requires { notice.publisher ≡ N.publisher }
        ensures { (turns : List Turn) × HaveDone turns self.old.state self.new.state
            × OnOk result.1 (IsRound notice (Some reader) (Some result.0) turns) }
    {
        self.state.owe(notice);
        let (reader, taken) = self.take_by_entry(reader);
        let woken = self.wake(rt);
        match taken {
            Ok(()) => (reader, woken),
            Err(fault) => (reader, Err(fault)),
        }
    }

    /// Takes in what has come and what is due by one entry into the published desk. Gives the reader back.
    fn take_by_entry(&mut self, reader: LaneReader) -> (LaneReader, Result<(), FrontFault>)
        ensures { (turns : List Turn) × HaveDone turns self.old.state self.new.state
            × OnOk result.1 (IsTakenIn (Some reader) (Some result.0) turns) }
    {
        match reader.enter() {
            Ok(entered) => {
                let done = self.take_waiting(entered.version(), entered.rows());
                (entered.leave(), done)
            }
            Err(reader) => (reader, self.pass()),
        }
    }

    /// Drops the datagrams that wait, and gives the ticks that are due: without rows no sender is known, and the
    /// reports wait.
    fn pass(&mut self) -> Result<(), FrontFault>
        ensures { (turns : List Turn) × HaveDone turns self.old.state self.new.state
            × OnOk result (IsPassing turns) }
    {
        self.drop_datagrams()?;
        self.tick()
    }

    /// Takes in the datagrams that wait, and what is due.
    fn take_waiting(&mut self, version: u64, rows: &Rows) -> Result<(), FrontFault>
        ensures { (turns : List Turn) × HaveDone turns self.old.state self.new.state
            × OnOk result (IsTaking version rows.now turns) }
    {
        self.state.enter(rows);
        self.trace.set_version(version);
        self.take_datagrams(rows)?;
        let now = self.state.look()?;
        self.take_due(version, rows, now)
    }

    /// Gives the ticks that are due, and where a tick was due, time has passed for the video sources. Senders are asked
    /// for the pictures that slots were given, and the reports are made that are due.
    fn take_due(&mut self, version: u64, rows: &Rows, now: u64) -> Result<(), FrontFault>
        ensures { (turns : List Turn) × HaveDone turns self.old.state self.new.state
            × OnOk result (IsDue version rows.now now turns) }
    {
        self.beat(rows, now)?;
        self.want_pictures(version, rows, now)?;
        self.report(rows, now)
    }

    /// Gives the ticks that are due. Where one was due, time has passed for the video sources.
    fn beat(&mut self, rows: &Rows, now: u64) -> Result<(), FrontFault>
        ensures { (turns : List Turn) × HaveDone turns self.old.state self.new.state
            × OnOk result ((due : Bool) × (turns ≡ gave_ticks due now ∷ waits due rows.now now)) }
    {
        if self.state.tick(now) {
            return self.wait_all(rows, now);
        }
        Ok(())
    }

    /// Tells the receive side that time has passed for each video source.
    fn wait_all(&mut self, rows: &Rows, now: u64) -> Result<(), FrontFault>
        ensures { (turns : List Turn) × HaveDone turns self.old.state self.new.state
            × OnOk result (turns ≡ let_wait rows.now now ∷ []) }
    {
        let done = self.state.wait_all(self.alloc, rows, now);
        self.trace.tell_waits(done.is_ok(), rows, now);
        done
    }

    /// Makes the reports, if they are due.
    fn report(&mut self, rows: &Rows, now: u64) -> Result<(), FrontFault>
        ensures { (turns : List Turn) × HaveDone turns self.old.state self.new.state
            × OnOk result ((due : Bool) × (turns ≡ made_report due rows.now now ∷ [])) }
    {
        let due = self.state.report(self.alloc, rows, now)?;
        self.trace.tell_report(due, now);
        Ok(())
    }

    /// Wakes the lanes for what they were given, if they have to be woken in this round.
    fn wake<R: Wait>(&mut self, rt: &R) -> Result<(), FrontFault>
        ensures { (turns : List Turn) × HaveDone turns self.old.state self.new.state
            × OnOk result ((moment : ℕ) × (raised : Bool)
            × (turns ≡ looked moment ∷ judged_wake moment raised ∷ signals raised)) }
    {
        let now = self.state.look()?;
        if self.state.judge(now) {
            self.state.signal(rt);
        }
        Ok(())
    }

    /// Gives each lane the ticks that are due.
    fn tick(&mut self) -> Result<(), FrontFault>
        ensures { (turns : List Turn) × HaveDone turns self.old.state self.new.state
            × OnOk result ((moment : ℕ) × (due : Bool) × (turns ≡ looked moment ∷ gave_ticks due moment ∷ [])) }
    {
        let now = self.state.look()?;
        self.state.tick(now);
        Ok(())
    }
}
