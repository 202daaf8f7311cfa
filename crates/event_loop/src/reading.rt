//! What a round reads.

ghost use Rattle.std.specs.Prelude.{◌≡◌, ◌∷◌, [], ℕ, List, IfOk, OnOk};
ghost use Rattle.event_loop.specs.Turns.{Turn, HaveDone};
ghost use Rattle.event_loop.specs.Shapes.{IsTaken, IsPassed, AreAllRead};
ghost use Rattle.event_loop.specs.inner.Reading.{IsReadOnce};

use crate::inlet::Inlet;
use crate::rounds::Rounds;
use crate::state::ReadTurn;
use crate::watch::Watch;
use desk_rows::Rows;
use media_workers::{Pace, PublisherName, Sink};
use udp_wire::{FrontFault, Wire};

/// How many datagrams are taken in under one entry into the published desk, so that neither a tick nor an operator's
/// call waits long for them.
const DATAGRAMS: u32 = 64;

impl<N: PublisherName, P: Pace, S: Sink, I: Inlet, W: Wire, C: Watch> Rounds<N, P, S, I, W, C> {
    /// Takes in the datagrams that wait.
    pub(crate) fn take_datagrams(&mut self, rows: &Rows) -> Result<(), FrontFault>
        ensures { (turns : List Turn) × HaveDone turns self.old.state self.new.state
            × OnOk result (AreAllRead (IsTaken rows.now) turns) }
    {
        for _ in 0..DATAGRAMS {
            let has_more = self.take_datagram(rows)?;
            if !has_more {
                return Ok(());
            }
        }
        Ok(())
    }

    /// Takes in the next datagram, and counts it by its outcome. If it ends the probation of a video source, its sender
    /// is asked for a picture. Returns whether one waited, or something else.
    fn take_datagram(&mut self, rows: &Rows) -> Result<bool, FrontFault>
        ensures { (turns : List Turn) × HaveDone turns self.old.state self.new.state
            × IfOk result (λ more. IsReadOnce (IsTaken rows.now) more turns) }
    {
        match self.state.take_next(self.alloc, rows, &mut self.chunk)? {
            ReadTurn::Nothing => Ok(false),
            ReadTurn::Other => Ok(true),
            ReadTurn::Datagram {
                received,
                ended,
                octets,
            } => {
                let octets = &self.chunk[..octets];
                self.trace.tell_datagram(self.alloc, &received, octets);
                self.ask_first(&received.from, ended, received.moment)?;
                Ok(true)
            }
        }
    }

    /// Drops the datagrams that wait.
    pub(crate) fn drop_datagrams(&mut self) -> Result<(), FrontFault>
        ensures { (turns : List Turn) × HaveDone turns self.old.state self.new.state
            × OnOk result (AreAllRead IsPassed turns) }
    {
        for _ in 0..DATAGRAMS {
            let has_more = self.drop_datagram()?;
            if !has_more {
                return Ok(());
            }
        }
        Ok(())
    }

    /// Drops the next datagram. Returns whether one waited, or something else.
    fn drop_datagram(&mut self) -> Result<bool, FrontFault>
        ensures { (turns : List Turn) × HaveDone turns self.old.state self.new.state
            × IfOk result (λ more. IsReadOnce IsPassed more turns) }
    {
        let read = self.state.drop_next(&mut self.chunk)?;
        Ok(read.is_something())
    }
}
