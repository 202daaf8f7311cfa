//! Rounds of a front, one after another.

ghost use Rattle.std.specs.Prelude.{◌≡◌, Some, None, Err, OnErr};
ghost use Rattle.udp_wire.specs.declared.ending.FrontFault.TheVariants.{Internal};
ghost use Rattle.std.specs.Result.{MatchResult};
ghost use Rattle.media_front.specs.FedLanes.{lanes_in};
ghost use Rattle.event_loop.specs.Runs.{FrontAt, front_at, HasRun, Whole, Begun, Failed};

use crate::inlet::Inlet;
use crate::rounds::Rounds;
use crate::watch::Watch;
use media_workers::{Pace, PublisherName, Sink};
use published_desk::{LaneReader, Notice};
use std::sync::Wait;
use udp_wire::{FrontFault, Wire};

/// A round that has begun: the front has waited. End it by [`Rounds::end_round`].
///
/// It holds the front's reader of the published desk. So no other round begins before this one has ended well.
// A round is two calls, and connections are let in between them: their threads have to be started in the scope's own
// closure.
#[derive(Drop)]
pub struct BegunRound {
    /// Whether connections may wait.
    pub may_wait: bool,
    /// The moment at which ticks were given last, in nanoseconds since 1970.
    pub now: u64,
    /// The front's reader.
    pub reader: LaneReader,
}

impl<N: PublisherName, P: Pace, S: Sink, I: Inlet, W: Wire, C: Watch> Rounds<N, P, S, I, W, C> {
    /// Begins a round: waits until something has come, or a tick is due. A lane that has ended is a fault.
    ///
    /// If a round has begun already, or has had a fault, it does nothing and answers `Internal`.
    pub fn begin_round(&mut self) -> Result<BegunRound, FrontFault>
        ensures run { (start : FrontAt P S) → HasRun Whole start (front_at self.old.state self.old.reader)
            → MatchResult result (λ begun. HasRun Begun start (front_at self.new.state (Some begun.reader)))
            (λ fault. HasRun Failed start (front_at self.new.state self.new.reader)) }
        ensures out { self.new.reader ≡ None }
        ensures none { self.old.reader ≡ None → self.new.state ≡ self.old.state }
        ensures fault { self.old.reader ≡ None → result ≡ Err Internal }
        ensures lanes { lanes_in self.new.state.front.feed ≡ lanes_in self.old.state.front.feed }
        ensures asker { self.new.state.front.ingress.asker ≡ self.old.state.front.ingress.asker }
    {
        let Some(reader) = self.reader.take() else {
            return Err(FrontFault::Internal);
        };
        let may_wait = self.state.wait()?;
        let now = self.state.ticked;
        Ok(BegunRound {
            may_wait,
            now,
            reader,
        })
    }

    /// Ends a round: takes in what has come and what is due by one entry into the published desk, and wakes the lanes.
    /// After a fault no round begins any more.
    pub fn end_round<R: Wait>(
        &mut self,
        rt: &R,
        begun: BegunRound,
        notice: Notice,
    ) -> Result<(), FrontFault>
        requires publisher { notice.publisher ≡ N.publisher }
        ensures run { (start : FrontAt P S) → HasRun Begun start (front_at self.old.state (Some begun.reader))
            → MatchResult result (λ done. HasRun Whole start (front_at self.new.state self.new.reader))
            (λ fault. HasRun Failed start (front_at self.new.state self.new.reader)) }
        ensures over { OnErr result (self.new.reader ≡ None) }
        ensures lanes { lanes_in self.new.state.front.feed ≡ lanes_in self.old.state.front.feed }
        ensures asker { self.new.state.front.ingress.asker ≡ self.old.state.front.ingress.asker }
    {
        let BegunRound {
            may_wait: _,
            now: _,
            reader,
        } = begun;
        let (reader, done) = self.round(rt, reader, notice);
        match done {
            Ok(()) => {
                self.reader = Some(reader);
                Ok(())
            }
            Err(fault) => {
                self.reader = None;
                Err(fault)
            }
        }
    }
}
