//! Pictures for slots that were given another source, and of sources that are accepted for the first time.

ghost use Rattle.std.specs.Prelude.{◌≡◌, ◌∷◌, [], Bool, List, IfOk, OnOk};
ghost use Rattle.event_loop.specs.Kept.{asked_origin};
ghost use Rattle.event_loop.specs.Turns.{Turn, HaveDone, asked_picture};
ghost use Rattle.event_loop.specs.Shapes.{AreAsked, AsksDue, AsksFirst};

use crate::inlet::Inlet;
use crate::rounds::Rounds;
use crate::watch::Watch;
use desk_rows::Rows;
use media_workers::{Pace, PublisherName, Sink};
use picture_requests::VideoSource;
use rtp_codec::Address;
use udp_wire::{FrontFault, Wire};

impl<N: PublisherName, P: Pace, S: Sink, I: Inlet, W: Wire, C: Watch> Rounds<N, P, S, I, W, C> {
    /// Asks the senders that may be asked at this moment for pictures, at the rows of this version.
    pub(crate) fn want_pictures(
        &mut self,
        version: u64,
        rows: &Rows,
        now: u64,
    ) -> Result<(), FrontFault>
        ensures { (turns : List Turn) × HaveDone turns self.old.state self.new.state
            × OnOk result (AsksDue version rows.now now turns) }
    {
        self.state.see_desk(self.alloc, version, rows, now)?;
        self.ask_pictures(now)
    }

    /// Asks the senders that may be asked at this moment for pictures.
    fn ask_pictures(&mut self, now: u64) -> Result<(), FrontFault>
        ensures { (turns : List Turn) × HaveDone turns self.old.state self.new.state
            × OnOk result (AreAsked now turns) }
    {
        let due = self.state.due_pictures(self.alloc, now)?;
        for source in due.iter() {
            self.ask_picture(source, now)?;
        }
        Ok(())
    }

    /// Asks the sender at this address for a picture of the video source whose probation ended at this moment, if one
    /// did: the frame that the source was in is left out.
    ///
    /// If the address has too few tokens, the source waits to be asked.
    pub(crate) fn ask_first(
        &mut self,
        from: &Address,
        ended: Option<u32>,
        moment: u64,
    ) -> Result<(), FrontFault>
        ensures { (turns : List Turn) × HaveDone turns self.old.state self.new.state
            × OnOk result (AsksFirst from.now moment ended turns) }
    {
        match ended {
            None => Ok(()),
            Some(ssrc) => {
                let source = VideoSource::at(ssrc, from);
                self.state.want_picture(self.alloc, &source, moment)?;
                self.ask_picture(&source, moment)
            }
        }
    }

    /// Asks a sender for a picture. If its address had tokens for the request, the source was asked at this moment.
    fn ask_picture(&mut self, source: &VideoSource, now: u64) -> Result<(), FrontFault>
        ensures { (turns : List Turn) × HaveDone turns self.old.state self.new.state
            × OnOk result ((sent : Bool) × (turns ≡ asked_picture (asked_origin source.now) now sent ∷ [])) }
    {
        let sent = self.state.ask_picture(self.alloc, source, now)?;
        self.trace.tell_picture(sent, source);
        Ok(())
    }
}
