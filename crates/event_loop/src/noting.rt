//! What a front notes for its next round.

ghost use Rattle.std.specs.Prelude.{◌≡◌, IfOk, OnOk, OnErr};
ghost use Rattle.picture_requests.specs.Requests.{due as due_sources};
ghost use Rattle.event_loop.specs.Turns.{Does, entered_desk, saw_desk, wanted_picture, judged_wake};

use crate::inlet::Inlet;
use crate::state::FrontState;
use crate::watch::Watch;
use desk_rows::Rows;
use media_workers::{Pace, PublisherName, Sink};
use picture_requests::VideoSource;
use std::alloc::Global;
use udp_wire::{FrontFault, Wire};

impl<N: PublisherName, P: Pace, S: Sink, I: Inlet, W: Wire, C: Watch> FrontState<N, P, S, I, W, C> {
    /// Notes whether the desk has members.
    pub(crate) fn enter(&mut self, rows: &Rows)
        ensures { Does self.old (entered_desk rows.now) self.new }
    {
        self.kept.enter(rows);
    }

    /// Sees the rows of this version, if it is not the one that was seen last, for the pictures that slots need then.
    /// Returns whether it is another version.
    pub(crate) fn see_desk(
        &mut self,
        alloc: Global,
        version: u64,
        rows: &Rows,
        now: u64,
    ) -> Result<bool, FrontFault>
        ensures ok { IfOk result (λ later. Does self.old (saw_desk later version rows.now now) self.new) }
        ensures err { OnErr result (self.new ≡ self.old) }
    {
        let later = self.kept.see(alloc, version, rows, now)?;
        Ok(later)
    }

    /// Lets a source wait to be asked for a picture.
    pub(crate) fn want_picture(
        &mut self,
        alloc: Global,
        source: &VideoSource,
        now: u64,
    ) -> Result<(), FrontFault>
        ensures ok { OnOk result (Does self.old (wanted_picture source.now now) self.new) }
        ensures err { OnErr result (self.new ≡ self.old) }
    {
        self.kept.want(alloc, source, now)?;
        Ok(())
    }

    /// The sources whose senders may be asked for pictures at this moment.
    pub(crate) fn due_pictures(
        &self,
        alloc: Global,
        now: u64,
    ) -> Result<Vec<VideoSource>, FrontFault>
        ensures { IfOk result (λ due. due.items ≡ due_sources now self.now.kept.pictures) }
    {
        let due = self.kept.pictures.due(alloc, now)?;
        Ok(due)
    }

    /// Whether the lanes are woken in this round. If so, it notes the moment.
    pub(crate) fn judge(&mut self, now: u64) -> bool
        ensures { Does self.old (judged_wake now result) self.new }
    {
        self.kept.judge(now)
    }
}
