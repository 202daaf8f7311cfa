//! What a front keeps from round to round.

ghost use Rattle.std.specs.Prelude.{◌≡◌, nat_eq, not, IfOk, OnOk, OnErr};
ghost use Rattle.event_loop.specs.Kept.{fresh_kept, asked_origin, after_desk, after_wanted, after_picture, after_entry};
ghost use Rattle.event_loop.specs.Kept.{is_wake_due, after_judging};

use crate::wakes::Wakes;
use desk_rows::Rows;
use picture_requests::{PictureRequests, VideoSource};
use std::alloc::{AllocError, Global};

/// What a front keeps from round to round: whom it is to ask for pictures, and when it wakes its lanes.
#[derive(Drop)]
pub struct FrontKept {
    /// The version of the desk that `pictures` has seen.
    pub version: u64,
    /// The senders that are to be asked for a picture.
    pub pictures: PictureRequests,
    /// Whether the desk had members in the last round.
    pub has_members: bool,
    /// When the lanes are woken.
    pub wakes: Wakes,
}

impl FrontKept {
    /// What a front keeps that has had no round, from this moment on, in nanoseconds since 1970. It takes no memory.
    pub fn begin(alloc: Global, now: u64) -> Self
        ensures { result ≡ fresh_kept now }
    {
        Self {
            version: 0,
            pictures: PictureRequests::new(alloc),
            has_members: false,
            wakes: Wakes::begin(now),
        }
    }

    /// Sees the rows of this version, if it is not the one that was seen last: the senders of the sources that slots
    /// were given since then are to be asked for a picture. Returns whether it is another version.
    pub(crate) fn see(
        &mut self,
        alloc: Global,
        version: u64,
        rows: &Rows,
        now: u64,
    ) -> Result<bool, AllocError>
        ensures right { IfOk result (λ later. later ≡ not (nat_eq version self.old.version)) }
        ensures after { IfOk result (λ later. self.new ≡ after_desk later version rows.now now self.old) }
        ensures err { OnErr result (self.new ≡ self.old) }
    {
        if version == self.version {
            return Ok(false);
        }
        self.pictures.see(alloc, rows, now)?;
        self.version = version;
        Ok(true)
    }

    /// Lets a source wait to be asked for a picture.
    pub(crate) fn want(
        &mut self,
        alloc: Global,
        source: &VideoSource,
        now: u64,
    ) -> Result<(), AllocError>
        ensures after { OnOk result (self.new ≡ after_wanted source.now now self.old) }
        ensures err { OnErr result (self.new ≡ self.old) }
    {
        self.pictures.want(alloc, source, now)
    }

    /// Notes that a source was asked for a picture at this moment, if it was.
    pub(crate) fn note_picture(&mut self, source: &VideoSource, now: u64, sent: bool)
        ensures { self.new ≡ after_picture (asked_origin source.now) now sent self.old }
    {
        if sent {
            self.pictures.asked(source, now);
        }
    }

    /// Notes whether the desk has members.
    pub(crate) fn enter(&mut self, rows: &Rows)
        ensures { self.new ≡ after_entry rows.now self.old }
    {
        self.has_members = !rows.members().is_empty();
    }

    /// Whether the lanes are woken in this round. If so, it notes the moment.
    pub(crate) fn judge(&mut self, now: u64) -> bool
        ensures due { result ≡ is_wake_due now self.old.has_members self.old.wakes }
        ensures after { self.new ≡ after_judging now self.old }
    {
        let has_members = self.has_members;
        self.wakes.is_due(now, has_members)
    }
}
