//! The sources that wait to be asked for a picture.

ghost use Rattle.std.specs.Prelude.{◌≡◌, ◌≤◌, ◌+◌, true, IfOk, OnOk, OnErr, vec_len};
ghost use Rattle.picture_requests.specs.Sources.{is_among, without_source};
ghost use Rattle.picture_requests.specs.Requests.{no_requests, due};
ghost use Rattle.picture_requests.specs.Steps.{after_step, see, want, ask};

use crate::changing::waiting_after;
use crate::choosing::{SlotChoice, choices_of};
use crate::sending::{SentRequest, may_be_asked, recent_and};
use crate::source::{VideoSource, is_among};
use desk_rows::Rows;
use std::alloc::{AllocError, Allocator, Global};
use std::marker::Model;

/// Takes a source out of these.
fn take_out<A: Allocator>(sources: &mut Vec<VideoSource, A>, source: &VideoSource)
    requires { is_among sources.old.items source.now ≡ true }
    ensures items { sources.new.items ≡ without_source source.now sources.old.items }
    ensures len { vec_len sources.new + 1 ≤ vec_len sources.old }
{
    sources.retain(|other| *other != *source);
}

/// The sources that wait to be asked for a picture, and when sources were asked lately.
///
/// A source waits since a slot's choice changed to it, or since [`want`](Self::want). It waits until it is asked, or
/// until a desk is seen in which no slot chooses it. Two requests to a source are at least half a second apart.
///
/// Moments are nanoseconds since 1970. If they go back by half a second or more, a source may be asked again at once.
#[derive(Drop)]
pub struct PictureRequests<A: Allocator + Copy = Global> {
    choices: Vec<SlotChoice, A>,
    waiting: Vec<VideoSource, A>,
    sent: Vec<SentRequest, A>,
}

impl<A: Allocator + Copy> Model for PictureRequests<A> {
    ghost use Rattle.std.specs.Prelude.{◌≤◌, ◌+◌, vec_capacity, vec_len};
    ghost use Rattle.picture_requests.specs.Requests.{RequestsOf};

    ghost Value = { RequestsOf };

    ghost view = { λ r. record { choices = r.choices.items; waiting = r.waiting.items; sent = r.sent.items } };

    ghost invariant = { λ r. vec_len r.sent + vec_len r.waiting ≤ vec_capacity r.sent };
}

impl<A: Allocator + Copy> PictureRequests<A> {
    /// No slot has a source yet, and nothing waits. It takes no memory.
    pub fn new(alloc: A) -> Self
        ensures { result ≡ no_requests }
    {
        Self {
            choices: Vec::new(alloc),
            waiting: Vec::new(alloc),
            sent: Vec::new(alloc),
        }
    }

    /// Sees the rows of a later version of the desk, at this moment. Each source to which a slot's choice changed since
    /// the rows that were seen before waits to be asked. A source that no slot chooses no longer waits.
    ///
    /// A slot that had no source, and has one now, changed to it. At first no slot had one. The call takes memory for
    /// all choices, for what waits and for what was asked lately. On out of memory, the only error, nothing changes.
    pub fn see(&mut self, alloc: A, rows: &Rows<A>, moment: u64) -> Result<(), AllocError>
        ensures after { OnOk result (self.new ≡ after_step (see rows.now moment) self.old) }
        ensures err { OnErr result (self.new ≡ self.old) }
    {
        let choices = choices_of(alloc, rows)?;
        let waiting = waiting_after(alloc, &self.choices, &choices, &self.waiting)?;
        let sent = recent_and(alloc, moment, &self.sent, waiting.len())?;
        *self = Self {
            choices,
            waiting,
            sent,
        };
        Ok(())
    }

    /// Lets a source wait to be asked for another reason than a slot's choice. If it waits already, nothing changes.
    ///
    /// If no slot chooses it, the next [`see`](Self::see) drops it. On out of memory, the only error, nothing changes.
    pub fn want(&mut self, alloc: A, source: &VideoSource, moment: u64) -> Result<(), AllocError>
        ensures after { OnOk result (self.new ≡ after_step (want source.now moment) self.old) }
        ensures err { OnErr result (self.new ≡ self.old) }
    {
        if is_among(&self.waiting, source) {
            return Ok(());
        }
        let sent = recent_and(alloc, moment, &self.sent, self.waiting.len() + 1)?;
        self.waiting.push(*source)?;
        self.sent = sent;
        Ok(())
    }

    /// The sources that wait and may be asked at this moment, the one that waits longest first: those that were not
    /// asked less than half a second ago. If nothing waits, it takes no memory. The only error is out of memory.
    pub fn due(&self, alloc: A, moment: u64) -> Result<Vec<VideoSource, A>, AllocError>
        ensures { IfOk result (λ v. v.items ≡ due moment self.now) }
    {
        if self.waiting.is_empty() {
            return Ok(Vec::new(alloc));
        }
        may_be_asked(alloc, moment, &self.sent, &self.waiting)
    }

    /// Notes that a source was asked at this moment: it no longer waits. A source that doesn't wait changes nothing. It
    /// takes no memory.
    pub fn asked(&mut self, source: &VideoSource, moment: u64)
        ensures { self.new ≡ after_step (ask source.now moment) self.old }
    {
        if !is_among(&self.waiting, source) {
            return;
        }
        take_out(&mut self.waiting, source);
        self.sent.push_reserved(SentRequest {
            source: *source,
            moment,
        });
    }
}
