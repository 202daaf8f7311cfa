//! An operator's connection, round by round.

ghost use Rattle.std.specs.Prelude.{◌≡◌, ◌∷◌, [], ℕ, List, Option, IfOk};
ghost use Rattle.operator_connection.specs.Connection.{is_heard, is_owed, is_seat_over, HasWaited, HasLooked, IsNew};
ghost use Rattle.operator_connection.specs.Deeds.{SeatedDeed, AreDeeds, AreSeatedDeeds, greets, writes, HasWritten};
ghost use Rattle.operator_connection.specs.Deeds.{RefusesSeat, Beginning, deeds_begun, moment_of, round_alone, refused};
ghost use Rattle.operator_connection.specs.Talks.{IsTurn};

use crate::line::CallerLine;
use crate::readiness::Readiness;
use crate::talking::{LinkState, Talk};
use operator_lines::{Fed, LineDesk};
use std::alloc::Global;
use std::io;
use std::marker::Model;
use std::sync::atomic::{AtomicBool, Ordering};

/// How many octets are read at a time.
const CHUNK: usize = 9_000;

/// How a round of a connection without a seat ended.
#[derive(Clone, Copy, Debug, PartialEq, Eq)]
pub enum Heed {
    /// It waits for its first good line.
    Waits,
    /// Its first good line has come, and wants a seat.
    Good,
    /// It is to be closed.
    Over,
}

/// An operator's connection. Contracts see what was done on it, and what was said, as a `Connection`; and the last
/// moment that its clock told, and what was read last.
#[derive(Drop)]
pub struct Caller<L: CallerLine + Drop> {
    pub(crate) line: L,
    pub(crate) talk: Talk,
    pub(crate) ready: Readiness,
    /// The last moment that its clock told.
    looked: u64,
    /// What waits for a seat.
    pub(crate) heard: Option<Fed>,
    /// What was read last.
    pub(crate) chunk: Vec<u8>,
    /// The answer to the last line.
    pub(crate) text: Vec<u8>,
}

impl<L: CallerLine + Drop> Model for Caller<L> {
    ghost use Rattle.operator_connection.specs.Connection.{CallerOf, connection};

    ghost Value = { CallerOf };

    ghost view = { λ c. record {
      looked = c.looked;
      connection = connection (L.acts c.line) c.talk c.ready c.heard;
      chunk = c.chunk.items;
    } };
}

impl<L: CallerLine + Drop> Caller<L> {
    /// A connection on which nothing was said. An `Err` is the system's or out of memory, and closes the connection.
    pub fn new(alloc: Global, mut line: L) -> io::Result<Self>
        ensures { IfOk result (λ caller. IsNew (L.acts line) caller) }
    {
        let mut chunk = Vec::new(alloc);
        chunk.resize(CHUNK, 0)?;
        let start = line.now()?;
        Ok(Self {
            line,
            talk: Talk::new(alloc, start),
            ready: Readiness::untried(),
            looked: start,
            heard: None,
            chunk,
            text: Vec::new(alloc),
        })
    }

    /// What the system gives it.
    pub fn line(&self) -> &L
        ensures { L.acts result.now ≡ self.now.connection.acts }
    {
        &self.line
    }

    /// Whether the bridge is to be stopped, by its operator or another.
    pub fn is_stopping(&self) -> bool {
        self.talk.standing == LinkState::Stopping
    }

    /// Whether a connection with a seat is to be closed, at the last moment that its clock told.
    pub fn is_over(&self) -> bool
        ensures { result ≡ is_seat_over self.now }
    {
        self.talk.is_over(true, self.looked)
    }

    /// Whether its stream is read.
    pub(crate) fn is_heard(&self) -> bool
        ensures { result ≡ is_heard self.now.connection }
    {
        self.talk.is_open() && self.heard.is_none()
    }

    /// Whether something waits to be written.
    fn is_owed(&self) -> bool
        ensures { result ≡ is_owed self.now.connection }
    {
        !self.talk.outgoing.is_empty()
    }

    /// The present moment. Where the clock fails, the connection is lost.
    fn moment(&mut self) -> Option<u64>
        ensures { HasLooked result self.old.connection self.new.connection }
    {
        match self.line.now() {
            Ok(now) => {
                self.looked = now;
                Some(now)
            }
            Err(_) => {
                self.talk.standing = LinkState::Lost;
                None
            }
        }
    }

    /// Waits until the system reports more, 50 ms at most. Returns whether it did. Where it fails, the connection is
    /// lost.
    fn wait(&mut self) -> Option<bool>
        ensures { HasWaited result self.old.connection self.new.connection }
    {
        let longest = self.ready.longest_wait(self.is_heard(), self.is_owed());
        match self.line.wait(longest) {
            Ok(any) => {
                self.ready.note_events(any);
                Some(any)
            }
            Err(_) => {
                self.talk.standing = LinkState::Lost;
                None
            }
        }
    }

    /// Begins a round: waits, looks at the clock, and notes whether the bridge is stopped. Returns the moment. Where
    /// the system fails, the connection is lost.
    fn begin(&mut self, stopped: &AtomicBool) -> Option<u64>
        ensures { (beginning : Beginning) × (result ≡ moment_of beginning)
            × AreDeeds (deeds_begun beginning) self.old.connection self.new.connection }
    {
        self.wait()?;
        let now = self.moment()?;
        if stopped.load(Ordering::SeqCst) {
            self.talk.note_stop(now);
        }
        Some(now)
    }

    /// Writes what the socket takes at once, a piece at most.
    fn write(&mut self, now: u64)
        ensures { HasWritten now self.old.connection self.new.connection }
    {
        if !(self.ready.writable && self.is_owed()) {
            return;
        }
        let came = self.line.write(self.talk.outgoing.next());
        self.ready.note_write(came);
        self.talk.note_write(came, now);
    }

    /// Tells an open connection that no seat is free for its first good line, and ends it.
    fn refuse_at(&mut self, now: u64)
        ensures { RefusesSeat now self.old.connection self.new.connection }
    {
        self.heard = None;
        if self.talk.is_open() {
            // An `Err` has lost the connection.
            let _ = self.talk.refuse_seat(now);
        }
    }

    /// Tells the connection that no seat is free for its first good line, and ends it.
    pub fn refuse_seat(&mut self)
        ensures { (moment : Option ℕ) × AreDeeds (refused moment) self.old.connection self.new.connection }
    {
        if let Some(now) = self.moment() {
            self.refuse_at(now);
        }
    }

    /// One round with a seat: answers what was heard before the connection had one; or else waits 50 ms at most, reads
    /// a piece, answers its lines, tells the news of a watch, and writes a piece.
    pub fn round<D: LineDesk>(&mut self, alloc: Global, desk: &mut D, stopped: &AtomicBool)
        ensures { (deeds : List SeatedDeed) × IsTurn self.old.connection.heeded deeds
            × AreSeatedDeeds D.replies D.shows deeds (desk.old, self.old.connection) (desk.new, self.new.connection) }
    {
        if self.heard.is_some() {
            if let Some(now) = self.moment() {
                self.answer_at(alloc, desk, now, stopped);
            }
        } else if let Some(now) = self.begin(stopped) {
            self.read(alloc, desk, now, stopped);
            self.tell_news(alloc, desk, now);
            self.write(now);
        }
    }

    /// One round without a seat: the same, but only the first line is dealt with. A faulty one is answered, and ends
    /// the connection. Nothing is told.
    pub fn round_without_seat(&mut self, alloc: Global, stopped: &AtomicBool) -> Heed
        ensures { (beginning : Beginning) × AreDeeds (round_alone beginning) self.old.connection self.new.connection }
    {
        match self.begin(stopped) {
            Some(now) => self.greet_at(alloc, now, stopped),
            None => Heed::Over,
        }
    }

    /// What such a round does at its moment.
    fn greet_at(&mut self, alloc: Global, now: u64, stopped: &AtomicBool) -> Heed
        ensures { AreDeeds (greets now ∷ writes now ∷ []) self.old.connection self.new.connection }
    {
        self.read_without_seat(alloc, now, stopped);
        self.write(now);
        if self.talk.is_over(false, now) {
            Heed::Over
        } else if self.heard.is_some() {
            Heed::Good
        } else {
            Heed::Waits
        }
    }
}
