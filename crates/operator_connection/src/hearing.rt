//! What comes on an operator's connection, and how it is heard.

ghost use Rattle.std.specs.Prelude.{◌≡◌, ◌≤◌, ◌&&◌, length, take};
ghost use Rattle.operator_connection.specs.Acts.{octet_count};
ghost use Rattle.operator_connection.specs.Connection.{heeded_in, is_heard, HasRead};
ghost use Rattle.operator_connection.specs.Deeds.{GreetsOctets, HasGreeted};
ghost use Rattle.operator_connection.specs.Deeds.{HearsPiece, HasHeard, AnswersHeeded, HasAnswered, HasToldNews};

use crate::caller::Caller;
use crate::greeting::{Brought, Greeted};
use crate::line::CallerLine;
use crate::talking::{Came, LinkState};
use operator_lines::{Fed, LineDesk};
use std::alloc::Global;
use std::sync::atomic::AtomicBool;

impl<L: CallerLine + Drop> Caller<L> {
    /// Whether a piece is to be read: octets may have come, and they are heard.
    fn may_read(&self) -> bool
        ensures { result ≡ (self.now.connection.ready.readable && is_heard self.now.connection) }
    {
        self.ready.readable && self.is_heard()
    }

    /// Reads a piece, and notes what the read gave.
    fn read_piece(&mut self, now: u64) -> Came
        ensures read { HasRead result (take (octet_count result) self.new.chunk) now
            self.old.connection self.new.connection }
        ensures few { octet_count result ≤ length self.new.chunk }
    {
        let came = self.line.read(&mut self.chunk);
        self.ready.note_read(came);
        self.talk.note_read(came, now);
        came
    }

    /// Answers the lines that end in so many octets of what was read last.
    fn hear<D: LineDesk>(
        &mut self,
        alloc: Global,
        desk: &mut D,
        count: usize,
        now: u64,
        stopped: &AtomicBool,
    )
        requires stands { self.old.connection.standing ≡ LinkState.Open }
        requires few { count ≤ length self.old.chunk }
        ensures { HearsPiece (D.replies now) D.shows now (take count self.old.chunk) desk.old desk.new
            self.old.connection self.new.connection }
    {
        let octets = &self.chunk[..count];
        match self
            .talk
            .hear(alloc, desk, octets, &mut self.text, now, stopped)
        {
            Ok(true) => self.talk.note_stop(now),
            Ok(false) => {}
            // It has lost the connection.
            Err(_) => {}
        }
    }

    /// Reads a piece, if one may have come, and answers the lines that it ends.
    #[tactic(auto, using(crate::proofs::TalkLemmas::open_is))]
    pub(crate) fn read<D: LineDesk>(
        &mut self,
        alloc: Global,
        desk: &mut D,
        now: u64,
        stopped: &AtomicBool,
    )
        ensures { HasHeard (D.replies now) D.shows now desk.old desk.new
            self.old.connection self.new.connection }
    {
        if !self.may_read() {
            return;
        }
        let count = self.read_piece(now).count();
        if count > 0 {
            self.hear(alloc, desk, count, now, stopped);
        }
    }

    /// Deals with the first line that ends in so many octets of what was read last. A good one and those behind it wait
    /// for a seat.
    fn hear_without_seat(&mut self, alloc: Global, count: usize, now: u64, stopped: &AtomicBool)
        requires stands { self.old.connection.standing ≡ LinkState.Open }
        requires few { count ≤ length self.old.chunk }
        ensures { GreetsOctets now (take count self.old.chunk) self.old.connection self.new.connection }
    {
        let octets = &self.chunk[..count];
        let heard = self
            .talk
            .hear_without_seat(alloc, octets, &mut self.text, now, stopped);
        // An `Err` has lost the connection.
        let Ok(Brought { fed, greeted }) = heard else {
            return;
        };
        match greeted {
            Greeted::Nothing | Greeted::Faulty => {}
            Greeted::Good => self.heard = Some(fed),
            Greeted::Stopped => self.talk.note_stop(now),
        }
    }

    /// Reads a piece, if one may have come, and deals with the first line that it ends.
    #[tactic(auto, using(crate::proofs::TalkLemmas::open_is))]
    pub(crate) fn read_without_seat(&mut self, alloc: Global, now: u64, stopped: &AtomicBool)
        ensures { HasGreeted now self.old.connection self.new.connection }
    {
        if !self.may_read() {
            return;
        }
        let count = self.read_piece(now).count();
        if count > 0 {
            self.hear_without_seat(alloc, count, now, stopped);
        }
    }

    /// Answers lines that waited for a seat.
    fn answer_taken<D: LineDesk>(
        &mut self,
        alloc: Global,
        desk: &mut D,
        heard: Fed,
        now: u64,
        stopped: &AtomicBool,
    )
        requires open { self.old.connection.standing ≡ LinkState.Open }
        ensures said { AnswersHeeded (D.replies now) D.shows (heeded_in heard) desk.old desk.new
            self.old.connection self.new.connection }
        ensures since { self.new.connection.since ≡ now }
        ensures kept { self.new.connection.kept ≡ self.old.connection.kept }
        ensures acts { self.new.connection.acts ≡ self.old.connection.acts }
        ensures ready { self.new.connection.ready ≡ self.old.connection.ready }
        ensures heeded { self.new.connection.heeded ≡ self.old.connection.heeded }
    {
        let said = self
            .talk
            .answer_heard(alloc, desk, now, &heard, &mut self.text, stopped);
        self.talk.since = now;
        match said {
            Ok(true) => self.talk.note_stop(now),
            Ok(false) => {}
            // It has lost the connection.
            Err(_) => {}
        }
    }

    /// Answers the lines that wait for a seat, if any do. They wait no more, also where the connection has ended.
    #[tactic(auto, using(crate::proofs::TalkLemmas::open_is))]
    pub(crate) fn answer_at<D: LineDesk>(
        &mut self,
        alloc: Global,
        desk: &mut D,
        now: u64,
        stopped: &AtomicBool,
    )
        ensures { HasAnswered (D.replies now) D.shows now self.old.connection.heeded desk.old desk.new
            self.old.connection self.new.connection }
    {
        let Some(heard) = self.heard.take() else {
            return;
        };
        if self.talk.is_open() {
            self.answer_taken(alloc, desk, heard, now, stopped);
        }
    }

    /// Appends the news of a watch to what waits, while the connection is open.
    pub(crate) fn tell_news<D: LineDesk>(&mut self, alloc: Global, desk: &mut D, now: u64)
        ensures { HasToldNews (D.replies now) desk.old desk.new
            self.old.connection self.new.connection }
    {
        if self.talk.is_open() {
            let told = self.talk.append_news(alloc, desk, now, &mut self.text);
            let _ = self.talk.or_lost(told);
        }
    }
}
