//! What lies under the lock of a shared desk.

ghost use Rattle.std.specs.Prelude.{◌≡◌, ◌≤◌, true, length, slice_get, None, Some, Err, IfSome, IfNone, IfOk, IfErr};
ghost use Rattle.std.specs.Bool.{OnTrue, OnFalse};
ghost use Rattle.std.specs.List.{All, sum_by};
ghost use mathlib.Core.List.{IsPrefix};
ghost use Rattle.desk_edit.specs.Asked.{asked_by};
ghost use Rattle.desk_edit.specs.Calls.{refusal_of};
ghost use Rattle.desk_calls.specs.Desk.{IsReady};
ghost use Rattle.desk_calls.specs.Edits.{fits};
ghost use Rattle.operator_desk.specs.LegalLogs.{after_log, IsLegal};
ghost use Rattle.operator_desk.specs.OwnCalls.{numbers};
ghost use Rattle.operator_desk.specs.Seats.{SeatOf};
ghost use Rattle.operator_desk.specs.Answers.{IsAnswered, IsUnanswered, IsEnded, IsOurs, IsNotice, Tells};
ghost use Rattle.operator_desk.specs.Gathering.{AreAllIn};
ghost use Rattle.operator_desk.specs.inner.DeskInner.{Leads};

use crate::answer::{Answer, refused, taken_answer};
use crate::desk_brand::DeskBrand;
use crate::entry::LogEntry;
use crate::fault::CallFault;
use crate::log::Log;
use crate::seat::Seat;
use crate::tokens::{agree, catch_up, none_of};
use call_history::{AcceptedCall, CallLists, CallStamp};
use desk_calls::{Desk, Prepared};
use desk_edit::{Call, Refusal};
use desk_rows::Edit;
use published_desk::{Notice, Publisher};
use std::alloc::Global;
use std::marker::Model;
use std::sync::ledger::{Book, Share};
use std::sync::{OnceToken, Wait};
use undo_log::Edits;

/// The desk, what publishes it, its log and the count of its calls. It is not `Drop`: end it by `settle` or `end`.
pub struct DeskInner<'a, H: DeskBrand> {
    /// The log of accepted calls.
    pub log: &'a Log,
    /// A token of each entry, with capacity for those of the whole log.
    pub entries: Vec<OnceToken<'a, LogEntry>>,
    /// The cell after those, if it was found written.
    pub next: Option<OnceToken<'a, LogEntry>>,
    /// Whether that cell was written by this desk, which could not publish it and has ended.
    pub ended: bool,
    /// The desk after the calls of the log.
    pub desk: Desk,
    /// Publishes each version of its rows.
    pub publisher: Publisher,
    /// The calls of the log that are done, and those that can be redone.
    pub lists: CallLists<'a>,
    /// Counts the accepted calls.
    pub calls: Book<H>,
    /// The desk's own share of the ledger. It is empty: the seats have all parts, and have counted all calls.
    pub rest: Share<H>,
}

impl<'a, H: DeskBrand> Model for DeskInner<'a, H> {
    ghost use Rattle.std.specs.Prelude.{◌≡◌, length, vec_capacity};
    ghost use Rattle.desk_edit.specs.Calls.{call_limit};
    ghost use Rattle.operator_desk.specs.PastCalls.{lists_in};
    ghost use Rattle.operator_desk.specs.inner.DeskInner.{InnerOf, IsInner};
    ghost use Rattle.operator_desk.specs.inner.Tokens.{shown, shown_next, AreTokens};

    ghost Value = { InnerOf };

    ghost view = { λ h. record {
      log = shown h.entries.items;
      desk = h.desk;
      edition = h.publisher;
      beyond = shown_next h.next;
      total = h.calls.total;
    } };

    ghost invariant = { λ h.
        (h.log.now ≡ H.cells)
        × (length H.cells ≡ call_limit)
        × AreTokens H.cells h.entries.items (vec_capacity h.entries) h.next
        × IsInner H.start H.publisher (record {
          log = shown h.entries.items;
          desk = h.desk;
          edition = h.publisher;
          beyond = shown_next h.next;
          total = h.calls.total;
        })
        × (h.rest.parts ≡ 0)
        × (h.rest.amount ≡ 0)
        × (h.lists.lists ≡ lists_in (shown h.entries.items)) };
}

impl<'a, H: DeskBrand> DeskInner<'a, H> {
    /// What is published now.
    pub fn notice(&self) -> Notice
        ensures { IsNotice H.start H.publisher result }
    {
        self.publisher.tell()
    }

    /// How many entries the log has.
    pub fn len(&self) -> usize
        ensures { result ≡ length self.now.log }
    {
        self.entries.len()
    }

    /// What is published now: that to which the log led.
    pub fn told(&self) -> Notice
        ensures { Tells H.start H.publisher self.now.log result }
    {
        self.publisher.tell()
    }

    /// Takes all seats back: each has seen a beginning of the log, and together they made its calls.
    pub fn settle<R: Wait>(self, rt: &R, seats: Vec<Seat<'a, H>>)
        requires parts { H.seats ≡ H.parts }
        requires all { AreAllIn H.seats seats.items }
        requires few { All (λ (s : SeatOf). length s.seen ≤ length self.log) seats.items }
        ensures begins { All (λ (s : SeatOf). IsPrefix s.seen self.entry.log) seats.entry.items }
        ensures sum { length self.entry.log ≡ sum_by (λ (s : SeatOf). s.count) seats.entry.items }
    {
        let DeskInner {
            log,
            entries,
            publisher,
            mut calls,
            mut rest,
            next: _,
            ended: _,
            desk: _,
            lists: _,
        } = self;
        publisher.end(rt);
        for seat in seats {
            seat.give_back(log, &entries, &mut rest);
        }
        calls.audit(&mut rest);
    }

    /// Ends the publisher, and gives the log up.
    pub fn end<R: Wait>(self, rt: &R) {
        let DeskInner {
            publisher,
            log: _,
            entries: _,
            next: _,
            ended: _,
            desk: _,
            lists: _,
            calls: _,
            rest: _,
        } = self;
        publisher.end(rt);
    }

    /// Shows that the cell after those of the log is written, if it is.
    pub fn taken(&self) -> Option<OnceToken<'a, LogEntry>>
        ensures some { IfSome result (λ t. slice_get H.cells (length self.now.log) ≡ Some t.of) }
        ensures none { IfNone result (self.now.beyond ≡ None) }
    {
        if let Some(token) = &self.next {
            return Some(token.again());
        }
        if self.entries.len() >= self.log.len() {
            return None;
        }
        self.log.witness(self.entries.len())
    }

    /// Lets a seat see the whole log. Returns false for a seat of another desk, which stays as it was.
    pub fn show(&self, seat: &mut Seat<'a, H>) -> bool
        ensures op { seat.new.op ≡ seat.old.op }
        ensures count { seat.new.count ≡ seat.old.count }
        ensures seen { OnTrue result (seat.new.seen ≡ self.now.log) }
        ensures begins { OnTrue result (IsPrefix seat.old.seen self.now.log) }
        ensures own { OnTrue result (numbers seat.old.op self.now.log ≡ numbers seat.old.op seat.old.seen) }
        ensures foreign { OnFalse result (¬ IsOurs seat.old self.now.log) }
        ensures legal { IsLegal H.start self.now.log }
        ensures same { OnFalse result (seat.new ≡ seat.old) }
    {
        let from = seat.seen.len();
        if self.entries.len() < from {
            return false;
        }
        agree(self.log, &seat.seen, &self.entries);
        if !none_of(self.log, &self.entries, from, seat.op) {
            return false;
        }
        catch_up(&mut seat.seen, &self.entries);
        seat.next = None;
        true
    }

    /// Answers a seat, unless it is of another desk or this desk has ended.
    pub fn call<R: Wait>(
        &mut self,
        rt: &R,
        alloc: Global,
        seat: &mut Seat<'a, H>,
        call: Call,
        stamp: CallStamp,
    ) -> Result<Answer, CallFault>
        ensures answer { IfOk result (IsAnswered H.start H.publisher seat.old seat.new (asked_by call) stamp) }
        ensures fault { IfErr result (IsUnanswered H.start seat.old seat.new (asked_by call)) }
        ensures foreign { result ≡ Err CallFault.SeatForeign → ¬ IsOurs seat.old self.old.log }
    {
        if !self.show(seat) {
            return Err(CallFault::SeatForeign);
        }
        match self.answer(rt, alloc, seat, call, stamp) {
            Some(answer) => Ok(answer),
            None => Err(CallFault::Ended),
        }
    }

    /// Answers a seat that has seen the whole log. `None` if the desk has ended.
    fn answer<R: Wait>(
        &mut self,
        rt: &R,
        alloc: Global,
        seat: &mut Seat<'a, H>,
        call: Call,
        stamp: CallStamp,
    ) -> Option<Answer>
        requires seen { seat.old.seen ≡ self.old.log }
        ensures answer { IfSome result (IsAnswered H.start H.publisher seat.old seat.new (asked_by call) stamp) }
        ensures ended { IfNone result (IsEnded H.start seat.old seat.new (asked_by call)) }
    {
        let at = self.desk.version();
        if let Some(token) = self.taken() {
            seat.next = Some(token);
            return taken_answer(self.ended, at);
        }
        let prepared = match self.desk.prepare(alloc, &call) {
            Ok(prepared) => prepared,
            Err(why) => return Some(refused(at, why)),
        };
        match self.desk.edit_of(alloc, &call, &prepared) {
            Ok(edits) => self.write(rt, seat, call, stamp, prepared, edits),
            Err(_) => Some(refused(at, Refusal::OutOfMemory)),
        }
    }

    /// Writes a prepared call into the log, publishes what it does, and carries it out. `None` if the desk has ended.
    // A call's cell is written once, before its version is published. Where that fails neither yes nor no is true, so
    // this call and all later ones have no answer. Where the cell is found written, the list stays staged for good:
    // such a desk never publishes again.
    fn write<R: Wait>(
        &mut self,
        rt: &R,
        seat: &mut Seat<'a, H>,
        call: Call,
        stamp: CallStamp,
        prepared: Prepared,
        edits: Edits<Edit>,
    ) -> Option<Answer>
        requires seen { seat.old.seen ≡ self.old.log }
        requires ready { IsReady self.old.desk (asked_by call) prepared }
        requires leads { Leads self.old.desk (asked_by call) edits }
        requires fit { fits self.old.desk.desk edits ≡ true }
        requires free { refusal_of (after_log H.start self.old.log) (asked_by call) ≡ None }
        requires beyond { self.old.beyond ≡ None }
        ensures answer { IfSome result (IsAnswered H.start H.publisher seat.old seat.new (asked_by call) stamp) }
        ensures ended { IfNone result (IsEnded H.start seat.old seat.new (asked_by call)) }
    {
        let at = self.desk.version();
        if self.lists.reserve().is_err() || self.publisher.stage(edits).is_err() {
            return Some(refused(at, Refusal::OutOfMemory));
        }
        let end = self.entries.len();
        match self.log.write(rt, end, LogEntry::new(seat.op, call, stamp)) {
            Ok(token) => {
                let Some(_version) = self.publisher.publish(rt) else {
                    self.ended = true;
                    self.next = Some(token.again());
                    seat.next = Some(token);
                    return None;
                };
                let entry = self.log.read(end, &token);
                self.entries.push_reserved(token.again());
                seat.seen.push_reserved(token);
                seat.next = None;
                let no = self.desk.commit(entry.call(), prepared);
                self.lists.note(entry.call(), entry.accepted(no));
                let notice = self.publisher.tell();
                self.calls.add(&mut seat.mine, 1);
                Some(Answer::Accepted { no, notice })
            }
            Err(token) => {
                drop(prepared);
                self.next = Some(token.again());
                seat.next = Some(token);
                taken_answer(false, at)
            }
        }
    }
}
