//! The desk that operators share.

ghost use Rattle.std.specs.Prelude.{◌≡◌, ◌≢◌, true, length, drop, None, Some, Err, IfOk, IfErr, OnOk, OnErr};
ghost use Rattle.std.specs.List.{All, sum_by};
ghost use mathlib.Core.List.{IsPrefix};
ghost use Rattle.desk_rows.specs.Desk.{blank as no_rows, good};
ghost use Rattle.desk_edit.specs.Asked.{asked_by};
ghost use Rattle.published_desk.specs.Published.{new_reader};
ghost use Rattle.operator_desk.specs.LegalLogs.{IsLegal};
ghost use Rattle.operator_desk.specs.PastCalls.{IsPast, made_of, stamped_of};
ghost use Rattle.operator_desk.specs.Seats.{SeatOf, new_seats};
ghost use Rattle.operator_desk.specs.Answers.{IsAnswered, IsUnanswered, IsNotice, IsCopy, Tells};
ghost use Rattle.operator_desk.specs.Answers.{HasCaughtUp, IsForeign};
ghost use Rattle.operator_desk.specs.Opening.{desk_fault};
ghost use Rattle.operator_desk.specs.Gathering.{IsFault};

use crate::answer::Answer;
use crate::desk_brand::{DeskBrand, DeskNames};
use crate::desk_inner::DeskInner;
use crate::entry::LogEntry;
use crate::fault::{Behind, CallFault, DeskFault, GatherFault};
use crate::gathering::judged;
use crate::log::Log;
use crate::past::Past;
use crate::seat::{Seat, seats_for};
use call_history::{AcceptedCall, CallLists, CallStamp, StampedCall};
use desk_calls::Desk;
use desk_edit::Call;
use desk_rows::Rows;
use published_desk::{LaneReader, MAX_READERS, Notice, start};
use std::alloc::{AllocError, Global};
use std::sync::{Mutex, MutexGuard, Wait};

/// The most operators of a desk.
pub const MAX_OPERATORS: u32 = 16;

/// A desk that up to sixteen operators share. It is not `Drop`: end it by [`SharedDesk::gather`] or
/// [`SharedDesk::end`].
pub struct SharedDesk<'a, H: DeskBrand> {
    inner: Mutex<DeskInner<'a, H>>,
    /// The log, whose entries are read without the lock.
    log: &'a Log,
    seats: u32,
    ghost all: { seats ≡ H.seats },
    ghost cells: { log.now ≡ H.cells },
}

impl<'a, H: DeskBrand> SharedDesk<'a, H> {
    /// A desk without rows over a log in which nothing is written, with a seat for each of 1 to 16 operators, and 1 to
    /// 17 readers of what it publishes.
    pub fn new<R: Wait>(
        rt: &R,
        alloc: Global,
        log: &'a Log,
        names: DeskNames,
        bridge_ssrc: u32,
        operators: u32,
        readers: usize,
    ) -> Result<(SharedDesk<'a, H>, Vec<Seat<'a, H>>, Vec<LaneReader>), DeskFault>
        requires log { log.now ≡ H.cells }
        requires ledger { (names.ledger.name ≡ H.name) × (names.ledger.parts ≡ H.parts) }
        requires publisher { names.publisher ≡ H.publisher }
        requires start { no_rows bridge_ssrc ≡ H.start }
        requires seats { (operators ≡ H.seats) × (H.seats ≡ H.parts) }
        ensures seats { IfOk result (λ r. r.1.items ≡ new_seats operators) }
        ensures readers { IfOk result (λ r.
            (length r.2.items ≡ readers) × All (λ l. l ≡ new_reader H.publisher H.start) r.2.items) }
        ensures good { OnOk result (desk_fault operators readers ≡ None) }
        ensures fault { IfErr result (λ fault.
            fault ≢ DeskFault.OutOfMemory → desk_fault operators readers ≡ Some fault) }
        ensures memory { result ≡ Err DeskFault.OutOfMemory → desk_fault operators readers ≡ None }
    {
        if operators == 0 || operators > MAX_OPERATORS {
            return Err(DeskFault::Count);
        }
        if readers == 0 || readers > MAX_READERS {
            return Err(DeskFault::Places);
        }
        let made = SharedDesk::made(rt, alloc, log, names, bridge_ssrc, operators, readers);
        match made {
            Ok(made) => Ok(made),
            Err(_) => Err(DeskFault::OutOfMemory),
        }
    }

    fn made<R: Wait>(
        rt: &R,
        alloc: Global,
        log: &'a Log,
        names: DeskNames,
        bridge_ssrc: u32,
        operators: u32,
        readers: usize,
    ) -> Result<(SharedDesk<'a, H>, Vec<Seat<'a, H>>, Vec<LaneReader>), AllocError>
        requires log { log.now ≡ H.cells }
        requires ledger { (names.ledger.name ≡ H.name) × (names.ledger.parts ≡ H.parts) }
        requires publisher { names.publisher ≡ H.publisher }
        requires start { no_rows bridge_ssrc ≡ H.start }
        requires seats { (operators ≡ H.seats) × (H.seats ≡ H.parts) }
        ensures seats { IfOk result (λ r. r.1.items ≡ new_seats operators) }
        ensures readers { IfOk result (λ r.
            (length r.2.items ≡ readers) × All (λ l. l ≡ new_reader H.publisher H.start) r.2.items) }
    {
        let DeskNames { ledger, publisher } = names;
        let (calls, mut rest) = ledger.open::<H>();
        let seats = seats_for(alloc, log, &mut rest, operators)?;
        let entries = Vec::with_capacity(alloc, log.len())?;
        let desk = Desk::new(alloc, Rows::new(alloc, bridge_ssrc)?);
        let rows = Rows::new(alloc, bridge_ssrc)?;
        // A publisher can't be dropped, so it comes last.
        match start(alloc, rt, publisher, rows, readers) {
            Ok((publisher, lanes)) => {
                let held = DeskInner {
                    log,
                    entries,
                    next: None,
                    ended: false,
                    desk,
                    publisher,
                    lists: CallLists::new(alloc),
                    calls,
                    rest,
                };
                Ok((SharedDesk::around(held, operators), seats, lanes))
            }
            Err(_) => Err(AllocError),
        }
    }

    fn around(held: DeskInner<'a, H>, seats: u32) -> SharedDesk<'a, H>
        requires { seats ≡ H.seats }
    {
        let log = held.log;
        SharedDesk {
            inner: Mutex::new(held),
            log,
            seats,
        }
    }

    /// Answers a call of one of this desk's seats. The log keeps an accepted one with this stamp.
    ///
    /// A seat of another desk has no answer, and stays as it was. Nor has any call from the first one on that could not
    /// be published: to its seat an entry stands behind the log.
    // A clause can name a desk by its types alone, so the desk asks whether the seat is its own. A wrong answer would
    // be worse than none.
    pub fn call<R: Wait>(
        &self,
        rt: &R,
        alloc: Global,
        seat: &mut Seat<'a, H>,
        call: Call,
        stamp: CallStamp,
    ) -> Result<Answer, CallFault>
        ensures answer { IfOk result (λ answer.
            IsAnswered H.start H.publisher seat.old seat.new (asked_by call) stamp answer) }
        ensures fault { IfErr result (λ fault. IsUnanswered H.start seat.old seat.new (asked_by call) fault) }
    {
        let mut held = self.inner.lock(rt);
        let answer = held.call(rt, alloc, seat, call, stamp);
        MutexGuard::unlock(held);
        answer
    }

    /// Lets a seat see the whole log, as a call does, and returns the notice of its last version. A seat of another
    /// desk has no answer, and stays as it was.
    pub fn catch_up<R: Wait>(&self, rt: &R, seat: &mut Seat<'a, H>) -> Result<Notice, CallFault>
        ensures caught { OnOk result (HasCaughtUp H.start seat.old seat.new) }
        ensures tells { IfOk result (λ notice. Tells H.start H.publisher seat.new.seen notice) }
        ensures fault { OnErr result (IsForeign H.start seat.old seat.new) }
        ensures named { IfErr result (λ fault. fault ≡ CallFault.SeatForeign) }
    {
        let held = self.inner.lock(rt);
        let answer = held.catch_up(seat);
        MutexGuard::unlock(held);
        answer
    }

    /// The accepted calls that a seat has seen, but for so many first ones. It doesn't wait for the desk.
    pub fn calls_after(
        &self,
        alloc: Global,
        seat: &Seat<'a, H>,
        version: usize,
    ) -> Result<Vec<AcceptedCall<'a>>, AllocError>
        ensures { IfOk result (λ calls. calls.items ≡ drop version (made_of seat.now.seen)) }
    {
        seat.calls_after(alloc, self.log, version)
    }

    /// The same with their stamps.
    pub fn stamped_after(
        &self,
        alloc: Global,
        seat: &Seat<'a, H>,
        version: usize,
    ) -> Result<Vec<StampedCall<'a>>, AllocError>
        ensures { IfOk result (λ calls. calls.items ≡ drop version (stamped_of seat.now.seen)) }
    {
        seat.stamped_after(alloc, self.log, version)
    }

    /// The notice of what is published now.
    pub fn notice<R: Wait>(&self, rt: &R) -> Notice
        ensures { IsNotice H.start H.publisher result }
    {
        let held = self.inner.lock(rt);
        let notice = held.notice();
        MutexGuard::unlock(held);
        notice
    }

    /// The version, and a copy of its rows.
    // The rows have to be read without the lock. Readers that look often enter by a `LaneReader` instead.
    pub fn rows<R: Wait>(&self, rt: &R, alloc: Global) -> Result<(u64, Rows), AllocError>
        ensures copy { IfOk result (λ r. IsCopy H.start r.0 r.1) }
        ensures good { IfOk result (λ r. good r.1 ≡ true) }
    {
        let held = self.inner.lock(rt);
        let rows = held.rows(alloc);
        MutexGuard::unlock(held);
        rows
    }

    /// The last calls that are in force, and the last that can be redone: at most so many of each.
    pub fn past<R: Wait>(
        &self,
        rt: &R,
        alloc: Global,
        most: usize,
    ) -> Result<Past<'a, H>, AllocError>
        ensures { IfOk result (λ past. IsPast H.start most past) }
    {
        let held = self.inner.lock(rt);
        let past = held.past(alloc, most);
        MutexGuard::unlock(held);
        past
    }

    /// The whole log, once all seats are back, with the notice of its last version. Readers find no rows from then on.
    ///
    /// The faults `LogTaken` and `Ended` come with what shows that the cell behind the log is written.
    pub fn gather<R: Wait>(
        self,
        rt: &R,
        alloc: Global,
        seats: Vec<Seat<'a, H>>,
    ) -> Result<
        (Vec<LogEntry>, Notice),
        (
            SharedDesk<'a, H>,
            Vec<Seat<'a, H>>,
            GatherFault,
            Option<Behind<'a>>,
        ),
    >
        requires parts { H.seats ≡ H.parts }
        ensures legal { IfOk result (λ r. IsLegal H.start r.0.items) }
        ensures tells { IfOk result (λ r. Tells H.start H.publisher r.0.items r.1) }
        ensures begins { IfOk result (λ r. All (λ (s : SeatOf). IsPrefix s.seen r.0.items) seats.entry.items) }
        ensures sum { IfOk result (λ r. length r.0.items ≡ sum_by (λ (s : SeatOf). s.count) seats.entry.items) }
        ensures back { IfErr result (λ e. e.1 ≡ seats.entry) }
        ensures fault { IfErr result (λ e. IsFault H.cells H.seats seats.entry.items e.2 e.3) }
    {
        let SharedDesk {
            inner,
            log: _,
            seats: count,
        } = self;
        let held = inner.into_inner();
        match judged(&held, alloc, &seats, count) {
            Ok((log, notice)) => {
                held.settle(rt, seats);
                Ok((log, notice))
            }
            Err((fault, behind)) => { Err((SharedDesk::around(held, count), seats, fault, behind)) }
        }
    }

    /// Gives the log up. Readers find no rows from then on.
    pub fn end<R: Wait>(self, rt: &R) {
        let SharedDesk {
            inner,
            log: _,
            seats: _,
        } = self;
        inner.into_inner().end(rt);
    }
}
