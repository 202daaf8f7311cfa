//! An operator at a shared desk.

ghost use Rattle.std.specs.Prelude.{◌≡◌, ◌≤◌, ◌++◌, ℕ, List, length, OnOk, OnErr};
ghost use Rattle.operator_threads.specs.Told.{SeatShows, SeatTellsPast};

use crate::leases::Leases;
use crate::operators::Operators;
use crate::printed::Printed;
use crate::printed_past::PrintedPast;
use crate::seats::TakenSeat;
use crate::wake::Wake;
use desk_edit::Call;
use desk_text::{Fault, Word, print_end, print_line};
use operator_desk::DeskBrand;
use operator_lines::{LeaseAsk, LineDesk, Trouble, View, Wrong};
use published_desk::Notice;
use std::alloc::{AllocError, Global};
use std::sync::atomic::Ordering;
use std::sync::{MutexGuard, Wait};

/// An operator at a shared desk. It is not `Drop`, so that the seat is given back: end it by [`AtDesk::leave`].
///
/// As a [`LineDesk`] it answers each call by `SharedDesk::call` with its own seat, unless the desk's lease has ended
/// and is of another name. It wakes the front after each accepted call. What the desk has no answer for ends the
/// connection, and the bridge.
pub struct AtDesk<'b, 'a, H: DeskBrand, R: Wait, F: Wake> {
    pub(crate) operators: &'b Operators<'a, H>,
    pub(crate) rt: &'b R,
    pub(crate) front: &'b F,
    pub(crate) taken: TakenSeat<'a, H>,
    /// The latest notice, as of the last accepted call.
    pub(crate) known: Notice,
    /// Of a watch: how many calls of the log it has told, or were accepted before it.
    pub(crate) told: Option<usize>,
    /// Whether the watch tells moments and names.
    pub(crate) is_named: bool,
    /// The connection's name, without octets where it has none.
    pub(crate) name: Vec<u8>,
    /// The last line that was faulty or refused.
    pub(crate) trouble: Option<Trouble>,
    /// The leases that it has learnt of.
    pub(crate) learnt: Leases,
}

impl<'b, 'a, H: DeskBrand, R: Wait, F: Wake> AtDesk<'b, 'a, H, R, F> {
    /// Gives the seat back.
    pub fn leave(self) {
        let AtDesk {
            operators,
            rt,
            front: _,
            taken,
            known: _,
            told: _,
            is_named: _,
            name: _,
            trouble: _,
            learnt: _,
        } = self;
        operators.give(rt, taken);
    }

    /// Appends the rows of one version, a line for each, and the version. An `Err` appends nothing. The rows are
    /// printed anew if those that were printed last are of an earlier version than `asked`.
    fn print_rows(
        &self,
        alloc: Global,
        printed: &mut Printed<H>,
        asked: u64,
        out: &mut Vec<u8>,
    ) -> Result<(), AllocError>
        ensures ok { OnOk result ((text : List ℕ)
            × (out.new.items ≡ out.old.items ++ text) × SeatShows H.start asked text) }
        ensures err { OnErr result (out.new.items ≡ out.old.items) }
    {
        if !printed.refresh(self.rt, alloc, &self.operators.desk, asked)? {
            return Err(self.give_up());
        }
        printed.append(out)
    }

    /// Appends the last calls that are in force and the last that can be redone, at most so many of each, a line for
    /// each, and the version. An `Err` appends nothing. They are printed anew if those that were printed last are of an
    /// earlier version than `asked`, or of another number.
    fn print_past(
        &self,
        alloc: Global,
        printed: &mut PrintedPast<'a, H>,
        asked: u64,
        most: u64,
        out: &mut Vec<u8>,
    ) -> Result<(), AllocError>
        ensures ok { OnOk result ((text : List ℕ) × (out.new.items ≡ out.old.items ++ text)
            × SeatTellsPast H.start asked most self.now.taken.seat text) }
        ensures err { OnErr result (out.new.items ≡ out.old.items) }
    {
        let desk = &self.operators.desk;
        if !printed.refresh(self.rt, alloc, desk, asked, most, &self.taken.seat)? {
            return Err(self.give_up());
        }
        printed.append(out)
    }

    /// The version that is shown at least: the published one, which is the known one or a later one.
    pub(crate) fn asked(&self) -> u64
        ensures { length self.now.known.lists ≤ result }
    {
        let published = self.operators.desk.notice(self.rt).version();
        published.max(self.known.version())
    }

    /// Appends the rows in the operator's turn. An `Err` appends nothing.
    fn show_rows(&self, alloc: Global, asked: u64, out: &mut Vec<u8>) -> Result<(), AllocError>
        ensures ok { OnOk result ((text : List ℕ)
            × (out.new.items ≡ out.old.items ++ text) × SeatShows H.start asked text) }
        ensures err { OnErr result (out.new.items ≡ out.old.items) }
    {
        let mut printed = self.operators.printed.lock(self.rt);
        let answer = self.print_rows(alloc, &mut printed, asked, out);
        MutexGuard::unlock(printed);
        answer
    }

    /// Appends the calls in the operator's turn. An `Err` appends nothing.
    fn show_past(
        &self,
        alloc: Global,
        asked: u64,
        most: u64,
        out: &mut Vec<u8>,
    ) -> Result<(), AllocError>
        ensures ok { OnOk result ((text : List ℕ) × (out.new.items ≡ out.old.items ++ text)
            × SeatTellsPast H.start asked most self.now.taken.seat text) }
        ensures err { OnErr result (out.new.items ≡ out.old.items) }
    {
        let mut printed = self.operators.printed_past.lock(self.rt);
        let answer = self.print_past(alloc, &mut printed, asked, most, out);
        MutexGuard::unlock(printed);
        answer
    }

    /// Ends the bridge, whose desk has no answer. What is returned ends the connection.
    pub(crate) fn give_up(&self) -> AllocError {
        self.operators.failed.store(true, Ordering::SeqCst);
        self.operators.stop();
        self.front.wake();
        AllocError
    }
}

impl<'b, 'a, H: DeskBrand, R: Wait, F: Wake> LineDesk for AtDesk<'b, 'a, H, R, F> {
    ghost use Rattle.std.specs.Prelude.{length};
    ghost use Rattle.operator_threads.specs.Told.{SeatViews};
    ghost use Rattle.operator_threads.specs.Watches.{SeatAnswers};

    ghost replies = { λ moment old new ask text. SeatAnswers H.start H.publisher moment
        (record {
          seat = old.taken.seat;
          known = old.known;
          told = old.told;
          is_named = old.is_named;
          name = old.name.items;
          trouble = old.trouble;
          learnt = old.learnt;
        })
        (record {
          seat = new.taken.seat;
          known = new.known;
          told = new.told;
          is_named = new.is_named;
          name = new.name.items;
          trouble = new.trouble;
          learnt = new.learnt;
        })
        ask text };

    ghost shows = { λ desk view text. SeatViews H.start (F.counts desk.front.now) (F.levels desk.front.now)
        (length desk.known.lists) desk.taken.seat desk.trouble view text };

    fn reply(
        &mut self,
        alloc: Global,
        moment: u64,
        line: &[u8],
        call: Call,
        out: &mut Vec<u8>,
    ) -> Result<(), AllocError> {
        let (operators, rt) = (self.operators, self.rt);
        // It is locked until the call is answered, so that none is accepted behind the answer that it has ended.
        let mut lease = operators.lease.lock(rt);
        let answer = self.judge_call(alloc, moment, line, call, &mut lease, out);
        MutexGuard::unlock(lease);
        answer
    }

    fn watch(
        &mut self,
        _alloc: Global,
        _moment: u64,
        is_named: bool,
        out: &mut Vec<u8>,
    ) -> Result<(), AllocError> {
        match self.told {
            Some(told) => {
                print_end(told as u64, out)?;
                self.is_named = is_named;
                Ok(())
            }
            None => self.begin_watch(is_named, out),
        }
    }

    fn tell_news(
        &mut self,
        alloc: Global,
        _moment: u64,
        out: &mut Vec<u8>,
    ) -> Result<(), AllocError> {
        match self.told {
            Some(told) => self.tell_behind(alloc, told, out),
            None => Ok(()),
        }
    }

    fn tell_calls(
        &mut self,
        alloc: Global,
        _moment: u64,
        most: u64,
        out: &mut Vec<u8>,
    ) -> Result<(), AllocError> {
        self.tell_log(alloc, most, out)
    }

    fn rename(
        &mut self,
        alloc: Global,
        _moment: u64,
        name: &[u8],
        out: &mut Vec<u8>,
    ) -> Result<(), AllocError> {
        let kept = Vec::from_slice(alloc, name)?;
        print_line(b"as", &[Word::Fixed(name)], out)?;
        self.name = kept;
        Ok(())
    }

    fn lease(
        &mut self,
        alloc: Global,
        moment: u64,
        ask: LeaseAsk,
        out: &mut Vec<u8>,
    ) -> Result<(), AllocError> {
        let (operators, rt) = (self.operators, self.rt);
        let mut lease = operators.lease.lock(rt);
        let answer = self.ask_lease(alloc, moment, ask, &mut lease, out);
        MutexGuard::unlock(lease);
        answer
    }

    fn note_fault(
        &mut self,
        alloc: Global,
        _moment: u64,
        line: &[u8],
        word: u32,
        fault: Fault,
    ) -> Result<(), AllocError> {
        let kept = Vec::from_slice(alloc, line)?;
        self.trouble = Some(Trouble::new(kept, Wrong::Faulty { word, fault }));
        Ok(())
    }

    fn show(&self, alloc: Global, view: View, out: &mut Vec<u8>) -> Result<(), AllocError> {
        match view {
            View::Rows => self.show_rows(alloc, self.asked(), out),
            View::Groups => self.show_groups(alloc, self.asked(), out),
            View::History { most } => self.show_past(alloc, self.asked(), most, out),
            View::Stats => {
                let used = self.operators.used(self.rt);
                self.front.tell_stats(self.rt, alloc, used, out)
            }
            View::Levels => self.front.tell_levels(self.rt, alloc, out),
            View::Why => self.show_why(alloc, self.asked(), out),
        }
    }
}
