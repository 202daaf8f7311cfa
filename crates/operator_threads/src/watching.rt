//! The watch of an operator at a shared desk.

ghost use Rattle.std.specs.Prelude.{◌≡◌, ◌≤◌, length, Some, IfOk, OnOk, OnErr};
ghost use Rattle.std.specs.Bool.{OnFalse};
ghost use Rattle.call_history.specs.Lists.{last_few};
ghost use Rattle.operator_desk.specs.Answers.{HasCaughtUp};
ghost use Rattle.operator_desk.specs.LegalLogs.{IsLegal};
ghost use Rattle.operator_desk.specs.PastCalls.{stamped_of};
ghost use Rattle.operator_threads.specs.Watches.{AppendsWatch, AppendsNews, AppendsCalls};

use crate::at_desk::AtDesk;
use crate::wake::Wake;
use call_history::StampedCall;
use desk_text::{print_calls, print_end, print_told};
use operator_desk::DeskBrand;
use std::alloc::{AllocError, Global};
use std::sync::{MutexGuard, Wait};

impl<'b, 'a, H: DeskBrand, R: Wait, F: Wake> AtDesk<'b, 'a, H, R, F> {
    /// Lets the seat see the whole log, which has at least the calls that are known. Else the desk has no answer.
    fn catch_up(&mut self) -> Result<(), AllocError>
        ensures caught { OnOk result (HasCaughtUp H.start self.old.taken.seat self.new.taken.seat) }
        ensures all { OnOk result (length self.new.known.lists ≤ length self.new.taken.seat.seen) }
        ensures known { self.new.known ≡ self.old.known }
        ensures told { self.new.told ≡ self.old.told }
        ensures named { self.new.is_named ≡ self.old.is_named }
        ensures name { self.new.name ≡ self.old.name }
        ensures trouble { self.new.trouble ≡ self.old.trouble }
        ensures learnt { self.new.learnt ≡ self.old.learnt }
    {
        let desk = &self.operators.desk;
        if desk.catch_up(self.rt, &mut self.taken.seat).is_err() {
            return Err(self.give_up());
        }
        if (self.taken.seat.has_seen() as u64) < self.known.version() {
            return Err(self.give_up());
        }
        Ok(())
    }

    /// Begins a watch behind the whole log, and appends the line of its version. An `Err` appends nothing.
    pub(crate) fn begin_watch(
        &mut self,
        is_named: bool,
        out: &mut Vec<u8>,
    ) -> Result<(), AllocError>
        ensures ok { OnOk result (AppendsWatch H.start is_named
            (record {
              seat = self.old.taken.seat;
              known = self.old.known;
              told = self.old.told;
              is_named = self.old.is_named;
              name = self.old.name.items;
              trouble = self.old.trouble;
              learnt = self.old.learnt;
            })
            (record {
              seat = self.new.taken.seat;
              known = self.new.known;
              told = self.new.told;
              is_named = self.new.is_named;
              name = self.new.name.items;
              trouble = self.new.trouble;
              learnt = self.new.learnt;
            })
            out.old.items out.new.items) }
        ensures err { OnErr result (out.new.items ≡ out.old.items) }
    {
        self.catch_up()?;
        let version = self.taken.seat.has_seen();
        print_end(version as u64, out)?;
        self.told = Some(version);
        self.is_named = is_named;
        Ok(())
    }

    /// Whether a call is known, or the seat has seen one, that a watch which has told so many calls has not. It doesn't
    /// wait for the desk.
    fn has_news(&self, told: usize) -> bool
        ensures known { OnFalse result (length self.now.known.lists ≤ told) }
        ensures seen { OnFalse result (length self.now.taken.seat.seen ≤ told) }
        ensures legal { OnFalse result (IsLegal H.start self.now.taken.seat.seen) }
    {
        let told = told as u64;
        self.operators.latest(self.rt).version() > told
            || self.known.version() > told
            || self.taken.seat.has_seen() as u64 > told
    }

    /// Appends the lines of the calls behind those that a watch has told, if there are any. An `Err` appends nothing.
    pub(crate) fn tell_behind(
        &mut self,
        alloc: Global,
        told: usize,
        out: &mut Vec<u8>,
    ) -> Result<(), AllocError>
        requires told { self.old.told ≡ Some told }
        ensures ok { OnOk result (AppendsNews H.start told
            (record {
              seat = self.old.taken.seat;
              known = self.old.known;
              told = self.old.told;
              is_named = self.old.is_named;
              name = self.old.name.items;
              trouble = self.old.trouble;
              learnt = self.old.learnt;
            })
            (record {
              seat = self.new.taken.seat;
              known = self.new.known;
              told = self.new.told;
              is_named = self.new.is_named;
              name = self.new.name.items;
              trouble = self.new.trouble;
              learnt = self.new.learnt;
            })
            out.old.items out.new.items) }
        ensures err { OnErr result (out.new.items ≡ out.old.items) }
    {
        if !self.has_news(told) {
            return Ok(());
        }
        self.catch_up()?;
        let seat = &self.taken.seat;
        let calls = self.operators.desk.stamped_after(alloc, seat, told)?;
        print_told(self.is_named, &calls, out)?;
        self.told = Some(told.max(seat.has_seen()));
        Ok(())
    }

    /// The last calls that the seat has seen, at most so many.
    #[tactic(auto, using(crate::proofs::WatchLemmas::last_calls))]
    fn last_calls(&self, alloc: Global, most: u64) -> Result<Vec<StampedCall<'a>>, AllocError>
        ensures { IfOk result (λ calls. calls.items ≡ last_few most (stamped_of self.now.taken.seat.seen)) }
    {
        let seat = &self.taken.seat;
        let passed = seat.has_seen().saturating_sub(most as usize);
        self.operators.desk.stamped_after(alloc, seat, passed)
    }

    /// Appends the lines of the last calls of the whole log, at most so many, and how many it has. An `Err` appends
    /// nothing.
    fn print_log(&mut self, alloc: Global, most: u64, out: &mut Vec<u8>) -> Result<(), AllocError>
        ensures ok { OnOk result (AppendsCalls H.start most
            (record {
              seat = self.old.taken.seat;
              known = self.old.known;
              told = self.old.told;
              is_named = self.old.is_named;
              name = self.old.name.items;
              trouble = self.old.trouble;
              learnt = self.old.learnt;
            })
            (record {
              seat = self.new.taken.seat;
              known = self.new.known;
              told = self.new.told;
              is_named = self.new.is_named;
              name = self.new.name.items;
              trouble = self.new.trouble;
              learnt = self.new.learnt;
            })
            out.old.items out.new.items) }
        ensures err { OnErr result (out.new.items ≡ out.old.items) }
    {
        self.catch_up()?;
        let calls = self.last_calls(alloc, most)?;
        print_calls(&calls, self.taken.seat.has_seen() as u64, out)
    }

    /// Appends the lines of the last calls of the whole log, at most so many, and how many it has, in the operator's
    /// turn. An `Err` appends nothing.
    // The calls of a long log take a hundred megabytes, so one operator at a time prints them.
    pub(crate) fn tell_log(
        &mut self,
        alloc: Global,
        most: u64,
        out: &mut Vec<u8>,
    ) -> Result<(), AllocError>
        ensures ok { OnOk result (AppendsCalls H.start most
            (record {
              seat = self.old.taken.seat;
              known = self.old.known;
              told = self.old.told;
              is_named = self.old.is_named;
              name = self.old.name.items;
              trouble = self.old.trouble;
              learnt = self.old.learnt;
            })
            (record {
              seat = self.new.taken.seat;
              known = self.new.known;
              told = self.new.told;
              is_named = self.new.is_named;
              name = self.new.name.items;
              trouble = self.new.trouble;
              learnt = self.new.learnt;
            })
            out.old.items out.new.items) }
        ensures err { OnErr result (out.new.items ≡ out.old.items) }
    {
        let (operators, rt) = (self.operators, self.rt);
        let turn = operators.printed_past.lock(rt);
        let answer = self.print_log(alloc, most, out);
        MutexGuard::unlock(turn);
        answer
    }
}
