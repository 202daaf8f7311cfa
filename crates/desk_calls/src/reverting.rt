//! Judges a revert, and plans its edit.

ghost use Rattle.std.specs.Prelude.{◌≡◌, ◌≢◌, ◌<◌, ◌≤◌, ◌∷◌, [], true, None, Some, Err, IfOk, IfErr, OnOk, OnErr};
ghost use Rattle.std.specs.Prelude.{length, take, fold, reverse};
ghost use Rattle.desk_edit.specs.Asked.{CallOf};
ghost use Rattle.desk_edit.specs.Calls.{call_limit};
ghost use Rattle.desk_edit.specs.InForce.{stay, walked};
ghost use Rattle.desk_calls.specs.Edits.{fits, after};
ghost use Rattle.desk_calls.specs.Desk.{call_refused, early_call_refused, IsReason, desk_without};
ghost use Rattle.desk_calls.specs.inner.Touching.{late_refused, way_of, away_of, rows_without};

use crate::carrying::carry_out_in_force;
use crate::desk::Desk;
use crate::entry::DeskEntry;
use crate::judging::{log_is_full, one_edit};
use crate::striking::{is_in_force, one_number};
use crate::touching::no_other_moves;
use crate::walking::{base_of, is_newest};
use desk_edit::Refusal;
use desk_revert::{difference, moved_keys};
use desk_rows::{Edit, Rows};
use reversible_rows::ReversibleRows;
use std::alloc::{AllocError, Allocator};
use undo_log::{Edits, Listed};

impl<A: Allocator + Copy> Desk<A> {
    /// The edits that take the call of this number back, or the first reason against it.
    pub(crate) fn planned_revert(&self, alloc: A, number: u64) -> Result<Edits<Edit<A>, A>, Refusal>
        ensures fits { IfOk result (λ edits. fits self.now.desk edits ≡ true) }
        ensures does { IfOk result (λ edits. after self.now.desk edits ≡ desk_without self.now number) }
        ensures free { OnOk result (call_refused self.now (CallOf.Revert number) ≡ None) }
        ensures early { OnOk result (early_call_refused self.now (CallOf.Revert number) ≡ None) }
        ensures limit { OnOk result (self.now.version < call_limit) }
        ensures why { IfErr result (λ why. IsReason self.now (CallOf.Revert number) why) }
    {
        let base = match base_of(self.calls(), number) {
            Ok(base) => base,
            Err(why) => return Err(why),
        };
        if log_is_full(self.version()) {
            return Err(Refusal::LogFull);
        }
        self.edits_without(alloc, number, base)
    }

    /// The edits that take the call of this number back, or what stands in the way. The first entries, this many, stay
    /// as they are.
    fn edits_without(
        &self,
        alloc: A,
        number: u64,
        base: usize,
    ) -> Result<Edits<Edit<A>, A>, Refusal>
        requires { base ≡ length (stay number (reverse self.now.history.done)) }
        ensures fits { IfOk result (λ edits. fits self.now.desk edits ≡ true) }
        ensures does { IfOk result (λ edits. after self.now.desk edits ≡ desk_without self.now number) }
        ensures free { OnOk result (late_refused self.now number ≡ None) }
        ensures why { IfErr result (λ why. why ≢ Refusal.OutOfMemory → late_refused self.now number ≡ Some why) }
    {
        let calls = self.calls();
        // Nothing stands behind the newest call, so none is carried out again, and nobody else moves.
        if is_newest(calls, number) {
            return match self.history().undo_edit(alloc) {
                Ok(edits) => Ok(edits),
                Err(_) => Err(Refusal::OutOfMemory),
            };
        }
        let Ok(is_there) = is_in_force(alloc, calls, number) else {
            return Err(Refusal::OutOfMemory);
        };
        if !is_there {
            return Err(Refusal::NotInForce);
        }
        let (_, past) = calls.split_at(base);
        match self.rows_as_if(alloc, past, number, base) {
            Ok(rows) => self.edits_to(alloc, past, number, &rows),
            Err(why) => Err(why),
        }
    }

    /// The edits that lead to these rows, which are those without the call of this number, unless somebody else would
    /// come or go. These entries are gone past.
    fn edits_to(
        &self,
        alloc: A,
        past: &[DeskEntry<A>],
        number: u64,
        rows: &Rows<A>,
    ) -> Result<Edits<Edit<A>, A>, Refusal>
        requires past { reverse past.now ≡ walked number (reverse self.now.history.done) }
        requires rows { rows.now ≡ rows_without self.now number }
        ensures fits { IfOk result (λ edits. fits self.now.desk edits ≡ true) }
        ensures does { IfOk result (λ edits. after self.now.desk edits ≡ desk_without self.now number) }
        ensures free { OnOk result (away_of self.now number ≡ None) }
        ensures first { IfErr result (λ why. why ≢ Refusal.OutOfMemory → away_of self.now number ≡ Some why) }
    {
        // What the calls have led to is known where they are read.
        let _calls = self.calls();
        let now = self.rows();
        let Ok(edit) = difference(alloc, now, rows) else {
            return Err(Refusal::OutOfMemory);
        };
        let Ok(keys) = moved_keys(alloc, now, rows, &edit) else {
            return Err(Refusal::OutOfMemory);
        };
        match no_other_moves(alloc, &keys, past, self.history().done(), number) {
            Ok(()) => in_list(alloc, edit),
            Err(why) => Err(why),
        }
    }

    /// The rows as if the call of this number had never been made, or what stands in the way. The first entries, this
    /// many, stay as they are, and these are behind them.
    fn rows_as_if(
        &self,
        alloc: A,
        past: &[DeskEntry<A>],
        number: u64,
        base: usize,
    ) -> Result<Rows<A>, Refusal>
        requires base { base ≡ length (stay number (reverse self.now.history.done)) }
        requires past { reverse past.now ≡ walked number (reverse self.now.history.done) }
        ensures rows { IfOk result (λ rows. rows ≡ rows_without self.now number) }
        ensures free { OnOk result (way_of self.now number ≡ None) }
        ensures first { IfErr result (λ why. why ≢ Refusal.OutOfMemory → way_of self.now number ≡ Some why) }
    {
        // What the calls have led to is known where they are read.
        let _calls = self.calls();
        let Ok(mut rows) = self.rows_after(alloc, base) else {
            return Err(Refusal::OutOfMemory);
        };
        let Ok(mut struck) = one_number(alloc, number) else {
            return Err(Refusal::OutOfMemory);
        };
        match carry_out_in_force(alloc, &mut rows, past, &mut struck) {
            Ok(()) => Ok(rows),
            Err(why) => Err(why),
        }
    }

    /// A copy of the rows as the first entries, this many, leave them. The only error is out of memory.
    fn rows_after(&self, alloc: A, count: usize) -> Result<Rows<A>, AllocError>
        requires { count ≤ length self.now.done }
        ensures { IfOk result (λ rows. rows ≡ fold after self.now.history.start (take count self.now.done)) }
    {
        let mut copy = Listed::new(ReversibleRows::new(self.rows().copy(alloc)?));
        self.history().take_back_on(&mut copy, count);
        Ok(copy.into_inner().into_rows())
    }
}

/// One edit as a list.
fn in_list<A: Allocator + Copy>(alloc: A, edit: Edit<A>) -> Result<Edits<Edit<A>, A>, Refusal>
    ensures list { IfOk result (λ edits. edits ≡ edit ∷ []) }
    ensures memory { OnErr result (result ≡ Err Refusal.OutOfMemory) }
{
    match one_edit(alloc, edit) {
        Ok(edits) => Ok(edits),
        Err(_) => Err(Refusal::OutOfMemory),
    }
}
