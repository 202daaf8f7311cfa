//! The desk, and the two halves of a call.

ghost use Rattle.std.specs.Prelude.{◌≡◌, ◌+◌, ◌++◌, ◌∷◌, ◌<◌, ◌≤◌, true, [], length, None, IfOk, IfErr, OnOk, OnErr};
ghost use Rattle.desk_rows.specs.Desk.{good};
ghost use Rattle.desk_edit.specs.Asked.{asked_by, CallOf};
ghost use Rattle.desk_edit.specs.InForce.{desk_in_force, numbers_rise};
ghost use Rattle.desk_edit.specs.Calls.{call_limit, CallHistory, no_calls, after_call, with_entry, with_undo};
ghost use Rattle.desk_edit.specs.Calls.{with_redo, refusal_of};
ghost use Rattle.desk_calls.specs.Edits.{fits, after};
ghost use Rattle.desk_calls.specs.Desk.{DeskOf, IsReason, IsReady, Does, UndoesEdit, RedoesEdit};
ghost use Rattle.desk_calls.specs.Following.{HasCalled, IsTold};

use crate::entries::Entries;
use crate::entry::DeskEntry;
use crate::judging::log_is_full;
use crate::prepared::Prepared;
use desk_edit::{Call, Refusal};
use desk_rows::{Edit, Rows};
use reversible_rows::ReversibleRows;
use std::alloc::{AllocError, Allocator, Global};
use std::marker::Model;
use undo_log::{Edits, History, Listed, Reversible};

/// The rows of a desk with the history of its calls. Version n is the desk after n accepted calls.
///
/// A call has two halves. [`prepare`](Self::prepare) judges it, takes all memory that it needs, and changes no row.
/// [`commit`](Self::commit) then carries it out without memory. Between the two a caller can publish what
/// [`edit_of`](Self::edit_of) returns, or give the call up.
#[derive(Drop)]
pub struct Desk<A: Allocator + Copy = Global> {
    version: u64,
    history: History<Listed<ReversibleRows<A>>>,
    /// What the calls did whose edits the history keeps.
    entries: Entries<A>,
}

impl<A: Allocator + Copy> Model for Desk<A> {
    ghost use Rattle.desk_calls.specs.Desk.{DeskOf};
    ghost use Rattle.desk_calls.specs.inner.Sound.{IsSound, desk_seen};

    ghost Value = { DeskOf };

    ghost view = { λ d. desk_seen d.version d.history d.entries };

    ghost invariant = { λ d. IsSound (desk_seen d.version d.history d.entries) };
}

impl<A: Allocator + Copy> Desk<A> {
    /// The desk before any call.
    pub fn new(alloc: A, rows: Rows<A>) -> Self
        ensures begins { HasCalled result (no_calls rows) }
        ensures lists { (result.done ≡ []) × (result.undone ≡ []) }
    {
        // Rows are good, which is known where the members are read.
        let _members = rows.members();
        Self {
            version: 0,
            history: History::new(alloc, Listed::new(ReversibleRows::new(rows))),
            entries: Entries::new(alloc),
        }
    }

    /// The rows of the desk.
    pub fn rows(&self) -> &Rows<A>
        ensures rows { result.now ≡ self.now.desk }
        ensures good { good self.now.desk ≡ true }
    {
        self.history.state().inner().rows()
    }

    /// How many calls were accepted, 0 to 1,048,576.
    pub fn version(&self) -> u64
        ensures version { result ≡ self.now.version }
        ensures limit { result ≤ call_limit }
    {
        self.version
    }

    /// The number of the next call.
    pub(crate) fn next_number(&self) -> u64
        ensures { result ≡ self.now.history.accepted + 1 }
    {
        self.version + 1
    }

    /// What the calls did that are done, oldest first.
    pub(crate) fn calls(&self) -> &[DeskEntry<A>]
        ensures calls { result.now ≡ self.now.history.done }
        ensures rise { numbers_rise result.now ≡ true }
        ensures called { HasCalled self.now self.now.history }
    {
        self.entries.done()
    }

    /// The edits of the calls.
    pub(crate) fn history(&self) -> &History<Listed<ReversibleRows<A>>>
        ensures start { result.now.start ≡ self.now.history.start }
        ensures state { result.now.state ≡ self.now.desk }
        ensures done { result.now.done ≡ self.now.done }
    {
        &self.history
    }

    /// Judges a call and takes all memory that it needs, or returns the first reason against it. The rows and what is
    /// done and undone don't change.
    ///
    /// The reasons are checked in this order:
    ///
    /// - a command: what [`plan`](desk_edit::plan) finds, a full log, out of memory;
    /// - a group: its size, a full log, then what [`plan_group`](desk_edit::plan_group) finds, which may be out of
    ///   memory;
    /// - an undo or a redo: a newer call, nothing to undo or redo, a full log. It is never out of memory;
    /// - a revert: a call that isn't done or lies too far back, a full log, a call that was taken back, what stands in
    ///   the way, out of memory.
    pub fn prepare(&mut self, alloc: A, call: &Call<A>) -> Result<Prepared<A>, Refusal>
        ensures ready { IfOk result (λ prepared. IsReady self.new (asked_by call.now) prepared) }
        ensures free { OnOk result ((h : CallHistory) → HasCalled self.old h →
            refusal_of h (asked_by call.now) ≡ None) }
        ensures why { IfErr result (λ why. IsReason self.old (asked_by call.now) why) }
        ensures told { IfErr result (λ why. (h : CallHistory) → HasCalled self.old h →
            IsTold h (asked_by call.now) why) }
        ensures same { self.new ≡ record self.old { spare = self.new.spare } }
        ensures good { good self.new.desk ≡ true }
        ensures history { (h : CallHistory) → HasCalled self.old h → HasCalled self.new h }
    {
        // A desk is good, which is known where a field is read.
        let _version = self.version;
        self.judge(alloc, call)
    }

    /// Takes the memory of one more entry of the history.
    pub(crate) fn reserve(&mut self) -> Result<(), Refusal>
        ensures capacity { OnOk result (0 < self.new.spare) }
        ensures memory { OnErr result (result ≡ Err Refusal.OutOfMemory) }
        ensures same { self.new ≡ record self.old { spare = self.new.spare } }
    {
        // No more calls are done than were accepted, so a log that was judged has capacity.
        if self.history.reserve().is_err() {
            return Err(Refusal::OutOfMemory);
        }
        match self.entries.reserve() {
            Ok(()) => Ok(()),
            Err(_) => Err(Refusal::OutOfMemory),
        }
    }

    pub(crate) fn judge_undo(&self, last: u64) -> Result<Prepared<A>, Refusal>
        ensures ready { IfOk result (λ prepared. IsReady self.now (CallOf.Undo last) prepared) }
        ensures why { IfErr result (λ why. IsReason self.now (CallOf.Undo last) why) }
    {
        let version = self.version;
        if last != version {
            return Err(Refusal::NewerCommand { last: version });
        }
        if self.history.done_len() == 0 {
            return Err(Refusal::NothingToUndo);
        }
        if log_is_full(version) {
            return Err(Refusal::LogFull);
        }
        Ok(Prepared::Undo)
    }

    pub(crate) fn judge_redo(&self, last: u64) -> Result<Prepared<A>, Refusal>
        ensures ready { IfOk result (λ prepared. IsReady self.now (CallOf.Redo last) prepared) }
        ensures why { IfErr result (λ why. IsReason self.now (CallOf.Redo last) why) }
    {
        let version = self.version;
        if last != version {
            return Err(Refusal::NewerCommand { last: version });
        }
        if self.history.undone_len() == 0 {
            return Err(Refusal::NothingToRedo);
        }
        if log_is_full(version) {
            return Err(Refusal::LogFull);
        }
        Ok(Prepared::Redo)
    }

    /// A copy of the edits that `commit` will absorb, to be published. The only error is out of memory.
    pub fn edit_of(
        &self,
        alloc: A,
        call: &Call<A>,
        prepared: &Prepared<A>,
    ) -> Result<Edits<Edit<A>, A>, AllocError>
        requires { IsReady self.now (asked_by call.now) prepared.now }
        ensures leads { IfOk result (λ edits.
            (new : DeskOf) → Does self.now new (asked_by call.now) → after self.now.desk edits ≡ new.desk) }
        ensures fit { IfOk result (λ edits. fits self.now.desk edits ≡ true) }
    {
        // Each edit that is done or undone fits the desk that it stands behind.
        self.history.known();
        match prepared {
            Prepared::Apply(edits, _) => <Listed<ReversibleRows<A>> as Reversible>::copy(
                alloc, edits,
            ),
            Prepared::Undo => match self.history.undo_edit(alloc) {
                Ok(edits) => Ok(edits),
                Err(_) => Err(AllocError),
            },
            Prepared::Redo => match self.history.redo_edit(alloc) {
                Ok(edits) => Ok(edits),
                Err(_) => Err(AllocError),
            },
        }
    }

    /// Carries out a call that was prepared, without memory. Returns its number, 1 to 1,048,576.
    pub fn commit(&mut self, call: &Call<A>, prepared: Prepared<A>) -> u64
        requires { IsReady self.old (asked_by call.now) prepared }
        ensures does { Does self.old self.new (asked_by call.now) }
        ensures version { (result ≡ self.old.version + 1) × (self.new.version ≡ result) }
        ensures turns { self.new.history ≡ after_call self.old.history (asked_by call.now) }
        ensures history { (h : CallHistory) → HasCalled self.old h →
            HasCalled self.new (after_call h (asked_by call.now)) }
        ensures good { good self.new.desk ≡ true }
    {
        self.carry_out(call, prepared);
        self.version
    }

    fn carry_out(&mut self, call: &Call<A>, prepared: Prepared<A>)
        requires { IsReady self.old (asked_by call.now) prepared }
        ensures does { Does self.old self.new (asked_by call.now) }
        ensures version { self.new.version ≡ self.old.version + 1 }
        ensures turns { self.new.history ≡ after_call self.old.history (asked_by call.now) }
    {
        // What calls have led to is known where a field is read.
        let _version = self.version;
        match prepared {
            Prepared::Apply(edits, entry) => self.apply(edits, entry),
            Prepared::Undo => self.undo(),
            Prepared::Redo => self.redo(),
        }
    }

    fn apply(&mut self, edits: Edits<Edit<A>, A>, entry: DeskEntry<A>)
        requires fits { fits self.old.desk edits ≡ true }
        requires capacity { (0 < self.old.spare) × (self.old.version < call_limit) }
        requires number { entry.number ≡ self.old.version + 1 }
        requires leads { after self.old.desk edits
            ≡ desk_in_force self.old.history.start (self.old.history.done ++ entry ∷ []) }
        ensures does { (self.new.desk ≡ after self.old.desk edits)
            × (self.new.done ≡ self.old.done ++ edits ∷ [])
            × (self.new.undone ≡ []) }
        ensures version { self.new.version ≡ self.old.version + 1 }
        ensures turns { self.new.history ≡ with_entry self.old.history entry }
    {
        // The history has the capacity for the edits, and no more calls are done than were accepted.
        if self.history.push(edits).is_err() {
            unreachable!();
        }
        self.entries.push(entry);
        self.version += 1;
    }

    fn undo(&mut self)
        requires some { (0 < length self.old.done) × (self.old.version < call_limit) }
        ensures does { UndoesEdit self.old self.new }
        ensures version { self.new.version ≡ self.old.version + 1 }
        ensures turns { self.new.history ≡ with_undo self.old.history }
    {
        if self.history.undo().is_err() {
            unreachable!();
        }
        self.entries.undo();
        self.version += 1;
    }

    fn redo(&mut self)
        requires some { (0 < length self.old.undone) × (self.old.version < call_limit) }
        ensures does { RedoesEdit self.old self.new }
        ensures version { self.new.version ≡ self.old.version + 1 }
        ensures turns { self.new.history ≡ with_redo self.old.history }
    {
        if self.history.redo().is_err() {
            unreachable!();
        }
        self.entries.redo();
        self.version += 1;
    }
}
