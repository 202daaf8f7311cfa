//! Judges calls, and plans the edits of commands and groups.

ghost use Rattle.std.specs.Prelude.{◌≡◌, ◌<◌, true, nat_eq, [], ◌∷◌, None, IfOk, IfErr, OnOk};
ghost use Rattle.desk_edit.specs.Commands.{desk_after};
ghost use Rattle.desk_edit.specs.Groups.{desk_after_all};
ghost use Rattle.desk_edit.specs.Asked.{asked_by, CallOf};
ghost use Rattle.desk_edit.specs.Calls.{call_limit};
ghost use Rattle.desk_calls.specs.Edits.{fits, after};
ghost use Rattle.desk_calls.specs.Desk.{call_refused, early_call_refused, IsReason, IsReady};
ghost use Rattle.desk_calls.specs.inner.Memory.{before_memory};

use crate::desk::Desk;
use crate::entry::DeskEntry;
use crate::prepared::Prepared;
use desk_edit::{Call, Command, Refusal, plan, plan_group, size_refused};
use desk_rows::Edit;
use std::alloc::{AllocError, Allocator};
use undo_log::{Edits, LIMIT};

impl<A: Allocator + Copy> Desk<A> {
    /// Judges a call and takes its memory.
    pub(crate) fn judge(&mut self, alloc: A, call: &Call<A>) -> Result<Prepared<A>, Refusal>
        ensures ready { IfOk result (λ prepared. IsReady self.new (asked_by call.now) prepared) }
        ensures why { IfErr result (λ why. IsReason self.old (asked_by call.now) why) }
        ensures same { self.new ≡ record self.old { spare = self.new.spare } }
    {
        match call {
            Call::Apply(command) => self.judge_command(alloc, command),
            Call::Group(commands) => self.judge_group(alloc, commands),
            Call::Undo { last } => self.judge_undo(*last),
            Call::Redo { last } => self.judge_redo(*last),
            Call::Revert { number } => self.judge_revert(alloc, *number),
        }
    }

    fn judge_command(&mut self, alloc: A, command: &Command) -> Result<Prepared<A>, Refusal>
        ensures ready { IfOk result (λ prepared. IsReady self.new (CallOf.Apply command.now) prepared) }
        ensures why { IfErr result (λ why. IsReason self.old (CallOf.Apply command.now) why) }
        ensures same { self.new ≡ record self.old { spare = self.new.spare } }
    {
        let edits = self.planned(alloc, command)?;
        self.reserve()?;
        let entry = DeskEntry::of_command(self.next_number(), command);
        Ok(Prepared::Apply(edits, entry))
    }

    fn judge_group(&mut self, alloc: A, commands: &[Command]) -> Result<Prepared<A>, Refusal>
        ensures ready { IfOk result (λ prepared. IsReady self.new (CallOf.Group commands.now) prepared) }
        ensures why { IfErr result (λ why. IsReason self.old (CallOf.Group commands.now) why) }
        ensures same { self.new ≡ record self.old { spare = self.new.spare } }
    {
        let edits = self.planned_group(alloc, commands)?;
        self.reserve()?;
        match DeskEntry::of_group(alloc, self.next_number(), commands) {
            Ok(entry) => Ok(Prepared::Apply(edits, entry)),
            Err(_) => Err(Refusal::OutOfMemory),
        }
    }

    fn judge_revert(&mut self, alloc: A, number: u64) -> Result<Prepared<A>, Refusal>
        ensures ready { IfOk result (λ prepared. IsReady self.new (CallOf.Revert number) prepared) }
        ensures why { IfErr result (λ why. IsReason self.old (CallOf.Revert number) why) }
        ensures same { self.new ≡ record self.old { spare = self.new.spare } }
    {
        let edits = self.planned_revert(alloc, number)?;
        self.reserve()?;
        let entry = DeskEntry::of_revert(self.next_number(), number);
        Ok(Prepared::Apply(edits, entry))
    }

    /// The edits that carry the command out, or the first reason against it.
    pub(crate) fn planned(&self, alloc: A, command: &Command) -> Result<Edits<Edit<A>, A>, Refusal>
        ensures fits { IfOk result (λ edits. fits self.now.desk edits ≡ true) }
        ensures does { IfOk result (λ edits. after self.now.desk edits ≡ desk_after self.now.desk command.now) }
        ensures free { OnOk result (call_refused self.now (CallOf.Apply command.now) ≡ None) }
        ensures limit { OnOk result (self.now.version < call_limit) }
        ensures why { IfErr result (λ why. IsReason self.now (CallOf.Apply command.now) why) }
    {
        let version = self.version();
        let edit = match plan(alloc, self.rows(), command) {
            Ok(edit) => edit,
            Err(why) => return Err(before_memory(why, version)),
        };
        if log_is_full(version) {
            return Err(Refusal::LogFull);
        }
        let Ok(edits) = one_edit(alloc, edit) else {
            return Err(Refusal::OutOfMemory);
        };
        Ok(edits)
    }

    /// The edits that carry the group out, or the first reason against it.
    pub(crate) fn planned_group(
        &self,
        alloc: A,
        commands: &[Command],
    ) -> Result<Edits<Edit<A>, A>, Refusal>
        ensures fits { IfOk result (λ edits. fits self.now.desk edits ≡ true) }
        ensures does { IfOk result (λ edits. after self.now.desk edits ≡ desk_after_all self.now.desk commands.now) }
        ensures free { OnOk result (call_refused self.now (CallOf.Group commands.now) ≡ None) }
        ensures early { OnOk result (early_call_refused self.now (CallOf.Group commands.now) ≡ None) }
        ensures limit { OnOk result (self.now.version < call_limit) }
        ensures why { IfErr result (λ why. IsReason self.now (CallOf.Group commands.now) why) }
    {
        if let Some(why) = size_refused(commands.len()) {
            return Err(why.refusal());
        }
        if log_is_full(self.version()) {
            return Err(Refusal::LogFull);
        }
        match plan_group(alloc, self.rows(), commands) {
            Ok(edits) => Ok(Edits::new(edits)),
            Err(why) => Err(why.refusal()),
        }
    }
}

/// One edit as a list.
pub(crate) fn one_edit<A: Allocator + Copy>(
    alloc: A,
    edit: Edit<A>,
) -> Result<Edits<Edit<A>, A>, AllocError>
    ensures { IfOk result (λ edits. edits ≡ edit ∷ []) }
{
    let mut items = Vec::with_capacity(alloc, 1)?;
    items.push_reserved(edit);
    Ok(Edits::new(items))
}

/// Whether as many calls were accepted as the log can hold.
pub(crate) fn log_is_full(version: u64) -> bool
    ensures { result ≡ nat_eq version call_limit }
{
    version == LIMIT as u64
}

/// A full log is told before out of memory.
fn before_memory(why: Refusal, version: u64) -> Refusal
    ensures { result ≡ before_memory why version }
{
    match why {
        Refusal::OutOfMemory if log_is_full(version) => Refusal::LogFull,
        _ => why,
    }
}
