//! Entries of the log.

ghost use Rattle.std.specs.Prelude.{◌≡◌, IfOk};
ghost use Rattle.desk_edit.specs.Asked.{asked_by};

use call_history::{AcceptedCall, CallStamp, StampedCall};
use desk_edit::Call;
use std::alloc::{AllocError, Global};
use std::marker::Model;

/// An accepted call, the operator who made it, and when it was accepted under which name.
///
/// Contracts see the operator, what the call asks, and the stamp.
#[derive(Drop)]
pub struct LogEntry {
    op: u32,
    call: Call,
    stamp: CallStamp,
}

impl Model for LogEntry {
    ghost use Rattle.desk_edit.specs.Asked.{asked_by};
    ghost use Rattle.operator_desk.specs.Entry.{EntryOf};

    ghost Value = { EntryOf };

    ghost view = { λ e. record { op = e.op; call = asked_by e.call; stamp = e.stamp } };
}

impl LogEntry {
    pub(crate) fn new(op: u32, call: Call, stamp: CallStamp) -> LogEntry
        ensures { result ≡ record { op = op; call = asked_by call; stamp = stamp } }
    {
        LogEntry { op, call, stamp }
    }

    /// The operator who made the call.
    pub fn op(&self) -> u32
        ensures { result ≡ self.now.op }
    {
        self.op
    }

    /// The call.
    pub fn call(&self) -> &Call
        ensures { asked_by result.now ≡ self.now.call }
    {
        &self.call
    }

    /// The call with its operator, as the accepted call of this number.
    pub(crate) fn accepted(&self, no: u64) -> AcceptedCall<'_>
        ensures { result ≡ record { number = no; op = self.now.op; call = self.now.call } }
    {
        AcceptedCall::new(no, self.op, &self.call)
    }

    /// The same with its stamp.
    pub(crate) fn stamped(&self, no: u64) -> StampedCall<'_>
        ensures { result ≡ record {
          made = record { number = no; op = self.now.op; call = self.now.call };
          stamp = self.now.stamp;
        } }
    {
        StampedCall::new(self.accepted(no), &self.stamp)
    }

    /// The call itself. It uses the entry up.
    pub fn into_call(self) -> Call
        ensures { asked_by result ≡ self.call }
    {
        let LogEntry { call, .. } = self;
        call
    }

    /// The same entry again.
    pub fn copy(&self, alloc: Global) -> Result<LogEntry, AllocError>
        ensures { IfOk result (λ entry. entry ≡ self.now) }
    {
        Ok(LogEntry {
            op: self.op,
            call: copied(alloc, &self.call)?,
            stamp: self.stamp.copy(alloc)?,
        })
    }
}

/// A call that asks the same.
fn copied(alloc: Global, call: &Call) -> Result<Call, AllocError>
    ensures { IfOk result (λ copy. asked_by copy ≡ asked_by call.now) }
{
    match call {
        Call::Apply(command) => Ok(Call::Apply(*command)),
        Call::Group(commands) => {
            let mut parts = Vec::new(alloc);
            parts.extend_from_slice(commands)?;
            Ok(Call::Group(parts))
        }
        Call::Undo { last } => Ok(Call::Undo { last: *last }),
        Call::Redo { last } => Ok(Call::Redo { last: *last }),
        Call::Revert { number } => Ok(Call::Revert { number: *number }),
    }
}
