//! What a call of the history did.

ghost use Rattle.std.specs.Prelude.{◌≡◌, ◌≤◌, IfOk, OnOk, ◌∷◌, [], not, length};
ghost use Rattle.desk_edit.specs.InForce.{carries, struck_by, commands_of, taken_back, lower, carried_out, took_back};
ghost use Rattle.desk_edit.specs.Reasons.{group_limit};
ghost use Rattle.desk_edit.specs.Reverts.{weight};

use desk_edit::Command;
use std::alloc::{AllocError, Allocator, Global};
use std::marker::Model;
use std::slice;

/// What is kept of a call.
#[derive(Drop)]
enum Did<A: Allocator> {
    Command(Command),
    Group(Vec<Command, A>),
    /// The number of the call that was taken back.
    Revert(u64),
}

/// An entry of the history: the number of its call, and what that did. It carried commands out, or took a call back.
#[derive(Drop)]
pub struct DeskEntry<A: Allocator = Global> {
    number: u64,
    kept: Did<A>,
}

impl<A: Allocator> Model for DeskEntry<A> {
    ghost use Rattle.std.specs.Prelude.{◌≤◌, length};
    ghost use Rattle.desk_edit.specs.InForce.{Entry, commands_of};
    ghost use Rattle.desk_edit.specs.Reasons.{group_limit};
    ghost use Rattle.desk_calls.specs.inner.Kept.{deed_of};

    ghost Value = { Entry };

    ghost view = { λ e. record { number = e.number; deed = deed_of e.kept } };

    ghost invariant = { λ e. length (commands_of (deed_of e.kept)) ≤ group_limit };
}

impl<A: Allocator + Copy> DeskEntry<A> {
    /// The entry of a command.
    pub(crate) fn of_command(number: u64, command: &Command) -> Self
        ensures { result ≡ carried_out number (command.now ∷ []) }
    {
        Self {
            number,
            kept: Did::Command(*command),
        }
    }

    /// The entry of a group. The only error is out of memory.
    pub(crate) fn of_group(alloc: A, number: u64, commands: &[Command]) -> Result<Self, AllocError>
        requires { length commands.now ≤ group_limit }
        ensures { IfOk result (λ entry. entry ≡ carried_out number commands.now) }
    {
        Ok(Self {
            number,
            kept: Did::Group(Vec::from_slice(alloc, commands)?),
        })
    }

    /// The entry of a revert.
    pub(crate) fn of_revert(number: u64, taken: u64) -> Self
        ensures { result ≡ took_back number taken }
    {
        Self {
            number,
            kept: Did::Revert(taken),
        }
    }

    /// The number of its call.
    pub fn number(&self) -> u64
        ensures { result ≡ self.now.number }
    {
        self.number
    }

    /// The commands that it carried out. A revert has none.
    pub fn commands(&self) -> &[Command]
        ensures commands { result.now ≡ commands_of self.now.deed }
        ensures few { length result.now ≤ group_limit }
    {
        match &self.kept {
            Did::Command(command) => slice::from_ref(command),
            Did::Group(commands) => commands,
            Did::Revert(_) => &[],
        }
    }

    /// The number of the call that it took back.
    pub fn taken_back(&self) -> Option<u64>
        ensures { result ≡ taken_back self.now.deed }
    {
        match &self.kept {
            Did::Revert(number) => Some(*number),
            Did::Command(_) | Did::Group(_) => None,
        }
    }

    /// How much it counts for a revert that goes past it: its commands, or one for a revert.
    pub(crate) fn weight(&self) -> usize
        ensures { result ≡ weight self.now.deed }
    {
        match &self.kept {
            Did::Command(_) | Did::Revert(_) => 1,
            Did::Group(commands) => commands.len(),
        }
    }

    /// The lower one of this number and of the call that it took back.
    pub(crate) fn lower(&self, low: u64) -> u64
        ensures { result ≡ lower self.now.deed low }
    {
        match &self.kept {
            Did::Revert(number) => (*number).min(low),
            Did::Command(_) | Did::Group(_) => low,
        }
    }

    /// Whether it took a call back.
    pub(crate) fn is_revert(&self) -> bool
        ensures { result ≡ not (carries self.now.deed) }
    {
        match &self.kept {
            Did::Revert(_) => true,
            Did::Command(_) | Did::Group(_) => false,
        }
    }

    /// Puts the number of the call that it took back in front of those that are struck. The only error is out of
    /// memory.
    pub(crate) fn strike<B: Allocator>(&self, struck: &mut Vec<u64, B>) -> Result<(), AllocError>
        ensures { OnOk result (struck.new.items ≡ struck_by self.now.deed struck.old.items) }
    {
        match &self.kept {
            Did::Revert(number) => {
                struck.insert(0, *number)?;
                Ok(())
            }
            Did::Command(_) | Did::Group(_) => Ok(()),
        }
    }
}
