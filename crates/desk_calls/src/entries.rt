//! The entries of the history that are done, and those that are undone.

ghost use Rattle.std.specs.Prelude.{◌≡◌, ◌+◌, ◌++◌, ◌∷◌, [], ◌<◌, ◌≤◌, IsOk, OnOk};
ghost use Rattle.desk_edit.specs.Calls.{front, final};

use crate::entry::DeskEntry;
use std::alloc::{AllocError, Allocator};
use std::marker::Model;

/// The entries of the history, which move as their edits do.
#[derive(Drop)]
pub(crate) struct Entries<A: Allocator + Copy> {
    done: Vec<DeskEntry<A>, A>,
    undone: Vec<DeskEntry<A>, A>,
}

impl<A: Allocator + Copy> Model for Entries<A> {
    ghost use Rattle.std.specs.Prelude.{◌+◌, ◌-◌, ◌≤◌, min, vec_len, vec_capacity};
    ghost use Rattle.desk_calls.specs.inner.Kept.{EntriesOf};

    ghost Value = { EntriesOf };

    ghost view = { λ e. record {
      done = e.done.items;
      undone = e.undone.items;
      spare = min (vec_capacity e.done) (vec_capacity e.undone) - (vec_len e.done + vec_len e.undone);
    } };

    ghost invariant = { λ e.
        (vec_len e.done + vec_len e.undone ≤ vec_capacity e.done)
        × (vec_len e.done + vec_len e.undone ≤ vec_capacity e.undone) };
}

impl<A: Allocator + Copy> Entries<A> {
    /// No entries. They take no memory.
    pub(crate) fn new(alloc: A) -> Self
        ensures done { result.done ≡ [] }
        ensures undone { result.undone ≡ [] }
    {
        Self {
            done: Vec::new(alloc),
            undone: Vec::new(alloc),
        }
    }

    /// Reserves memory for one more entry. The only error is out of memory.
    pub(crate) fn reserve(&mut self) -> Result<(), AllocError>
        ensures ok { OnOk result (0 < self.new.spare) }
        ensures same { self.new ≡ record self.old { spare = self.new.spare } }
    {
        let undone = self.undone.len();
        self.done.reserve(undone + 1)?;
        let done = self.done.len();
        self.undone.reserve(done + 1)
    }

    /// Adds the entry of a call that is done now, and forgets those that were undone. It takes no memory.
    pub(crate) fn push(&mut self, entry: DeskEntry<A>)
        requires { 0 < self.old.spare }
        ensures done { self.new.done ≡ self.old.done ++ entry ∷ [] }
        ensures undone { self.new.undone ≡ [] }
    {
        self.done.push_reserved(entry);
        self.undone.clear();
    }

    /// The last entry that is done is undone. It takes no memory.
    pub(crate) fn undo(&mut self)
        ensures done { self.new.done ≡ front self.old.done }
        ensures undone { self.new.undone ≡ self.old.undone ++ final self.old.done }
        ensures spare { self.new.spare ≡ self.old.spare }
    {
        if let Some(last) = self.done.pop() {
            self.undone.push_reserved(last);
        }
    }

    /// The entry that was undone last is done again. It takes no memory.
    pub(crate) fn redo(&mut self)
        ensures done { self.new.done ≡ self.old.done ++ final self.old.undone }
        ensures undone { self.new.undone ≡ front self.old.undone }
        ensures spare { self.new.spare ≡ self.old.spare }
    {
        if let Some(last) = self.undone.pop() {
            self.done.push_reserved(last);
        }
    }

    /// Those that are done, oldest first.
    pub(crate) fn done(&self) -> &[DeskEntry<A>]
        ensures { result.now ≡ self.now.done }
    {
        &self.done
    }
}
