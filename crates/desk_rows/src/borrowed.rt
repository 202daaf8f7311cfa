//! An edit that is read forwards or backwards.

ghost use Rattle.std.specs.Prelude.{◌≡◌};
ghost use Rattle.desk_rows.specs.Edit.{inverse};

use crate::edit::{Edit, Placed};
use crate::row::Row;
use std::alloc::Allocator;
use std::marker::Model;

/// The lists of an edit, borrowed. Read backwards they are those of its inverse, which need not be built. Contracts see
/// an edit.
#[derive(Drop)]
pub(crate) struct EditLists<'a> {
    taken_members: &'a [Placed],
    taken_others: &'a [Row],
    put_members: &'a [Placed],
    put_others: &'a [Row],
    old: &'a [Row],
    new: &'a [Row],
}

impl<'a> Model for EditLists<'a> {
    ghost use Rattle.desk_rows.specs.Edit.{EditOf};

    ghost Value = { EditOf };

    ghost view = { λ e. record {
      taken = record { members = e.taken_members.now; others = e.taken_others.now };
      put = record { members = e.put_members.now; others = e.put_others.now };
      replaced = record { old = e.old.now; new = e.new.now };
    } };
}

impl<'a> EditLists<'a> {
    /// The lists of the edit.
    pub(crate) fn of<A: Allocator + Copy>(edit: &'a Edit<A>) -> Self
        ensures { result ≡ edit.now }
    {
        Self {
            taken_members: edit.taken_members(),
            taken_others: edit.taken_others(),
            put_members: edit.put_members(),
            put_others: edit.put_others(),
            old: edit.old(),
            new: edit.new(),
        }
    }

    /// The lists of its inverse.
    pub(crate) fn back<A: Allocator + Copy>(edit: &'a Edit<A>) -> Self
        ensures { result ≡ inverse edit.now }
    {
        Self {
            taken_members: edit.put_members(),
            taken_others: edit.put_others(),
            put_members: edit.taken_members(),
            put_others: edit.taken_others(),
            old: edit.new(),
            new: edit.old(),
        }
    }

    pub(crate) fn taken_members(&self) -> &'a [Placed]
        ensures { result.now ≡ self.now.taken.members }
    {
        self.taken_members
    }

    pub(crate) fn taken_others(&self) -> &'a [Row]
        ensures { result.now ≡ self.now.taken.others }
    {
        self.taken_others
    }

    pub(crate) fn put_members(&self) -> &'a [Placed]
        ensures { result.now ≡ self.now.put.members }
    {
        self.put_members
    }

    pub(crate) fn put_others(&self) -> &'a [Row]
        ensures { result.now ≡ self.now.put.others }
    {
        self.put_others
    }

    pub(crate) fn old(&self) -> &'a [Row]
        ensures { result.now ≡ self.now.replaced.old }
    {
        self.old
    }

    pub(crate) fn new(&self) -> &'a [Row]
        ensures { result.now ≡ self.now.replaced.new }
    {
        self.new
    }
}
