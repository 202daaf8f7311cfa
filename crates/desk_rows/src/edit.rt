//! Edits: the rows that they take, put and replace.

ghost use Rattle.std.specs.Prelude.{◌≡◌, [], IfOk};

use crate::row::{Member, Row};
use std::alloc::{AllocError, Allocator, Global};
use std::marker::Model;

/// A member row with its place.
#[derive(Clone, Copy)]
pub struct Placed {
    /// The place in joining order, from 0 on.
    pub place: usize,
    /// The member.
    pub row: Member,
}

/// The rows that an edit takes, or those that it puts.
#[derive(Drop)]
pub struct Part<A: Allocator + Copy = Global> {
    members: Vec<Placed, A>,
    others: Vec<Row, A>,
}

impl<A: Allocator + Copy> Model for Part<A> {
    ghost use Rattle.desk_rows.specs.Edit.{PartOf};

    ghost Value = { PartOf };

    ghost view = { λ p. record { members = p.members.items; others = p.others.items } };
}

impl<A: Allocator + Copy> Part<A> {
    /// These rows. An edit fits only if the members stand by rising place, and the others in the order of kinds and
    /// keys.
    pub fn new(members: Vec<Placed, A>, others: Vec<Row, A>) -> Self
        ensures { result ≡ record { members = members.items; others = others.items } }
    {
        Self { members, others }
    }

    /// No rows.
    pub fn none(alloc: A) -> Self
        ensures { result ≡ record { members = []; others = [] } }
    {
        Self {
            members: Vec::new(alloc),
            others: Vec::new(alloc),
        }
    }

    fn copy(&self, alloc: A) -> Result<Self, AllocError>
        ensures { IfOk result (λ part. part ≡ self.now) }
    {
        Ok(Self {
            members: Vec::from_slice(alloc, &self.members)?,
            others: Vec::from_slice(alloc, &self.others)?,
        })
    }
}

/// Rows that an edit replaces by rows of the same keys. Both lists are in the order of kinds and keys. Members are not
/// among them.
#[derive(Drop)]
pub struct Replaced<A: Allocator + Copy = Global> {
    old: Vec<Row, A>,
    new: Vec<Row, A>,
}

impl<A: Allocator + Copy> Model for Replaced<A> {
    ghost use Rattle.desk_rows.specs.Edit.{ReplacedOf};

    ghost Value = { ReplacedOf };

    ghost view = { λ r. record { old = r.old.items; new = r.new.items } };
}

impl<A: Allocator + Copy> Replaced<A> {
    /// Replaces each row of `old` by the row at the same place of `new`.
    pub fn new(old: Vec<Row, A>, new: Vec<Row, A>) -> Self
        ensures { result ≡ record { old = old.items; new = new.items } }
    {
        Self { old, new }
    }

    /// No rows.
    pub fn none(alloc: A) -> Self
        ensures { result ≡ record { old = []; new = [] } }
    {
        Self {
            old: Vec::new(alloc),
            new: Vec::new(alloc),
        }
    }

    fn copy(&self, alloc: A) -> Result<Self, AllocError>
        ensures { IfOk result (λ replaced. replaced ≡ self.now) }
    {
        Ok(Self {
            old: Vec::from_slice(alloc, &self.old)?,
            new: Vec::from_slice(alloc, &self.new)?,
        })
    }
}

/// An edit of the rows of a desk. A member row that changes is taken and put at one place.
// Members stand in lists of their own, with their places: an undo brings a member's place back, and no key has it. The
// inverse only exchanges parts.
#[derive(Drop)]
pub struct Edit<A: Allocator + Copy = Global> {
    /// The rows that go, members with their places before.
    pub taken: Part<A>,
    /// The rows that come, members with their places afterwards.
    pub put: Part<A>,
    /// The rows that are replaced.
    pub replaced: Replaced<A>,
}

impl<A: Allocator + Copy> Model for Edit<A> {
    ghost use Rattle.desk_rows.specs.Edit.{EditOf};

    ghost Value = { EditOf };

    ghost view = { λ e. record { taken = e.taken; put = e.put; replaced = e.replaced } };
}

impl<A: Allocator + Copy> Edit<A> {
    ghost use Rattle.std.specs.Prelude.{◌≡◌, IfOk};
    ghost use Rattle.desk_rows.specs.Edit.{inverse};

    /// The members that go, with their places before.
    pub fn taken_members(&self) -> &[Placed]
        ensures { result.now ≡ self.now.taken.members }
    {
        let taken = &self.taken;
        &taken.members
    }

    /// The other rows that go.
    pub fn taken_others(&self) -> &[Row]
        ensures { result.now ≡ self.now.taken.others }
    {
        let taken = &self.taken;
        &taken.others
    }

    /// The members that come, with their places afterwards.
    pub fn put_members(&self) -> &[Placed]
        ensures { result.now ≡ self.now.put.members }
    {
        let put = &self.put;
        &put.members
    }

    /// The other rows that come.
    pub fn put_others(&self) -> &[Row]
        ensures { result.now ≡ self.now.put.others }
    {
        let put = &self.put;
        &put.others
    }

    /// The rows that are replaced.
    pub fn old(&self) -> &[Row]
        ensures { result.now ≡ self.now.replaced.old }
    {
        let replaced = &self.replaced;
        &replaced.old
    }

    /// The rows in their stead.
    pub fn new(&self) -> &[Row]
        ensures { result.now ≡ self.now.replaced.new }
    {
        let replaced = &self.replaced;
        &replaced.new
    }

    /// The edit that takes this one back.
    pub fn inverted(self) -> Self
        ensures { result ≡ inverse self }
    {
        Self {
            taken: self.put,
            put: self.taken,
            replaced: Replaced {
                old: self.replaced.new,
                new: self.replaced.old,
            },
        }
    }

    /// A copy. The only error is out of memory.
    pub fn copy(&self, alloc: A) -> Result<Self, AllocError>
        ensures { IfOk result (λ edit. edit ≡ self.now) }
    {
        Ok(Self {
            taken: self.taken.copy(alloc)?,
            put: self.put.copy(alloc)?,
            replaced: self.replaced.copy(alloc)?,
        })
    }
}
