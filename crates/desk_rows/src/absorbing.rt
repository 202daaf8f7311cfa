//! Rows absorb edits that fit, and take them back.

ghost use Rattle.std.specs.Prelude.{◌≡◌, true};
ghost use Rattle.desk_rows.specs.Edit.{inverse};
ghost use Rattle.desk_rows.specs.Exchange.{fits, after};

use crate::borrowed::EditLists;
use crate::edit::Edit;
use crate::rows::Rows;
use std::alloc::Allocator;

impl<A: Allocator + Copy> Rows<A> {
    /// Absorbs an edit that fits. It takes no memory.
    pub fn absorb_fitting(&mut self, edit: &Edit<A>)
        requires { fits self.old edit.now ≡ true }
        ensures { self.new ≡ after self.old edit.now }
    {
        self.exchange(&EditLists::of(edit));
    }

    /// Absorbs the inverse of an edit, which must fit, without building the inverse. It takes no memory.
    pub fn absorb_back(&mut self, edit: &Edit<A>)
        requires { fits self.old (inverse edit.now) ≡ true }
        ensures { self.new ≡ after self.old (inverse edit.now) }
    {
        self.exchange(&EditLists::back(edit));
    }
}
