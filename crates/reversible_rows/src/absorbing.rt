//! Rows that absorb edits, and take them back.

ghost use Rattle.std.specs.Prelude.{◌≡◌, refl};
ghost use Rattle.desk_rows.specs.Edit.{inverse};
ghost use Rattle.desk_rows.specs.Exchange.{fits, after};
ghost use Rattle.desk_rows.specs.laws.Laws.{inverse_fits, undoes, stays};

use crate::judging::exchange::fits;
use desk_rows::{Edit, Rows};
use std::alloc::{AllocError, Allocator, Global};
use std::marker::Model;
use undo_log::Reversible;

/// The rows of a desk, as a state of a history. Contracts see the desk.
#[derive(Drop)]
pub struct ReversibleRows<A: Allocator + Copy = Global> {
    rows: Rows<A>,
}

impl<A: Allocator + Copy> Model for ReversibleRows<A> {
    ghost use Rattle.desk_rows.specs.Desk.{Desk};

    ghost Value = { Desk };

    ghost view = { λ r. r.rows };
}

impl<A: Allocator + Copy> ReversibleRows<A> {
    /// These rows, for edits.
    pub fn new(rows: Rows<A>) -> Self
        ensures { result ≡ rows }
    {
        Self { rows }
    }

    /// The rows.
    pub fn rows(&self) -> &Rows<A>
        ensures { result.now ≡ self.now }
    {
        &self.rows
    }

    /// The rows, for those who know that their edits fit.
    pub fn into_rows(self) -> Rows<A>
        ensures { result ≡ self }
    {
        self.rows
    }
}

impl<A: Allocator + Copy> Reversible for ReversibleRows<A> {
    type Edit = Edit<A>;

    type Alloc = A;

    ghost can_absorb = { fits };

    ghost after = { after };

    ghost inverse = { inverse };

    fn fits(&mut self, edit: &Edit<A>) -> bool {
        fits(&self.rows, edit)
    }

    fn absorb(&mut self, edit: &Edit<A>) {
        if self.fits(edit) {
            self.absorb_fitting(edit);
        }
    }

    fn absorb_fitting(&mut self, edit: &Edit<A>) {
        self.rows.absorb_fitting(edit);
    }

    fn absorb_back(&mut self, edit: &Edit<A>) {
        self.rows.absorb_back(edit);
    }

    fn invert(edit: Edit<A>) -> Edit<A> {
        edit.inverted()
    }

    fn copy(alloc: A, edit: &Edit<A>) -> Result<Edit<A>, AllocError> {
        edit.copy(alloc)
    }

    ghost inverse_twice = { λ e. refl };

    ghost inverse_fits = { inverse_fits };

    ghost undoes = { undoes };

    ghost stays = { stays };
}
