//! A list of edits as one edit.

ghost use Rattle.std.specs.Prelude.{◌≡◌, List, IfOk};
ghost use Rattle.undo_log.specs.Timeline.{all_fit};
ghost use Rattle.undo_log.specs.Lists.{after_all, inverses};
ghost use Rattle.undo_log.specs.laws.ListLaws.{inverses_twice, all_inverses_fit, all_undone, all_stay};

use crate::reversible::Reversible;
use crate::walking::{absorb_all, absorb_each, fit_all, invert_all, take_back};
use std::alloc::{AllocError, Allocator, Global};
use std::marker::Model;

/// Edits that are absorbed and taken back together. Contracts see a list of edits.
// A bare `Vec` would not do. The laws compare edits by equality, and the value of a `Vec` has its capacity and its
// place in memory too, which inverting twice doesn't give back.
#[derive(Drop)]
pub struct Edits<E, A: Allocator = Global> {
    items: Vec<E, A>,
}

impl<E, A: Allocator> Model for Edits<E, A> {
    ghost Value = { List E };

    ghost view = { λ e. e.items.items };
}

impl<E, A: Allocator> Edits<E, A> {
    /// These edits as one.
    pub fn new(items: Vec<E, A>) -> Self
        ensures { result ≡ items.items }
    {
        Self { items }
    }

    /// The edits, in their order.
    pub fn items(&self) -> &[E]
        ensures { result.now ≡ self.now }
    {
        &self.items
    }

    /// The edits, in their order.
    pub fn into_items(self) -> Vec<E, A>
        ensures { result.items ≡ self }
    {
        self.items
    }
}

/// A state that absorbs a list of edits as one edit. Contracts see the state.
///
/// A list fits if each edit fits the state that the edits before it leave. A list that does not fit changes nothing.
#[derive(Drop)]
pub struct Listed<S> {
    inner: S,
}

impl<S> Model for Listed<S> {
    ghost Value = { S };

    ghost view = { λ l. l.inner };
}

impl<S> Listed<S> {
    /// The state, for lists of edits.
    pub fn new(inner: S) -> Self
        ensures { result ≡ inner }
    {
        Self { inner }
    }

    /// The state.
    pub fn inner(&self) -> &S
        ensures { result.now ≡ self.now }
    {
        &self.inner
    }

    /// The state, for edits that are no lists.
    pub fn into_inner(self) -> S
        ensures { result ≡ self }
    {
        self.inner
    }
}

impl<S: Reversible> Reversible for Listed<S> {
    type Edit = Edits<S::Edit, S::Alloc>;

    type Alloc = S::Alloc;

    ghost can_absorb = { all_fit S.can_absorb S.after };

    ghost after = { after_all S.can_absorb S.after };

    ghost inverse = { inverses S.inverse };

    fn fits(&mut self, edit: &Edits<S::Edit, S::Alloc>) -> bool {
        fit_all(&mut self.inner, &edit.items)
    }

    fn absorb(&mut self, edit: &Edits<S::Edit, S::Alloc>) {
        absorb_all(&mut self.inner, &edit.items);
    }

    fn absorb_fitting(&mut self, edit: &Edits<S::Edit, S::Alloc>) {
        absorb_each(&mut self.inner, &edit.items);
    }

    fn absorb_back(&mut self, edit: &Edits<S::Edit, S::Alloc>) {
        take_back(&mut self.inner, &edit.items);
    }

    fn invert(edit: Edits<S::Edit, S::Alloc>) -> Edits<S::Edit, S::Alloc> {
        let mut items = edit.items;
        invert_all::<S>(&mut items);
        Edits { items }
    }

    fn copy(
        alloc: S::Alloc,
        edit: &Edits<S::Edit, S::Alloc>,
    ) -> Result<Edits<S::Edit, S::Alloc>, AllocError> {
        let mut items = Vec::new(alloc);
        for one in &edit.items {
            items.push(S::copy(alloc, one)?)?;
        }
        Ok(Edits { items })
    }

    ghost inverse_twice = { inverses_twice S.inverse S.inverse_twice };

    ghost inverse_fits = { all_inverses_fit S.can_absorb S.after S.inverse S.inverse_fits S.undoes };

    ghost undoes = { all_undone S.can_absorb S.after S.inverse S.inverse_fits S.undoes };

    ghost stays = { all_stay S.can_absorb S.after };
}
