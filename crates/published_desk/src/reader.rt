//! Readers, which wait for nobody.

ghost use Rattle.std.specs.Prelude.{◌≡◌, ◌⊎◌, length, IfOk, IfErr};
ghost use mathlib.Core.List.{IsPrefix};
ghost use Rattle.published_desk.specs.Published.{after_lists};

use crate::edition::Edition;
use crate::notice::Notice;
use crate::rule::{Follows, Looks, Sight};
use desk_rows::Rows;
use left_right::reader::{Reader, Reading};
use std::marker::Model;

/// A reader between two entries.
///
/// Contracts see the first desk, and the lists that each later entry has seen.
#[derive(Drop)]
pub struct LaneReader {
    pub(crate) inner: Reader<Edition, Option<Sight<Rows, Notice>>, Follows>,
    pub(crate) known: Notice,
}

impl Model for LaneReader {
    ghost use Rattle.left_right.specs.Sides.{view as sight_of};
    ghost use Rattle.published_desk.specs.Published.{ReaderOf};
    ghost use Rattle.published_desk.specs.inner.ReaderRule.{IsOf, reader_of};

    ghost Value = { ReaderOf };

    ghost view = { λ r. reader_of r.known (sight_of r.inner.place) };

    ghost invariant = { λ r. IsOf r.known.publisher (sight_of r.inner.place) };
}

/// A version that a reader has entered. It isn't `Drop`: end it by `leave`.
///
/// Contracts see the first desk, and the lists that lead from it to the rows.
pub struct Entered {
    inner: Reading<Edition, Option<Sight<Rows, Notice>>, Follows>,
}

impl Model for Entered {
    ghost use Rattle.std.specs.Prelude.{◌≡◌};
    ghost use Rattle.left_right.specs.Sides.{view as sight_of};
    ghost use Rattle.published_desk.specs.Published.{ReaderOf, after_lists};
    ghost use Rattle.published_desk.specs.inner.ReaderRule.{IsOf, reader_of, start_of};

    ghost Value = { ReaderOf };

    ghost view = { λ e. reader_of e.inner.part.value.notice (sight_of e.inner.place) };

    ghost invariant = { λ e.
        (e.inner.part.value.desk ≡ after_lists (start_of (sight_of e.inner.place)) e.inner.part.value.notice.lists)
        × IsOf e.inner.part.value.notice.publisher (sight_of e.inner.place) };
}

impl LaneReader {
    /// A notice of what the reader knows: each later entry has seen these lists.
    pub fn known(&self) -> Notice
        ensures { result ≡ record { publisher = self.now.publisher; lists = self.now.lists } }
    {
        self.known.again()
    }

    /// Takes in a notice of the reader's publisher. Each later entry is at that version or at a later one.
    pub fn learn(&mut self, notice: Notice)
        requires publisher { notice.publisher ≡ self.old.publisher }
        ensures same { (self.new.publisher ≡ self.old.publisher) × (self.new.start ≡ self.old.start) }
        ensures kept { IsPrefix self.old.lists self.new.lists }
        ensures told { IsPrefix notice.lists self.new.lists }
        ensures one { (self.new.lists ≡ self.old.lists) ⊎ (self.new.lists ≡ notice.lists) }
    {
        self.known = self.known.later(&notice);
    }

    /// Enters the version that was published last. The reader comes back if its publisher has ended.
    // The rule of `left_right` speaks of what a reader saw itself, and a notice comes from elsewhere. So the number of
    // lists is compared, and the reader comes back where too few are shown. That never happens while the publisher is
    // there.
    pub fn enter(self) -> Result<Entered, LaneReader>
        ensures same { IfOk result (λ e. (e.publisher ≡ self.publisher) × (e.start ≡ self.start)) }
        ensures later { IfOk result (λ e. IsPrefix self.lists e.lists) }
        ensures back { IfErr result (λ r. r ≡ self) }
    {
        let LaneReader { inner, known } = self;
        match inner.enter_as::<Looks>() {
            Ok(inner) if inner.get().notice().version() >= known.version() => {
                inner.get().notice().agrees(&known);
                Ok(Entered { inner })
            }
            // The version that is shown has each list of any notice, since a notice is given after its publish.
            Ok(inner) => Err(LaneReader {
                inner: inner.leave(),
                known,
            }),
            Err(inner) => Err(LaneReader { inner, known }),
        }
    }
}

impl Entered {
    /// The number of lists that lead to the rows.
    pub fn version(&self) -> u64
        ensures { result ≡ length self.now.lists }
    {
        self.inner.get().notice().version()
    }

    /// The rows of the version.
    pub fn rows(&self) -> &Rows
        ensures { result.now ≡ after_lists self.now.start self.now.lists }
    {
        self.inner.get().rows()
    }

    /// Gives the rows back. The reader knows the version that it entered.
    pub fn leave(self) -> LaneReader
        ensures { result ≡ self }
    {
        let Entered { inner } = self;
        let known = inner.get().notice().again();
        LaneReader {
            inner: inner.leave(),
            known,
        }
    }
}
