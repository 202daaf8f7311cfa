//! The publisher.

ghost use Rattle.std.specs.Prelude.{◌≡◌, true, ◌-◌, ◌^◌, ◌<◌, ◌++◌, ◌∷◌, []};
ghost use Rattle.std.specs.Prelude.{Some, None, length, IsSome, IsOk, IfSome, IfNone};
ghost use Rattle.undo_log.specs.Timeline.{all_fit};
ghost use Rattle.desk_rows.specs.Exchange.{fits, after};
ghost use Rattle.published_desk.specs.Published.{after_lists};

use crate::notice::{Law, Notice};
use crate::showing::Showing;
use desk_rows::{Edit, Rows};
use logbook::Word;
use std::marker::Model;
use std::sync::Wait;
use undo_log::Edits;

/// Publishes versions. It isn't `Drop`: end it by [`end`](Self::end).
///
/// It ends by itself where [`publish`](Self::publish) or [`fits`](Self::fits) answers `None`: readers come back from
/// `enter` from then on, and both answer `None` again.
///
/// Contracts see the first desk, the lists that were published, and the list that is staged.
pub struct Publisher {
    // None if it has ended, and while a list is being published.
    pub(crate) showing: Option<Showing>,
    // The rows at the start, by which contracts know it once it has ended.
    pub(crate) first: Rows,
    pub(crate) head: Word<Edits<Edit>, u64, Law>,
    pub(crate) notice: Notice,
    pub(crate) staged: Option<Edits<Edit>>,
}

impl Model for Publisher {
    ghost use Rattle.std.specs.Prelude.{◌≡◌, true, IfSome};
    ghost use Rattle.undo_log.specs.Timeline.{all_fit};
    ghost use Rattle.desk_rows.specs.Exchange.{fits, after};
    ghost use Rattle.published_desk.specs.Published.{PublisherOf};
    ghost use Rattle.published_desk.specs.inner.BookRule.{head_of};
    ghost use Rattle.published_desk.specs.inner.ReaderRule.{start_of};

    ghost Value = { PublisherOf };

    ghost view = { λ p. record {
      publisher = p.notice.publisher;
      start = p.first;
      lists = p.notice.lists;
      staged = p.staged;
    } };

    ghost invariant = { λ p. (p.head ≡ head_of p.notice.publisher)
        × IfSome p.showing (λ s. (s.page.notice ≡ p.notice)
        × (start_of s.seen ≡ p.first)
        × IfSome p.staged (λ edits. all_fit fits after s.page.desk edits ≡ true)) };
}

impl Publisher {
    /// Whether a list of edits may be staged: each edit fits the rows that those before it leave, from the last version
    /// on. It waits for readers that are still in the version before the last one. `None` if the publisher has ended.
    pub fn fits<R: Wait>(&mut self, rt: &R, edits: &Edits<Edit>) -> Option<bool>
        ensures fits { IfSome result (λ fit.
            fit ≡ all_fit fits after (after_lists self.old.start self.old.lists) edits.now) }
        ensures same { self.new ≡ self.old }
    {
        let showing = self.showing.take()?;
        showing.leads();
        let (fits, showing) = showing.fits(rt, edits)?;
        if let Some(none) = self.showing.replace(showing) {
            none.end(rt);
        }
        Some(fits)
    }

    /// Keeps a list of edits for `publish`. It takes no memory, and never hands the list back.
    // The list isn't added to the book or appended yet. The book takes nothing back, so a list that is refused later
    // would stand there for good.
    pub fn stage(&mut self, edits: Edits<Edit>) -> Result<(), Edits<Edit>>
        requires none { self.old.staged ≡ None }
        requires fit { all_fit fits after (after_lists self.old.start self.old.lists) edits ≡ true }
        ensures staged { self.new ≡ record self.old { staged = Some edits } }
        ensures never_refused { IsOk result }
    {
        if let Some(showing) = &self.showing {
            showing.leads();
        }
        self.staged = Some(edits);
        Ok(())
    }

    /// A notice of the version that was published last.
    pub fn tell(&self) -> Notice
        ensures { result ≡ record { publisher = self.now.publisher; lists = self.now.lists } }
    {
        self.notice.again()
    }

    /// Publishes the list that is staged, and returns the version. It waits for readers that are still in a version
    /// that they entered before. Neither of the two copies judges the edits again.
    ///
    /// `None` if the publisher has ended: it adds no list, and the staged one is gone. It ends here where a copy of the
    /// rows has an owner too many or the edition finds no memory, which the calls before it have seen to.
    // The clauses of `left_right` say nothing of capacity, and those of `Arc` nothing of who else is an owner. A call
    // that tried again would hold the desk's lock for good, where a bridge can end and say so. It never comes to that:
    // `start` publishes two editions that change nothing, so the log has capacity for two and never holds more. Before
    // a copy is written, what is shown is published once more, so that both sides own the other copy.
    pub fn publish<R: Wait>(&mut self, rt: &R) -> Option<u64>
        requires staged { IsSome self.old.staged }
        requires below { length self.old.lists < 2 ^ 64 - 1 }
        ensures published { IfSome result (λ version.
            IfSome self.old.staged (λ edits. self.new.lists ≡ self.old.lists ++ edits ∷ [])) }
        ensures unpublished { IfNone result (self.new.lists ≡ self.old.lists) }
        ensures same { (self.new.publisher ≡ self.old.publisher) × (self.new.start ≡ self.old.start) }
        ensures none { self.new.staged ≡ None }
        ensures version { IfSome result (λ version. version ≡ length self.new.lists) }
    {
        let edits = self.staged.take().unwrap();
        let showing = self.showing.take()?;
        let mut notice = self.notice.again();
        if !notice.add(&self.head, &edits) {
            showing.end(rt);
            return None;
        }
        let showing = showing.after(rt, notice.again(), edits)?;
        if let Some(none) = self.showing.replace(showing) {
            none.end(rt);
        }
        self.notice = notice;
        Some(self.notice.version())
    }

    /// Waits for readers that are still in a version. From then on readers come back from `enter`.
    pub fn end<R: Wait>(self, rt: &R) {
        let Publisher {
            showing,
            first: _,
            head: _,
            notice: _,
            staged: _,
        } = self;
        if let Some(showing) = showing {
            showing.end(rt);
        }
    }
}
