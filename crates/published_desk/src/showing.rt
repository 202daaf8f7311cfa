//! Shows editions, from two copies of the rows.

ghost use Rattle.std.specs.Prelude.{◌≡◌, true, ◌+◌, ◌++◌, ◌∷◌, [], length, fold, drop, IfSome};
ghost use Rattle.std.specs.Arc.{arc_value};
ghost use Rattle.std.specs.Bool.{OnTrue};
ghost use Rattle.left_right.specs.Sides.{view as sight_of};
ghost use Rattle.undo_log.specs.Timeline.{all_fit};
ghost use Rattle.desk_rows.specs.Exchange.{fits, after};
ghost use Rattle.published_desk.specs.Published.{after_list, after_lists};
ghost use Rattle.published_desk.specs.inner.Page.{next_page};
ghost use Rattle.published_desk.specs.inner.ReaderRule.{IsOf, start_of};

use crate::edition::Edition;
use crate::notice::Notice;
use crate::rule::{Follows, Looks, Sight};
use desk_rows::{Edit, Rows};
use left_right::writer::Writer;
use reversible_rows::ReversibleRows;
use std::alloc::Global;
use std::marker::Model;
use std::sync::{Arc, Wait};
use undo_log::{Edits, Listed, Reversible};

pub(crate) type Lead = Writer<Edition, Edition, Option<Sight<Rows, Notice>>, Follows>;

/// Shows editions, with two copies of the rows: that of the edition that is shown, and that of the one before. It isn't
/// `Drop`: end it by `end`.
// A struct of its own. The prover searches once whether a type may go to another thread, and gives up in silence at ten
// million steps: in one struct with the publisher, a further field that names the rows may be one too many.
pub struct Showing {
    pub(crate) writer: Writer<Edition, Edition, Option<Sight<Rows, Notice>>, Follows>,
    pub(crate) shown: Arc<Listed<ReversibleRows>>,
    pub(crate) before: Arc<Listed<ReversibleRows>>,
    // It leads from the rows before to those that are shown.
    pub(crate) last: Edits<Edit>,
    pub(crate) alloc: Global,
}

impl Model for Showing {
    ghost use Rattle.std.specs.Prelude.{◌≡◌, true, [], drop};
    ghost use Rattle.std.specs.Arc.{arc_value};
    ghost use Rattle.left_right.specs.Sides.{view as sight_of};
    ghost use Rattle.undo_log.specs.Timeline.{all_fit};
    ghost use Rattle.desk_rows.specs.Exchange.{fits, after};
    ghost use Rattle.published_desk.specs.Published.{after_list, after_lists};
    ghost use Rattle.published_desk.specs.inner.Page.{ShowingOf};
    ghost use Rattle.published_desk.specs.inner.ReaderRule.{IsOf, start_of};

    ghost Value = { ShowingOf };

    ghost view = { λ s. record {
      page = s.writer.desk.shown.value;
      seen = sight_of s.writer.desk.place;
      lacking = s.last;
    } };

    ghost invariant = { λ s.
        (drop s.writer.behind s.writer.log.items ≡ [])
        × (s.writer.desk.shown.value.desk
        ≡ after_lists (start_of (sight_of s.writer.desk.place)) s.writer.desk.shown.value.notice.lists)
        × IsOf s.writer.desk.shown.value.notice.publisher (sight_of s.writer.desk.place)
        × (arc_value s.shown ≡ s.writer.desk.shown.value.desk)
        × (all_fit fits after (arc_value s.before) s.last ≡ true)
        × (after_list (arc_value s.before) s.last ≡ s.writer.desk.shown.value.desk) };
}

impl Showing {
    /// A law: the lists of the edition lead to its rows. The call does nothing when it runs.
    pub fn leads(&self)
        ensures { self.now.page.desk ≡ after_lists (start_of self.now.seen) self.now.page.notice.lists }
    {
        // Reading a field makes the invariant known.
        let _writer = &self.writer;
    }

    /// Whether each of the edits fits the rows that those before it leave. `None` if it has ended.
    pub fn fits<R: Wait>(self, rt: &R, edits: &Edits<Edit>) -> Option<(bool, Showing)>
        ensures fits { IfSome result (λ r. r.0 ≡ all_fit fits after self.page.desk edits.now) }
        ensures same { IfSome result (λ r. (r.1.page ≡ self.page) × (start_of r.1.seen ≡ start_of self.seen)) }
    {
        let Showing {
            writer,
            shown,
            before,
            last,
            alloc,
        } = self.caught_up(rt)?;
        let mut before = before;
        let Some(fits) = judged(&mut before, edits) else {
            writer.take(rt);
            return None;
        };
        let showing = Showing {
            writer,
            shown,
            before,
            last,
            alloc,
        };
        Some((fits, showing))
    }

    /// Absorbs a list of edits into the copy of the edition before, and shows that copy. `None` if it has ended.
    pub fn after<R: Wait>(self, rt: &R, notice: Notice, edits: Edits<Edit>) -> Option<Showing>
        requires fit { all_fit fits after self.page.desk edits ≡ true }
        requires publisher { notice.publisher ≡ self.page.notice.publisher }
        requires lists { notice.lists ≡ self.page.notice.lists ++ edits ∷ [] }
        ensures page { IfSome result (λ s. s.page ≡ next_page after_list self.page edits notice) }
        ensures start { IfSome result (λ s. start_of s.seen ≡ start_of self.seen) }
    {
        let Showing {
            writer,
            shown,
            before,
            last: _,
            alloc,
        } = self.caught_up(rt)?;
        let mut next = before;
        let Some(edition) = edition_after(&mut next, &edits, notice) else {
            writer.take(rt);
            return None;
        };
        let writer = published(rt, writer, edition, &edits)?;
        Some(Showing {
            writer,
            shown: next,
            before: shown,
            last: edits,
            alloc,
        })
    }

    /// Brings the copy of the edition before up to date. It waits for readers that are still in that edition. `None` if
    /// it has ended.
    fn caught_up<R: Wait>(self, rt: &R) -> Option<Showing>
        ensures page { IfSome result (λ s. s.page ≡ self.page) }
        ensures start { IfSome result (λ s. start_of s.seen ≡ start_of self.seen) }
        ensures lacking { IfSome result (λ s. s.lacking ≡ []) }
    {
        let Showing {
            writer,
            shown,
            before,
            last,
            alloc,
        } = self;
        // Both sides own what is shown then, so the other copy has one owner.
        let writer = repeated(rt, writer)?;
        let mut before = before;
        if !absorbed(&mut before, &last) {
            writer.take(rt);
            return None;
        }
        Some(Showing {
            writer,
            shown,
            before,
            last: Edits::new(Vec::new(alloc)),
            alloc,
        })
    }

    /// Waits for readers that are still in a version. From then on readers come back from `enter`.
    pub fn end<R: Wait>(self, rt: &R) {
        let Showing {
            writer,
            shown: _,
            before: _,
            last: _,
            alloc: _,
        } = self;
        writer.take(rt);
    }
}

// Absorbs the edits, unless the rows have another owner.
fn absorbed(rows: &mut Arc<Listed<ReversibleRows>>, edits: &Edits<Edit>) -> bool
    requires { all_fit fits after (arc_value rows.old) edits.now ≡ true }
    ensures { OnTrue result (arc_value rows.new ≡ after_list (arc_value rows.old) edits.now) }
{
    match Arc::get_mut(rows) {
        Some(rows) => {
            rows.absorb_fitting(edits);
            true
        }
        None => false,
    }
}

// Whether the edits fit. None if the rows have another owner.
fn judged(rows: &mut Arc<Listed<ReversibleRows>>, edits: &Edits<Edit>) -> Option<bool>
    ensures judged { IfSome result (λ fit. fit ≡ all_fit fits after (arc_value rows.old) edits.now) }
    ensures same { arc_value rows.new ≡ arc_value rows.old }
{
    match Arc::get_mut(rows) {
        Some(rows) => Some(rows.fits(edits)),
        None => None,
    }
}

// Absorbs the edits, and makes an edition of the rows. None if the rows have another owner, or 2^63 of them.
fn edition_after(
    rows: &mut Arc<Listed<ReversibleRows>>,
    edits: &Edits<Edit>,
    notice: Notice,
) -> Option<Edition>
    requires { all_fit fits after (arc_value rows.old) edits.now ≡ true }
    ensures rows { IfSome result (λ edition. arc_value rows.new ≡ after_list (arc_value rows.old) edits.now) }
    ensures edition { IfSome result (λ edition. edition ≡ record { notice = notice; desk = arc_value rows.new }) }
{
    if !absorbed(rows, edits) {
        return None;
    }
    match Arc::try_clone(rows) {
        Ok(rows) => Some(Edition::new(rows, notice)),
        Err(_) => None,
    }
}

// Shows readers the next edition. None if the log has no memory for it, or its rows have 2^63 owners: the writer has
// ended then.
fn published<R: Wait>(rt: &R, writer: Lead, edition: Edition, edits: &Edits<Edit>) -> Option<Lead>
    requires settled { drop writer.behind writer.log.items ≡ [] }
    requires page { edition ≡ next_page after_list writer.desk.shown.value edits.now edition.notice }
    requires publisher { edition.notice.publisher ≡ writer.desk.shown.value.notice.publisher }
    requires lists { edition.notice.lists ≡ writer.desk.shown.value.notice.lists ++ edits.now ∷ [] }
    requires seen { IsOf writer.desk.shown.value.notice.publisher (sight_of writer.desk.place) }
    ensures settled { IfSome result (λ w. drop w.behind w.log.items ≡ []) }
    ensures shown { IfSome result (λ w. w.desk.shown.value ≡ edition) }
    ensures start { IfSome result (λ w. start_of (sight_of w.desk.place) ≡ start_of (sight_of writer.desk.place)) }
    ensures seen { IfSome result (λ w. IsOf edition.notice.publisher (sight_of w.desk.place)) }
    ensures leads { IfSome result (λ w.
        edition.desk ≡ after_lists (start_of (sight_of w.desk.place)) edition.notice.lists) }
{
    let mut writer = writer;
    if writer.append(edition).is_err() {
        writer.take(rt);
        return None;
    }
    let (next, outcome) = writer.publish_as::<Looks, R>(rt);
    if outcome.is_err() {
        next.take(rt);
        return None;
    }
    Some(next)
}

// Shows the same edition on the other side, which lets go of the rows that it owns. None if the log has no memory for
// it, or its rows have 2^63 owners: the writer has ended then.
fn repeated<R: Wait>(rt: &R, writer: Lead) -> Option<Lead>
    requires settled { drop writer.behind writer.log.items ≡ [] }
    requires seen { IsOf writer.desk.shown.value.notice.publisher (sight_of writer.desk.place) }
    ensures settled { IfSome result (λ w. drop w.behind w.log.items ≡ []) }
    ensures same { IfSome result (λ w. w.desk.shown.value ≡ writer.desk.shown.value) }
    ensures start { IfSome result (λ w. start_of (sight_of w.desk.place) ≡ start_of (sight_of writer.desk.place)) }
    ensures seen { IfSome result (λ w. IsOf writer.desk.shown.value.notice.publisher (sight_of w.desk.place)) }
    ensures leads { IfSome result (λ w. writer.desk.shown.value.desk
        ≡ after_lists (start_of (sight_of w.desk.place)) writer.desk.shown.value.notice.lists) }
{
    let mut writer = writer;
    if !repeats(&mut writer) {
        writer.take(rt);
        return None;
    }
    let (next, outcome) = writer.publish_as::<Looks, R>(rt);
    if outcome.is_err() {
        next.take(rt);
        return None;
    }
    Some(next)
}

// Appends the edition that is shown, unless the log has no memory for it, or its rows have 2^63 owners.
pub(crate) fn repeats(writer: &mut Lead) -> bool
    requires idle { fold (λ before next. next) writer.old.desk.shown.value (drop writer.old.behind writer.old.log.items)
        ≡ writer.old.desk.shown.value }
    ensures same { writer.new.desk ≡ writer.old.desk }
    ensures idle { fold (λ before next. next) writer.new.desk.shown.value (drop writer.new.behind writer.new.log.items)
        ≡ writer.new.desk.shown.value }
    ensures one { OnTrue result (length (drop writer.new.behind writer.new.log.items)
        ≡ length (drop writer.old.behind writer.old.log.items) + 1) }
{
    match writer.published().again() {
        Ok(edition) => writer.append(edition).is_ok(),
        Err(_) => false,
    }
}
