//! Checks an edit of rows.

ghost use Rattle.std.specs.Prelude.{◌≡◌, ◌&&◌, true, not, count_by};
ghost use Rattle.std.specs.List.{list_all};
ghost use Rattle.desk_rows.specs.declared.key.Kind.TheVariants as kinds;
ghost use Rattle.desk_rows.specs.declared.row.Row.TheVariants.{Member as MemberRow};
ghost use Rattle.desk_rows.specs.Row.{key_of, has_key};
ghost use Rattle.desk_rows.specs.Kinds.{is_of};
ghost use Rattle.desk_rows.specs.Order.{in_order, is_in, are_apart, have_same_keys, with_rows};
ghost use Rattle.desk_rows.specs.Places.{places_rise, can_take, can_put, take_at};
ghost use Rattle.desk_rows.specs.Edit.{outs, ins};
ghost use Rattle.desk_rows.specs.Exchange.{is_apt, exchanged, fits};
ghost use Rattle.desk_rows.specs.Desk.{good};
ghost use Rattle.desk_rows.specs.inner.judging.Judged.{takes, puts, coming, is_free, comes_once, keys_are_new};

use crate::judging::changes::{coming, takes};
use crate::judging::lists::{are_apart, contains_all, have_same_keys};
use crate::judging::overlay::Overlay;
use crate::judging::places::{can_be_put, can_be_taken};
use desk_rows::{Edit, Key, Kind, Member, Placed, Row, Rows};
use std::alloc::Allocator;

/// A desk and an edit of it. The rows that go are there, those that come have places, and each replaced row keeps its
/// key.
#[derive(Drop)]
pub(crate) struct RowExchange<'a, A: Allocator + Copy> {
    pub(crate) rows: &'a Rows<A>,
    pub(crate) edit: &'a Edit<A>,
    ghost good: { good rows.now ≡ true },
    ghost apt: { is_apt rows.now edit.now ≡ true },
}

impl<A: Allocator + Copy> RowExchange<'_, A> {
    /// Whether the edit takes a row with this key.
    pub(crate) fn takes(&self, key: Key) -> bool
        ensures { result ≡ takes self.now.edit.now key }
    {
        takes(self.edit, key)
    }

    /// The row with this key that the edit puts.
    pub(crate) fn coming(&self, key: Key) -> Option<Row>
        ensures { result ≡ coming self.now.edit.now key }
    {
        coming(self.edit, key)
    }

    /// Whether the edit puts a row with this key.
    #[tactic(auto, using(crate::proofs::ChangeLemmas::puts_is))]
    pub(crate) fn puts(&self, key: Key) -> bool
        ensures { result ≡ puts self.now.edit.now key }
    {
        self.coming(key).is_some()
    }

    /// Whether no row that stays has this key.
    #[tactic(auto, using(crate::proofs::OverlayLemmas::free_is))]
    fn is_free(&self, key: Key) -> bool
        ensures { result ≡ is_free self.now.rows.now self.now.edit.now key }
    {
        self.rows.find(&key).is_none() || self.takes(key)
    }

    /// Whether exactly one member that comes has this key.
    fn comes_once(&self, key: Key) -> bool
        ensures { result ≡ comes_once self.now.edit.now key }
    {
        count_of_key(self.edit.put_members(), key) == 1
    }

    fn is_new_member(&self, placed: &Placed) -> bool
        ensures { result
            ≡ (is_free self.now.rows.now self.now.edit.now (key_of (MemberRow placed.now.row))
            && comes_once self.now.edit.now (key_of (MemberRow placed.now.row))) }
    {
        let key = Key::Member(placed.row.member);
        self.is_free(key) && self.comes_once(key)
    }

    fn are_new_members(&self, placed: &[Placed]) -> bool
        ensures { result
            ≡ list_all
            (λ p. is_free self.now.rows.now self.now.edit.now (key_of (MemberRow p.row))
            && comes_once self.now.edit.now (key_of (MemberRow p.row))) placed.now }
    {
        placed.iter().all(|one| self.is_new_member(one))
    }

    fn are_new(&self, rows: &[Row]) -> bool
        ensures { result ≡ list_all (λ r. is_free self.now.rows.now self.now.edit.now (key_of r)) rows.now }
    {
        rows.iter().all(|row| self.is_free(row.key()))
    }

    #[tactic(auto, using(desk_rows::proofs::Counts::all_of_both))]
    fn are_new_others(&self) -> bool
        ensures { result
            ≡ list_all (λ r. is_free self.now.rows.now self.now.edit.now (key_of r)) (ins self.now.edit.now) }
    {
        self.are_new(self.edit.new()) && self.are_new(self.edit.put_others())
    }

    /// Whether no row that comes has the key of another row.
    #[tactic(auto, unfolding(desk_rows::specs::inner::judging::Judged::keys_are_new))]
    fn keys_are_new(&self) -> bool
        ensures { result ≡ keys_are_new self.now.rows.now self.now.edit.now }
    {
        self.are_new_members(self.edit.put_members()) && self.are_new_others()
    }

    /// Whether no row that comes beside the members is a member's.
    #[tactic(auto, using(desk_rows::proofs::Counts::all_of_both))]
    fn is_plain(&self) -> bool
        ensures { result ≡ list_all (λ r. not (is_of kinds.Member r)) (ins self.now.edit.now) }
    {
        has_no_member(self.edit.new()) && has_no_member(self.edit.put_others())
    }

    /// Whether the new desk is good.
    #[tactic(auto, using(crate::proofs::OverlayLemmas::good_tests))]
    fn is_good(self) -> bool
        ensures { result ≡ good (exchanged self.entry.rows.now self.entry.edit.now) }
    {
        if !self.is_plain() {
            return false;
        }
        if !self.keys_are_new() {
            return false;
        }
        let later = Overlay { of: self };
        if !later.is_within_limits() {
            return false;
        }
        let moved = later.moves();
        later.all_come() && later.all_stay(moved)
    }
}

fn count_of_key(placed: &[Placed], key: Key) -> usize
    ensures { result ≡ count_by (λ p. has_key key (MemberRow p.row)) placed.now }
{
    placed
        .iter()
        .filter(|one| Row::Member(one.row).has_key(key))
        .count()
}

fn has_no_member(rows: &[Row]) -> bool
    ensures { result ≡ list_all (λ r. not (is_of kinds.Member r)) rows.now }
{
    rows.iter().all(|row| !row.is_of(Kind::Member))
}

/// Whether the members that go stand at their places, and those that come have places.
fn can_move(members: &[Member], taken: &[Placed], put: &[Placed]) -> bool
    ensures { result
        ≡ ((places_rise taken.now && can_take taken.now members.now)
        && (places_rise put.now && can_put put.now (take_at taken.now members.now))) }
{
    if !can_be_taken(taken, members) {
        return false;
    }
    can_be_put(put, members.len() - taken.len())
}

/// Whether all rows of both lists are there.
#[tactic(auto, using(desk_rows::proofs::Counts::all_of_both))]
fn are_there(others: &[Row], taken: &[Row], old: &[Row]) -> bool
    requires { in_order others.now ≡ true }
    ensures { result ≡ list_all (is_in others.now) (with_rows old.now taken.now) }
{
    contains_all(others, old) && contains_all(others, taken)
}

fn can_exchange<A: Allocator + Copy>(others: &[Row], edit: &Edit<A>) -> bool
    requires { in_order others.now ≡ true }
    ensures { result
        ≡ ((are_apart edit.now.taken.others edit.now.replaced.old && list_all (is_in others.now) (outs edit.now))
        && (are_apart edit.now.put.others edit.now.replaced.new
        && have_same_keys edit.now.replaced.old edit.now.replaced.new)) }
{
    let (taken, old) = (edit.taken_others(), edit.old());
    let (put, new) = (edit.put_others(), edit.new());
    let goes = are_apart(taken, old) && are_there(others, taken, old);
    goes && (are_apart(put, new) && have_same_keys(old, new))
}

/// Whether the rows that go are there, those that come have places, and each replaced row keeps its key.
#[tactic(auto, unfolding(desk_rows::specs::Exchange::is_apt))]
fn is_apt<A: Allocator + Copy>(rows: &Rows<A>, edit: &Edit<A>) -> bool
    ensures apt { result ≡ is_apt rows.now edit.now }
    ensures good { good rows.now ≡ true }
{
    can_move(rows.members(), edit.taken_members(), edit.put_members())
        && can_exchange(rows.others(), edit)
}

/// Whether the edit fits: the desk stays good.
// The desk before is good, so a row that stays still obeys the rules. It is asked again only where a key that it names
// changes. The desk after is never built: look-ups in the rows and the edit show it.
#[tactic(auto, using(desk_rows::specs::laws::Laws::fits_test))]
pub(crate) fn fits<A: Allocator + Copy>(rows: &Rows<A>, edit: &Edit<A>) -> bool
    ensures { result ≡ fits rows.now edit.now }
{
    if !is_apt(rows, edit) {
        return false;
    }
    let exchange = RowExchange { rows, edit };
    exchange.is_good()
}
