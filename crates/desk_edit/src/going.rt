//! Finds the rows that go with a row: all that name it, directly or through others.

ghost use Rattle.std.specs.Prelude.{◌≡◌, true, ◌&&◌, ℕ, IfSome};
ghost use Rattle.std.specs.List.{list_any};
ghost use Rattle.desk_rows.specs.Row.{has_key};
ghost use Rattle.desk_rows.specs.Desk.{good, rows_of};
ghost use Rattle.desk_rows.specs.inner.judging.Found.{finds};
ghost use Rattle.desk_edit.specs.Depends.{goes_within};
ghost use Rattle.desk_edit.specs.inner.Levels.{level, can_go, is_above};
ghost use Rattle.desk_edit.specs.Refusals.{has};

use crate::asking::has;
use desk_rows::{Few, Key, Kind, Look, Row, Rows};
use std::alloc::Allocator;

/// The most rows that can follow below a row of this kind, each named by the one above it.
pub(crate) fn level(kind: Kind) -> u32
    ensures { result ≡ level kind }
{
    match kind {
        Kind::Room => 0,
        Kind::Member => 1,
        Kind::Source => 2,
        Kind::Slot => 2,
        Kind::Sub | Kind::Mute | Kind::Gain | Kind::Pin | Kind::Floor => 3,
    }
}

/// Whether rows of this kind can go with a row of another.
pub(crate) fn can_go(kind: Kind, top: Kind) -> bool
    ensures { result ≡ can_go kind top }
{
    match top {
        Kind::Room => true,
        Kind::Member => !matches!(kind, Kind::Room),
        Kind::Source => matches!(
            kind,
            Kind::Source | Kind::Sub | Kind::Mute | Kind::Gain | Kind::Pin
        ),
        Kind::Slot => matches!(kind, Kind::Slot | Kind::Sub),
        Kind::Sub | Kind::Mute | Kind::Gain | Kind::Pin | Kind::Floor => true,
    }
}

/// A desk, and the key of a row to remove.
#[derive(Drop)]
pub(crate) struct Going<'a, A: Allocator + Copy> {
    pub(crate) rows: &'a Rows<A>,
    pub(crate) key: Key,
    /// Whether the row of the key exists, so that it isn't looked for again.
    pub(crate) is_there: bool,
    ghost there: { is_there ≡ has rows.now key },
    ghost good: { good rows.now ≡ true },
}

impl<'a, A: Allocator + Copy> Going<'a, A> {
    pub(crate) fn of(rows: &'a Rows<A>, key: Key) -> Self
        ensures rows { result.rows.now ≡ rows.now }
        ensures key { result.key ≡ key }
    {
        let is_there = has(rows, key);
        Self {
            rows,
            key,
            is_there,
        }
    }

    /// Whether a row with this name may stand above that of the key.
    fn is_above(&self, name: Key) -> bool
        ensures { result ≡ is_above name self.now.key }
    {
        level(self.key.kind()) < level(name.kind())
    }

    /// Whether a row of this name goes, if the key alone decides it. The row of the key goes if it exists. A row that
    /// does not stand below it stays.
    fn told(&self, name: Key) -> Option<bool>
        ensures { (n : ℕ)
            → IfSome result
            (λ told. told
            ≡ list_any
            (λ s. has_key name s && goes_within n self.now.rows.now self.now.key s) (rows_of self.now.rows.now)) }
    {
        if name.is_same(self.key) {
            return Some(self.is_there);
        }
        if !self.is_above(name) {
            return Some(false);
        }
        None
    }

    /// Whether a row is found that goes.
    fn finds_room(&self, found: Option<Row>) -> bool
        ensures { result ≡ finds (goes_within 0 self.now.rows.now self.now.key) found }
    {
        match found {
            None => false,
            Some(row) => row.has_key(self.key),
        }
    }

    /// Whether a room goes.
    fn room_goes(&self, name: Key) -> bool
        ensures { result
            ≡ list_any
            (λ s. has_key name s && goes_within 0 self.now.rows.now self.now.key s) (rows_of self.now.rows.now) }
    {
        match self.told(name) {
            Some(goes) => goes,
            None => self.finds_room(self.rows.look(name)),
        }
    }

    /// Whether a row goes that names rooms at most.
    fn goes_by_room(&self, row: &Row) -> bool
        ensures { result ≡ goes_within 1 self.now.rows.now self.now.key row.now }
    {
        let named = match row.names() {
            Few::Nothing => false,
            Few::One(name) => self.room_goes(name),
            Few::Two(name, other) => self.room_goes(name) || self.room_goes(other),
        };
        row.has_key(self.key) || named
    }

    /// Whether a row is found that goes.
    fn finds_member(&self, found: Option<Row>) -> bool
        ensures { result ≡ finds (goes_within 1 self.now.rows.now self.now.key) found }
    {
        match found {
            None => false,
            Some(row) => self.goes_by_room(&row),
        }
    }

    /// Whether a member goes.
    fn member_goes(&self, name: Key) -> bool
        ensures { result
            ≡ list_any
            (λ s. has_key name s && goes_within 1 self.now.rows.now self.now.key s) (rows_of self.now.rows.now) }
    {
        match self.told(name) {
            Some(goes) => goes,
            None => self.finds_member(self.rows.look(name)),
        }
    }

    /// Whether a row goes that names members at most.
    pub(crate) fn goes_by_member(&self, row: &Row) -> bool
        ensures { result ≡ goes_within 2 self.now.rows.now self.now.key row.now }
    {
        let named = match row.names() {
            Few::Nothing => false,
            Few::One(name) => self.member_goes(name),
            Few::Two(name, other) => self.member_goes(name) || self.member_goes(other),
        };
        row.has_key(self.key) || named
    }

    /// Whether a row is found that goes.
    fn finds_stream(&self, found: Option<Row>) -> bool
        ensures { result ≡ finds (goes_within 2 self.now.rows.now self.now.key) found }
    {
        match found {
            None => false,
            Some(row) => self.goes_by_member(&row),
        }
    }

    /// Whether a row goes that other rows than rooms name.
    pub(crate) fn stream_goes(&self, name: Key) -> bool
        ensures { result
            ≡ list_any
            (λ s. has_key name s && goes_within 2 self.now.rows.now self.now.key s) (rows_of self.now.rows.now) }
    {
        match self.told(name) {
            Some(goes) => goes,
            None => self.finds_stream(self.rows.look(name)),
        }
    }
}
