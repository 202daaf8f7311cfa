//! Finds what a removal takes. It lists the sources and slots that go first. The members, these and the key decide what
//! else goes.

ghost use Rattle.std.specs.Prelude.{◌≡◌, ◌≤◌, ◌&&◌, ◌||◌, ◌++◌, true, false, [], filter, IfOk, OnOk};
ghost use Rattle.std.specs.List.{list_any};
ghost use Rattle.desk_rows.specs.declared.row.Row.TheVariants.{Member as MemberRow};
ghost use Rattle.desk_rows.specs.declared.key.Kind.TheVariants as kinds;
ghost use Rattle.desk_rows.specs.Row.{kind_of, has_key};
ghost use Rattle.desk_rows.specs.Kinds.{is_of};
ghost use Rattle.desk_rows.specs.Order.{in_order};
ghost use Rattle.desk_rows.specs.Desk.{Desk, good, rows_of};
ghost use Rattle.desk_edit.specs.Depends.{goes_within, goes_with};
ghost use Rattle.desk_edit.specs.inner.Levels.{level, can_go, is_sound};
ghost use Rattle.desk_edit.specs.inner.Edits.{placed_from};

use crate::going::{Going, can_go, level};
use crate::listing::{any_sound, any_source, found_alone, going_by_members};
use crate::picking::{Picked, members_picked};
use desk_rows::{Few, Key, Kind, Placed, Row, Rows, find_row};
use std::alloc::{AllocError, Allocator};

/// The members that go with the row of this key, with their places.
pub(crate) fn members_going<A: Allocator + Copy>(
    alloc: A,
    rows: &Rows<A>,
    key: Key,
) -> Result<Vec<Placed, A>, AllocError>
    ensures members { IfOk result
        (λ v. v.items ≡ placed_from 0 (λ m. goes_with rows.now key (MemberRow m)) rows.now.members) }
    ensures good { good rows.now ≡ true }
{
    members_picked(alloc, rows.members(), Picked::with(key))
}

/// The sources or the slots that go.
fn streams_going<A: Allocator + Copy>(
    alloc: A,
    going: &Going<'_, A>,
    kind: Kind,
    nobody: bool,
) -> Result<Vec<Row, A>, AllocError>
    requires kind { level kind ≡ 2 }
    requires low { level (kind_of going.now.key) ≤ 2 }
    requires nobody { nobody ≡ true
        → list_any (λ m. goes_with going.now.rows.now going.now.key (MemberRow m)) going.now.rows.now.members ≡ false }
    ensures { IfOk result
        (λ v. v.items
        ≡ filter (goes_with going.now.rows.now going.now.key) (filter (is_of kind) going.now.rows.now.others)) }
{
    if !can_go(kind, going.key.kind()) {
        return Ok(Vec::new(alloc));
    }
    if level(going.key.kind()) == 2 {
        return found_alone(alloc, going.rows.find(&going.key));
    }
    if nobody {
        return Ok(Vec::new(alloc));
    }
    going_by_members(alloc, going, going.rows.others_of(kind))
}

/// The most sources for a linear search.
const FEW: usize = 8;

/// A removal, with the sources and slots that go.
// References are followed downwards: members, then their sources and slots, then what names those. A kind is asked only
// where something goes that its rows name, so that few removals ask each of 65,536 gains.
#[derive(Drop)]
pub(crate) struct Gone<'a, A: Allocator + Copy> {
    going: Going<'a, A>,
    /// Whether no member goes.
    nobody: bool,
    sources: Vec<Row, A>,
    slots: Vec<Row, A>,
    ghost low: { level (kind_of going.key) ≤ 2 },
    ghost members: { nobody ≡ true
        → list_any (λ m. goes_with going.rows.now going.key (MemberRow m)) going.rows.now.members ≡ false },
    ghost sources_go: { sources.items
        ≡ filter (goes_with going.rows.now going.key) (filter (is_of kinds.Source) going.rows.now.others) },
    ghost slots_go: { slots.items
        ≡ filter (goes_with going.rows.now going.key) (filter (is_of kinds.Slot) going.rows.now.others) },
}

impl<'a, A: Allocator + Copy> Gone<'a, A> {
    fn with(alloc: A, going: Going<'a, A>, nobody: bool) -> Result<Self, AllocError>
        requires low { level (kind_of going.key) ≤ 2 }
        requires nobody { nobody ≡ true
            → list_any (λ m. goes_with going.rows.now going.key (MemberRow m)) going.rows.now.members ≡ false }
        ensures rows { IfOk result (λ x. x.going.rows.now ≡ going.entry.rows.now) }
        ensures key { IfOk result (λ x. x.going.key ≡ going.entry.key) }
    {
        let sources = streams_going(alloc, &going, Kind::Source, nobody)?;
        let slots = streams_going(alloc, &going, Kind::Slot, nobody)?;
        Ok(Self {
            going,
            nobody,
            sources,
            slots,
        })
    }

    /// Whether a row of this name goes.
    fn goes(&self, name: Key) -> bool
        ensures { result
            ≡ list_any
            (λ s. has_key name s
            && goes_within 2 self.now.going.rows.now self.now.going.key s) (rows_of self.now.going.rows.now) }
    {
        match name {
            Key::Source(_) => find_row(&self.sources, name).is_some(),
            Key::Slot(_) => find_row(&self.slots, name).is_some(),
            _ => self.going.stream_goes(name),
        }
    }

    /// Whether the row goes.
    fn takes(&self, row: &Row) -> bool
        ensures { result ≡ goes_with self.now.going.rows.now self.now.going.key row.now }
    {
        let named = match row.names() {
            Few::Nothing => false,
            Few::One(name) => self.goes(name),
            Few::Two(name, other) => self.goes(name) || self.goes(other),
        };
        row.has_key(self.going.key) || named
    }

    /// Whether the member that hears goes.
    fn listener_goes(&self, member: u32) -> bool
        ensures { result
            ≡ list_any
            (λ s. has_key (Key.Member member) s
            && goes_within 2 self.now.going.rows.now self.now.going.key s) (rows_of self.now.going.rows.now) }
    {
        match self.going.key {
            Key::Member(number) => number == member && self.going.is_there,
            _ => !self.nobody && self.going.stream_goes(Key::Member(member)),
        }
    }

    /// Whether the source that is heard goes: linear search up to 8 sources, binary search beyond.
    fn sound_goes(&self, ssrc: u32) -> bool
        ensures { result
            ≡ list_any
            (λ s. has_key (Key.Source ssrc) s
            && goes_within 2 self.now.going.rows.now self.now.going.key s) (rows_of self.now.going.rows.now) }
    {
        if self.sources.len() > FEW {
            return self.goes(Key::Source(ssrc));
        }
        any_source(&self.sources, ssrc)
    }

    /// Whether the gain goes, with its member or with its source.
    fn takes_gain(&self, row: &Row) -> bool
        ensures { result ≡ goes_with self.now.going.rows.now self.now.going.key row.now }
    {
        match row {
            Row::Gain(gain) => self.listener_goes(gain.member) || self.sound_goes(gain.source),
            _ => self.takes(row),
        }
    }

    /// The rows of these that go.
    fn among(&self, alloc: A, others: &[Row]) -> Result<Vec<Row, A>, AllocError>
        ensures { IfOk result
            (λ v. v.items ≡ filter (goes_with self.now.going.rows.now self.now.going.key) others.now) }
    {
        others
            .iter()
            .filter(|row| self.takes(row))
            .copied()
            .collect(alloc)
    }

    /// The subscriptions that go: none if no source and no slot goes.
    fn subs(&self, alloc: A) -> Result<Vec<Row, A>, AllocError>
        ensures { IfOk result
            (λ v. v.items
            ≡ filter (goes_with self.now.going.rows.now self.now.going.key)
            (filter (is_of kinds.Sub) self.now.going.rows.now.others)) }
    {
        if self.sources.is_empty() && self.slots.is_empty() {
            return Ok(Vec::new(alloc));
        }
        self.among(alloc, self.going.rows.others_of(Kind::Sub))
    }

    /// The mutes that go: none if no source goes.
    fn mutes(&self, alloc: A) -> Result<Vec<Row, A>, AllocError>
        ensures { IfOk result
            (λ v. v.items
            ≡ filter (goes_with self.now.going.rows.now self.now.going.key)
            (filter (is_of kinds.Mute) self.now.going.rows.now.others)) }
    {
        if self.sources.is_empty() {
            return Ok(Vec::new(alloc));
        }
        self.among(alloc, self.going.rows.others_of(Kind::Mute))
    }

    /// The gains that go, by a test of each.
    fn gains_asked(&self, alloc: A) -> Result<Vec<Row, A>, AllocError>
        ensures { IfOk result
            (λ v. v.items
            ≡ filter (goes_with self.now.going.rows.now self.now.going.key)
            (filter (is_of kinds.Gain) self.now.going.rows.now.others)) }
    {
        self.going
            .rows
            .others_of(Kind::Gain)
            .iter()
            .filter(|row| self.takes_gain(row))
            .copied()
            .collect(alloc)
    }

    /// The gains that go. If no audio source goes, they are the member's own.
    fn gains(&self, alloc: A) -> Result<Vec<Row, A>, AllocError>
        ensures { IfOk result
            (λ v. v.items
            ≡ filter (goes_with self.now.going.rows.now self.now.going.key)
            (filter (is_of kinds.Gain) self.now.going.rows.now.others)) }
    {
        if any_sound(&self.sources) {
            return self.gains_asked(alloc);
        }
        if self.nobody {
            return Ok(Vec::new(alloc));
        }
        match self.going.key {
            Key::Member(member) => Vec::from_slice(alloc, self.going.rows.gains_of(member)),
            _ => self.gains_asked(alloc),
        }
    }

    /// The rows of this kind that go.
    fn of_kind(&self, alloc: A, kind: Kind) -> Result<Vec<Row, A>, AllocError>
        ensures { IfOk result
            (λ v. v.items
            ≡ filter (goes_with self.now.going.rows.now self.now.going.key)
            (filter (is_of kind) self.now.going.rows.now.others)) }
    {
        match kind {
            Kind::Source => Vec::from_slice(alloc, &self.sources),
            Kind::Slot => Vec::from_slice(alloc, &self.slots),
            Kind::Sub => self.subs(alloc),
            Kind::Mute => self.mutes(alloc),
            Kind::Gain => self.gains(alloc),
            _ => self.among(alloc, self.going.rows.others_of(kind)),
        }
    }

    /// Appends the rows of this kind that go.
    fn append(&self, alloc: A, kind: Kind, out: &mut Vec<Row, A>) -> Result<(), AllocError>
        ensures { OnOk result (out.new.items
            ≡ out.old.items
            ++ filter (goes_with self.now.going.rows.now self.now.going.key)
            (filter (is_of kind) self.now.going.rows.now.others)) }
    {
        let these = self.of_kind(alloc, kind)?;
        out.extend_from_slice(&these)
    }

    /// All other rows that go.
    fn all(&self, alloc: A) -> Result<Vec<Row, A>, AllocError>
        ensures { IfOk result
            (λ v. v.items
            ≡ filter (goes_with self.now.going.rows.now self.now.going.key) self.now.going.rows.now.others) }
    {
        let mut out = Vec::new(alloc);
        self.append(alloc, Kind::Gain, &mut out)?;
        self.append(alloc, Kind::Room, &mut out)?;
        self.append(alloc, Kind::Source, &mut out)?;
        self.append(alloc, Kind::Slot, &mut out)?;
        self.append(alloc, Kind::Sub, &mut out)?;
        self.append(alloc, Kind::Mute, &mut out)?;
        self.append(alloc, Kind::Pin, &mut out)?;
        self.append(alloc, Kind::Floor, &mut out)?;
        Ok(out)
    }
}

/// The rows beside members that go. If no row can name the key's kind, that is its row alone.
pub(crate) fn others_going<A: Allocator + Copy>(
    alloc: A,
    rows: &Rows<A>,
    key: Key,
    nobody: bool,
) -> Result<Vec<Row, A>, AllocError>
    requires { nobody ≡ true → list_any (λ m. goes_with rows.now key (MemberRow m)) rows.now.members ≡ false }
    ensures others { IfOk result (λ v. v.items ≡ filter (goes_with rows.now key) rows.now.others) }
    ensures good { good rows.now ≡ true }
{
    if level(key.kind()) == 3 {
        return found_alone(alloc, rows.find(&key));
    }
    let gone = Gone::with(alloc, Going::of(rows, key), nobody)?;
    gone.all(alloc)
}
