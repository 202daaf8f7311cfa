//! The rows of a desk, with look-ups.

ghost use Rattle.std.specs.Prelude.{◌≡◌, ℕ, ◌≤◌, true, IfOk, filter, nat_eq, slice_get, vec_capacity};
ghost use Rattle.std.specs.List.Sorted.{IsNonDecreasingBy};
ghost use Rattle.desk_rows.specs.Kinds.{is_of};
ghost use Rattle.desk_rows.specs.Naming.{members_in, subs_naming, slots_naming, gains_naming};
ghost use Rattle.desk_rows.specs.Order.{in_order};
ghost use Rattle.desk_rows.specs.inner.tables.Index.{IsIndex};
ghost use Rattle.desk_rows.specs.Places.{place_in};
ghost use Rattle.desk_rows.specs.Desk.{blank, good, holds, row_at, rows_of_kind, count_of, roster, member_at_address};
ghost use Rattle.desk_rows.specs.Exchange.{fits, after};

use crate::borrowed::EditLists;
use crate::key::{Key, Kind};
use crate::limits::{MAX_MEMBERS, MAX_OTHERS, MAX_SLOTS};
use crate::looking::Look;
use crate::ordering::{gains_of, rows_of_kind};
use crate::row::{Member, Row, Slot, Sub};
use crate::tables::addressing::find_at;
use crate::tables::following::follow;
use crate::tables::grouping::group_of;
use crate::tables::index::{IndexEntry, entry_of};
use crate::tables::moving::{exchange_members, exchange_rows};
use crate::tables::searching::{is_among, member_row, numbers_in, other_row, row_with};
use rtp_codec::Address;
use std::alloc::{AllocError, Allocator, Global};
use std::marker::Model;

/// The rows of a desk. All memory is allocated at first, so absorbing an edit takes none.
///
/// Contracts see the desk: the members in joining order, and all other rows by kind and key. Each value is a good desk:
/// keys are distinct, what a row names is there, and all rules and limits hold. Calls that give rows out ensure it.
#[derive(Drop)]
pub struct Rows<A: Allocator + Copy = Global> {
    bridge_ssrc: u32,
    members: Vec<Member, A>,
    /// The members' places, by their numbers.
    index: Vec<IndexEntry, A>,
    others: Vec<Row, A>,
    /// A buffer in which an edit merges other rows.
    spare: Vec<Row, A>,
    /// The subscriptions once more, by the sources that they name.
    subs: Vec<Sub, A>,
    /// The slots once more, by their members.
    slots: Vec<Slot, A>,
    /// The members once more, by their addresses.
    by_address: Vec<Member, A>,
    /// The members once more, by their rooms.
    by_room: Vec<Member, A>,
}

impl<A: Allocator + Copy> Model for Rows<A> {
    ghost use Rattle.std.specs.Prelude.{◌≡◌, ◌≤◌, true, vec_capacity};
    ghost use Rattle.desk_rows.specs.declared.limits.TheConstants.{MAX_MEMBERS, MAX_SLOTS, MAX_OTHERS};
    ghost use Rattle.desk_rows.specs.Desk.{Desk, good};
    ghost use Rattle.desk_rows.specs.Getters.{slot_in, sub_in};
    ghost use Rattle.desk_rows.specs.inner.Listed.{desk_of};
    ghost use Rattle.desk_rows.specs.inner.tables.Index.{IsIndex};
    ghost use Rattle.desk_rows.specs.inner.tables.Grouped.{IsTableOf};
    ghost use Rattle.desk_rows.specs.inner.tables.Addressed.{IsByAddress};
    ghost use Rattle.desk_rows.specs.inner.tables.Roomed.{IsByRoom};

    ghost Value = { Desk };

    ghost view = { λ r. desk_of r.bridge_ssrc r.members.items r.others.items };

    ghost invariant = { λ r.
        (good (desk_of r.bridge_ssrc r.members.items r.others.items) ≡ true)
        × IsIndex r.members.items r.index.items
        × (MAX_MEMBERS ≤ vec_capacity r.members)
        × (MAX_MEMBERS ≤ vec_capacity r.index)
        × (MAX_OTHERS ≤ vec_capacity r.others)
        × (MAX_OTHERS ≤ vec_capacity r.spare)
        × IsTableOf sub_in (λ s. s.source) (λ s. s.out_ssrc) r.others.items r.subs.items
        × (MAX_SLOTS ≤ vec_capacity r.subs)
        × IsTableOf slot_in (λ s. s.member) (λ s. s.index) r.others.items r.slots.items
        × (MAX_SLOTS ≤ vec_capacity r.slots)
        × IsByAddress r.members.items r.by_address.items
        × (MAX_MEMBERS ≤ vec_capacity r.by_address)
        × IsByRoom r.members.items r.by_room.items
        × (MAX_MEMBERS ≤ vec_capacity r.by_room) };
}

impl<A: Allocator + Copy> Rows<A> {
    /// A desk without rows, for a bridge of this SSRC. It allocates for all limits. The only error is out of memory.
    pub fn new(alloc: A, bridge_ssrc: u32) -> Result<Self, AllocError>
        ensures desk { IfOk result (λ rows. rows ≡ blank bridge_ssrc) }
        ensures good { IfOk result (λ rows. good rows ≡ true) }
    {
        Ok(Self {
            bridge_ssrc,
            members: Vec::with_capacity(alloc, MAX_MEMBERS)?,
            index: Vec::with_capacity(alloc, MAX_MEMBERS)?,
            others: Vec::with_capacity(alloc, MAX_OTHERS)?,
            spare: Vec::with_capacity(alloc, MAX_OTHERS)?,
            subs: Vec::with_capacity(alloc, MAX_SLOTS)?,
            slots: Vec::with_capacity(alloc, MAX_SLOTS)?,
            by_address: Vec::with_capacity(alloc, MAX_MEMBERS)?,
            by_room: Vec::with_capacity(alloc, MAX_MEMBERS)?,
        })
    }

    /// A copy, which allocates for all limits too. The only error is out of memory.
    pub fn copy(&self, alloc: A) -> Result<Self, AllocError>
        ensures { IfOk result (λ rows. rows ≡ self.now) }
    {
        Ok(Self {
            bridge_ssrc: self.bridge_ssrc,
            members: copied(alloc, &self.members, MAX_MEMBERS)?,
            index: copied(alloc, &self.index, MAX_MEMBERS)?,
            others: copied(alloc, &self.others, MAX_OTHERS)?,
            spare: Vec::with_capacity(alloc, MAX_OTHERS)?,
            subs: copied(alloc, &self.subs, MAX_SLOTS)?,
            slots: copied(alloc, &self.slots, MAX_SLOTS)?,
            by_address: copied(alloc, &self.by_address, MAX_MEMBERS)?,
            by_room: copied(alloc, &self.by_room, MAX_MEMBERS)?,
        })
    }

    /// The SSRC of the bridge itself.
    pub fn bridge_ssrc(&self) -> u32
        ensures { result ≡ self.now.bridge_ssrc }
    {
        self.bridge_ssrc
    }

    /// The members of all rooms, in joining order.
    pub fn members(&self) -> &[Member]
        ensures members { result.now ≡ self.now.members }
        ensures good { good self.now ≡ true }
    {
        &self.members
    }

    /// All other rows, by kind and within a kind by key.
    pub fn others(&self) -> &[Row]
        ensures rows { result.now ≡ self.now.others }
        ensures order { in_order result.now ≡ true }
        ensures good { good self.now ≡ true }
    {
        &self.others
    }

    /// Whether the desk has this very row.
    pub fn holds(&self, row: &Row) -> bool
        ensures { result ≡ holds self.now row.now }
    {
        is_among(&self.members, self.others(), row)
    }

    /// The row with this key, by binary search.
    pub fn find(&self, key: &Key) -> Option<Row>
        ensures row { result ≡ row_at self.now key.now }
        ensures good { good self.now ≡ true }
    {
        row_with(&self.members, &self.index, self.others(), *key)
    }

    /// The place of a member in joining order, from 0 on.
    pub fn place_of(&self, member: u32) -> Option<usize>
        ensures place { result ≡ place_in self.now.members member }
        ensures good { good self.now ≡ true }
    {
        match entry_of(&self.index, member) {
            None => None,
            Some(entry) => Some(entry.place),
        }
    }

    /// The member at this address.
    pub fn member_at_address(&self, address: &Address) -> Option<Member>
        ensures { result ≡ member_at_address self.now address.now }
    {
        find_at(&self.by_address, address)
    }

    /// The number of rows of this kind.
    pub fn count(&self, kind: Kind) -> usize
        ensures { result ≡ count_of kind self.now }
    {
        match kind {
            Kind::Member => self.members().len(),
            _ => self.others_of(kind).len(),
        }
    }

    /// The row of this kind at index `i`. Members stand by place, all others by key. `None` from [`count`](Self::count)
    /// on.
    pub fn at(&self, kind: Kind, i: usize) -> Option<Row>
        ensures { result ≡ slice_get (rows_of_kind kind self.now) i }
    {
        match kind {
            Kind::Member => member_row(&self.members, i),
            _ => other_row(self.others_of(kind), i),
        }
    }

    /// The rows of this kind, by key. For members the list is empty: see [`members`](Self::members).
    pub fn others_of(&self, kind: Kind) -> &[Row]
        ensures rows { result.now ≡ filter (is_of kind) self.now.others }
        ensures good { good self.now ≡ true }
    {
        rows_of_kind(self.others(), kind)
    }

    /// The members of this room, each once, in no stated order.
    pub fn members_of(&self, room: u32) -> &[Member]
        ensures { (member : ℕ)
            → filter (λ m. nat_eq m.member member) result.now
            ≡ filter (λ m. nat_eq m.member member) (members_in self.now room) }
    {
        group_of(&self.by_room, room)
    }

    /// The subscriptions that name this source, by the SSRC of their slots.
    pub fn subs_of(&self, source: u32) -> &[Sub]
        ensures subs { result.now ≡ subs_naming self.now source }
        ensures good { good self.now ≡ true }
    {
        group_of(&self.subs, source)
    }

    /// The slots of this member, by index.
    pub fn slots_of(&self, member: u32) -> &[Slot]
        ensures rising { IsNonDecreasingBy (λ s. s.index) result.now }
        ensures exactly { (index : ℕ)
            → filter (λ s. nat_eq s.index index) result.now
            ≡ filter (λ s. nat_eq s.index index) (slots_naming self.now member) }
        ensures good { good self.now ≡ true }
    {
        group_of(&self.slots, member)
    }

    /// The gains of this member, by the SSRC of their sources.
    pub fn gains_of(&self, member: u32) -> &[Row]
        ensures gains { result.now ≡ gains_naming self.now member }
        ensures good { good self.now ≡ true }
    {
        gains_of(self.others(), member)
    }

    /// The numbers of the room's members, by place. The only error is out of memory.
    pub fn roster(&self, alloc: A, room: u32) -> Result<Vec<u32, A>, AllocError>
        ensures { IfOk result (λ numbers. numbers.items ≡ roster self.now room) }
    {
        numbers_in(alloc, &self.members, room)
    }

    /// Takes the rows that go, and puts those that come. It takes no memory.
    pub(crate) fn exchange(&mut self, edit: &EditLists<'_>)
        requires { fits self.old edit.now ≡ true }
        ensures { self.new ≡ after self.old edit.now }
    {
        exchange_members(
            &mut self.members,
            &mut self.index,
            &mut self.by_address,
            &mut self.by_room,
            edit,
        );
        exchange_rows(&mut self.others, &mut self.spare, edit);
        follow(&mut self.subs, &self.others, edit);
        follow(&mut self.slots, &self.others, edit);
    }
}

/// A copy of the items, with this capacity.
fn copied<T: Copy, A: Allocator>(
    alloc: A,
    items: &[T],
    capacity: usize,
) -> Result<Vec<T, A>, AllocError>
    ensures items { IfOk result (λ v. v.items ≡ items.now) }
    ensures capacity { IfOk result (λ v. capacity ≤ vec_capacity v) }
{
    let mut all = Vec::with_capacity(alloc, capacity)?;
    all.extend_from_slice(items)?;
    Ok(all)
}

impl<A: Allocator + Copy> Look for Rows<A> {
    ghost desk = { λ d. d };

    fn look(&self, key: Key) -> Option<Row> {
        self.find(&key)
    }
}
