//! Carries an edit of rows out.

ghost use Rattle.std.specs.Prelude.{◌≡◌, ℕ, ◌+◌, ◌≤◌, true, IfSome, count_by, nat_eq, length, vec_capacity};
ghost use Rattle.std.specs.List.{list_all};
ghost use Rattle.desk_rows.specs.declared.limits.TheConstants.{MAX_MEMBERS, MAX_OTHERS};
ghost use Rattle.desk_rows.specs.Order.{in_order, is_in, are_apart, have_same_keys, with_rows, without_rows};
ghost use Rattle.desk_rows.specs.Places.{can_take, can_put, take_at, put_at};
ghost use Rattle.desk_rows.specs.Edit.{outs, ins};
ghost use Rattle.desk_rows.specs.inner.tables.Index.{IsIndex};
ghost use Rattle.desk_rows.specs.inner.tables.Addressed.{IsByAddress};
ghost use Rattle.desk_rows.specs.inner.tables.Roomed.{IsByRoom};
ghost use Rattle.desk_rows.specs.inner.judging.Judged.{HasOrders, OnlyReplaces};

use crate::borrowed::EditLists;
use crate::row::{Member, Row};
use crate::tables::addressing::list_by_address;
use crate::tables::following::list_by_room;
use crate::tables::index::{IndexEntry, index_members};
use crate::tables::places::{put_members, take_members};
use crate::tables::sliding::replace_one;
use crate::tables::sweeping::{put_rows, take_rows};
use std::alloc::Allocator;

/// Takes the members that go from their places, and puts those that come at theirs. If any member moves, the index and
/// the tables by address and by room are made anew.
pub(crate) fn exchange_members<A: Allocator + Copy>(
    members: &mut Vec<Member, A>,
    index: &mut Vec<IndexEntry, A>,
    by_address: &mut Vec<Member, A>,
    by_room: &mut Vec<Member, A>,
    edit: &EditLists<'_>,
)
    requires index { IsIndex members.old.items index.old.items }
    requires addresses { IsByAddress members.old.items by_address.old.items }
    requires rooms { IsByRoom members.old.items by_room.old.items }
    requires take { can_take edit.now.taken.members members.old.items ≡ true }
    requires put { can_put edit.now.put.members (take_at edit.now.taken.members members.old.items) ≡ true }
    requires numbers { (n : ℕ)
        → count_by
        (λ m. nat_eq m.member n) (put_at edit.now.put.members (take_at edit.now.taken.members members.old.items)) ≤ 1 }
    requires few { length (take_at edit.now.taken.members members.old.items) + length edit.now.put.members
        ≤ MAX_MEMBERS }
    requires capacity { (MAX_MEMBERS ≤ vec_capacity members.old) × (MAX_MEMBERS ≤ vec_capacity index.old)
        × (MAX_MEMBERS ≤ vec_capacity by_address.old) × (MAX_MEMBERS ≤ vec_capacity by_room.old) }
    ensures items { members.new.items ≡ put_at edit.now.put.members (take_at edit.now.taken.members members.old.items) }
    ensures index { IsIndex members.new.items index.new.items }
    ensures addresses { IsByAddress members.new.items by_address.new.items }
    ensures rooms { IsByRoom members.new.items by_room.new.items }
    ensures capacity { (MAX_MEMBERS ≤ vec_capacity members.new) × (MAX_MEMBERS ≤ vec_capacity index.new)
        × (MAX_MEMBERS ≤ vec_capacity by_address.new) × (MAX_MEMBERS ≤ vec_capacity by_room.new) }
{
    let (taken, put) = (edit.taken_members(), edit.put_members());
    if taken.is_empty() && put.is_empty() {
        return;
    }
    take_members(members, taken);
    put_members(members, put);
    index_members(index, members);
    list_by_address(by_address, members);
    list_by_room(by_room, members);
}

/// The replaced row and its replacement, if the edit changes no other row beside the members.
fn only_replaced(edit: &EditLists<'_>) -> Option<(Row, Row)>
    ensures { IfSome result (λ pair. OnlyReplaces edit.now pair.0 pair.1) }
{
    let (old, new) = (edit.old(), edit.new());
    let moved = edit.taken_others().len() + edit.put_others().len();
    if moved == 0 && old.len() == 1 && new.len() == 1 {
        return Some((old[0], new[0]));
    }
    None
}

/// Takes the other rows that go, and puts those that come where they keep the order. The tables have the capacity.
// Rows before the first one that goes or comes stay where they are. Those after it move through spare memory of the
// same size and back, in runs that are copied at once.
#[tactic(auto, using(crate::proofs::Together::in_turn))]
fn move_rows<A: Allocator + Copy>(
    others: &mut Vec<Row, A>,
    spare: &mut Vec<Row, A>,
    edit: &EditLists<'_>,
)
    requires rows { in_order others.old.items ≡ true }
    requires fit { length others.old.items ≤ MAX_OTHERS }
    requires orders { HasOrders edit.now }
    requires apart { are_apart edit.now.put.others edit.now.replaced.new ≡ true }
    requires later { in_order (with_rows (ins edit.now) (without_rows (outs edit.now) others.old.items)) ≡ true }
    requires few { length (with_rows (ins edit.now) (without_rows (outs edit.now) others.old.items)) ≤ MAX_OTHERS }
    requires capacity { (MAX_OTHERS ≤ vec_capacity others.old) × (MAX_OTHERS ≤ vec_capacity spare.old) }
    ensures items { others.new.items ≡ with_rows (ins edit.now) (without_rows (outs edit.now) others.old.items) }
    ensures capacity { (MAX_OTHERS ≤ vec_capacity others.new) × (MAX_OTHERS ≤ vec_capacity spare.new) }
{
    take_rows(others, spare, edit.taken_others(), edit.old());
    put_rows(others, spare, edit.put_others());
    put_rows(others, spare, edit.new());
}

/// Takes the other rows that go, and puts those that come. A single replaced row is overwritten. The tables have the
/// capacity.
pub(crate) fn exchange_rows<A: Allocator + Copy>(
    others: &mut Vec<Row, A>,
    spare: &mut Vec<Row, A>,
    edit: &EditLists<'_>,
)
    requires rows { in_order others.old.items ≡ true }
    requires fit { length others.old.items ≤ MAX_OTHERS }
    requires orders { HasOrders edit.now }
    requires there { list_all (is_in others.old.items) (outs edit.now) ≡ true }
    requires paired { have_same_keys edit.now.replaced.old edit.now.replaced.new ≡ true }
    requires apart { are_apart edit.now.put.others edit.now.replaced.new ≡ true }
    requires later { in_order (with_rows (ins edit.now) (without_rows (outs edit.now) others.old.items)) ≡ true }
    requires few { length (with_rows (ins edit.now) (without_rows (outs edit.now) others.old.items)) ≤ MAX_OTHERS }
    requires capacity { (MAX_OTHERS ≤ vec_capacity others.old) × (MAX_OTHERS ≤ vec_capacity spare.old) }
    ensures items { others.new.items ≡ with_rows (ins edit.now) (without_rows (outs edit.now) others.old.items) }
    ensures capacity { (MAX_OTHERS ≤ vec_capacity others.new) × (MAX_OTHERS ≤ vec_capacity spare.new) }
{
    match only_replaced(edit) {
        Some((old, new)) => replace_one(others, &old, &new),
        None => move_rows(others, spare, edit),
    }
}
