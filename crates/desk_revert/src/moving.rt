//! Which rows come and go.

ghost use Rattle.std.specs.Prelude.{◌≡◌, ◌&&◌, true, fold, map, filter, IfOk};
ghost use Rattle.std.specs.List.{list_any};
ghost use Rattle.undo_log.specs.Timeline.{all_fit};
ghost use Rattle.desk_rows.specs.declared.row.Row.TheVariants.{Member as MemberRow};
ghost use Rattle.desk_rows.specs.Desk.{Desk};
ghost use Rattle.desk_rows.specs.declared.key.Key.TheVariants.{Member as MemberKey};
ghost use Rattle.desk_rows.specs.Row.{has_key, key_of};
ghost use Rattle.desk_rows.specs.Order.{without_rows};
ghost use Rattle.desk_rows.specs.Exchange.{fits, after};
ghost use Rattle.desk_edit.specs.AsIf.{is_moved, is_standing, moved_keys};
ghost use Rattle.desk_revert.specs.Spans.{Exchanges};
ghost use Rattle.desk_revert.specs.Moving.{takes_key, puts_key, bring_or_take};

use desk_rows::{Edit, Key, Placed, Row, Rows};
use std::alloc::{AllocError, Allocator};

fn any_member(members: &[Placed], key: Key) -> bool
    ensures { result ≡ list_any (λ p. has_key key (MemberRow p.row)) members.now }
{
    members
        .iter()
        .any(|placed| Row::Member(placed.row).has_key(key))
}

fn any_row(rows: &[Row], key: Key) -> bool
    ensures { result ≡ list_any (has_key key) rows.now }
{
    rows.iter().any(|row| row.has_key(key))
}

fn takes<A: Allocator + Copy>(edit: &Edit<A>, key: Key) -> bool
    ensures { result ≡ takes_key edit.now key }
{
    any_member(edit.taken_members(), key)
        || any_row(edit.taken_others(), key)
        || any_row(edit.old(), key)
}

fn puts<A: Allocator + Copy>(edit: &Edit<A>, key: Key) -> bool
    ensures { result ≡ puts_key edit.now key }
{
    any_member(edit.put_members(), key)
        || any_row(edit.put_others(), key)
        || any_row(edit.new(), key)
}

/// Whether the row of this key is there on one side of the edits alone: on the desk before them or on the one after
/// them. The edits fit, one after another.
pub fn bring_or_take<A: Allocator + Copy>(edits: &[Edit<A>], key: Key) -> bool
    ensures told { result ≡ bring_or_take edits.now key }
    ensures moved { (d : Desk) → all_fit fits after d edits.now ≡ true
        → result ≡ is_moved d (fold after d edits.now) key }
{
    let mut moved = false;
    let mut rest = edits;
    while let Some((edit, later)) = rest.split_first() {
        moved = moved != (takes(edit, key) != puts(edit, key));
        rest = later;
    }
    moved
}

fn is_standing(key: Key) -> bool
    ensures { result ≡ is_standing key }
{
    match key {
        Key::Room(_) | Key::Member(_) | Key::Source(_) | Key::Slot(_) => true,
        Key::Sub(_) | Key::Mute(_) | Key::Gain { .. } | Key::Pin(_) | Key::Floor(_) => false,
    }
}

/// Whether the row of this key is there on one of the two desks alone.
#[tactic(auto, using(crate::proofs::Words::is_found))]
fn is_moved<A: Allocator + Copy>(before: &Rows<A>, behind: &Rows<A>, key: Key) -> bool
    ensures { result ≡ is_moved before.now behind.now key }
{
    if before.find(&key).is_some() {
        behind.find(&key).is_none()
    } else {
        behind.find(&key).is_some()
    }
}

/// Whether it is a room, member, source or slot that comes or goes.
fn is_told<A: Allocator + Copy>(before: &Rows<A>, behind: &Rows<A>, key: Key) -> bool
    ensures { result ≡ (is_standing key && is_moved before.now behind.now key) }
{
    is_standing(key) && is_moved(before, behind, key)
}

fn told_members<A: Allocator + Copy>(
    alloc: A,
    before: &Rows<A>,
    behind: &Rows<A>,
    members: &[Placed],
) -> Result<Vec<Key, A>, AllocError>
    ensures { IfOk result (λ keys. keys.items ≡ filter (λ key. is_standing key && is_moved before.now behind.now key)
        (map (λ p. MemberKey p.row.member) members.now)) }
{
    members
        .iter()
        .map(|placed| Key::Member(placed.row.member))
        .filter(|key| is_told(before, behind, *key))
        .collect(alloc)
}

fn told_rows<A: Allocator + Copy>(
    alloc: A,
    before: &Rows<A>,
    behind: &Rows<A>,
    rows: &[Row],
) -> Result<Vec<Key, A>, AllocError>
    ensures { IfOk result (λ keys. keys.items ≡ filter (λ key. is_standing key && is_moved before.now behind.now key)
        (map key_of rows.now)) }
{
    rows.iter()
        .map(|row| row.key())
        .filter(|key| is_told(before, behind, *key))
        .collect(alloc)
}

/// The keys of the rooms, members, sources and slots that come or go by the difference of two desks: first those of the
/// rows before it, then those of the rows behind it. The only error is out of memory.
pub fn moved_keys<A: Allocator + Copy>(
    alloc: A,
    before: &Rows<A>,
    behind: &Rows<A>,
    edit: &Edit<A>,
) -> Result<Vec<Key, A>, AllocError>
    requires members { Exchanges before.now.members behind.now.members edit.now.taken.members edit.now.put.members }
    requires gone { edit.now.taken.others ≡ without_rows behind.now.others before.now.others }
    requires come { edit.now.put.others ≡ without_rows before.now.others behind.now.others }
    ensures { IfOk result (λ keys. keys.items ≡ moved_keys before.now behind.now) }
{
    let mut keys = told_members(alloc, before, behind, edit.taken_members())?;
    let gone = told_rows(alloc, before, behind, edit.taken_others())?;
    let come = told_members(alloc, before, behind, edit.put_members())?;
    let new = told_rows(alloc, before, behind, edit.put_others())?;
    keys.extend_from_slice(&gone)?;
    keys.extend_from_slice(&come)?;
    keys.extend_from_slice(&new)?;
    Ok(keys)
}
