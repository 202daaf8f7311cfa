//! Makes the edits that carry commands out.

ghost use Rattle.std.specs.Prelude.{◌≡◌, true, ◌++◌, OnOk, ◌∷◌, [], map, filter, length, IfOk, nat_eq, not};
ghost use Rattle.desk_rows.specs.declared.row.Row.TheVariants.{Member as MemberRow};
ghost use Rattle.desk_rows.specs.Row.{names, key_of};
ghost use Rattle.desk_rows.specs.Kinds.{is_of};
ghost use Rattle.desk_rows.specs.Desk.{are_together, good, row_at};
ghost use Rattle.desk_edit.specs.Depends.{goes_with};
ghost use Rattle.desk_edit.specs.Commands.{with_member_in};
ghost use Rattle.desk_edit.specs.inner.Levels.{found_list};
ghost use Rattle.desk_edit.specs.inner.Edits.{puts_other, puts_member, replaces, puts_in_place, puts, placed_from};
ghost use Rattle.desk_edit.specs.inner.Edits.{takes_all, placed_in, moves_member, edit_for};

use crate::command::Form;
use crate::moving::Moved;
use crate::picking::{Picked, all_placed_in, members_picked};
use crate::removing::{members_going, others_going};
use desk_rows::{Edit, Key, Member, Part, Placed, Replaced, Row, Rows};
use std::alloc::{AllocError, Allocator};

pub(crate) fn one_row<A: Allocator>(alloc: A, row: Row) -> Result<Vec<Row, A>, AllocError>
    ensures { IfOk result (λ v. v.items ≡ row ∷ []) }
{
    let mut rows = Vec::new(alloc);
    rows.push(row)?;
    Ok(rows)
}

fn one_member<A: Allocator>(alloc: A, placed: Placed) -> Result<Vec<Placed, A>, AllocError>
    ensures { IfOk result (λ v. v.items ≡ placed ∷ []) }
{
    let mut members = Vec::new(alloc);
    members.push(placed)?;
    Ok(members)
}

/// Puts a row that is not a member.
fn put_other<A: Allocator + Copy>(alloc: A, row: Row) -> Result<Edit<A>, AllocError>
    ensures { IfOk result (λ edit. edit ≡ puts_other row) }
{
    Ok(Edit {
        taken: Part::none(alloc),
        put: Part::new(Vec::new(alloc), one_row(alloc, row)?),
        replaced: Replaced::none(alloc),
    })
}

/// Puts a member at this place.
fn put_member<A: Allocator + Copy>(
    alloc: A,
    place: usize,
    row: Member,
) -> Result<Edit<A>, AllocError>
    ensures { IfOk result (λ edit. edit ≡ puts_member place row) }
{
    Ok(Edit {
        taken: Part::none(alloc),
        put: Part::new(one_member(alloc, Placed { place, row })?, Vec::new(alloc)),
        replaced: Replaced::none(alloc),
    })
}

/// Replaces a row by another of its key.
fn replace<A: Allocator + Copy>(alloc: A, old: Row, new: Row) -> Result<Edit<A>, AllocError>
    ensures { IfOk result (λ edit. edit ≡ replaces old new) }
{
    Ok(Edit {
        taken: Part::none(alloc),
        put: Part::none(alloc),
        replaced: Replaced::new(one_row(alloc, old)?, one_row(alloc, new)?),
    })
}

fn put_in_place<A: Allocator + Copy>(
    alloc: A,
    old: Option<Row>,
    row: Row,
) -> Result<Edit<A>, AllocError>
    ensures { IfOk result (λ edit. edit ≡ puts_in_place old row) }
{
    match old {
        None => put_other(alloc, row),
        Some(old) => replace(alloc, old, row),
    }
}

/// Puts the row. A member stands last of all; any other row replaces the one of its key.
fn put<A: Allocator + Copy>(alloc: A, rows: &Rows<A>, row: Row) -> Result<Edit<A>, AllocError>
    ensures edit { IfOk result (λ edit. edit ≡ puts rows.now row) }
    ensures good { good rows.now ≡ true }
{
    match row {
        Row::Member(member) => put_member(alloc, rows.members().len(), member),
        _ => put_in_place(alloc, rows.find(&row.key()), row),
    }
}

/// Takes the row of this key, and all rows that depend on it.
fn remove<A: Allocator + Copy>(alloc: A, rows: &Rows<A>, key: Key) -> Result<Edit<A>, AllocError>
    ensures edit { IfOk result (λ edit. edit ≡ takes_all rows.now (goes_with rows.now key)) }
    ensures good { good rows.now ≡ true }
{
    let members = members_going(alloc, rows, key)?;
    let others = others_going(alloc, rows, key, members.is_empty())?;
    Ok(Edit {
        taken: Part::new(members, others),
        put: Part::none(alloc),
        replaced: Replaced::none(alloc),
    })
}

/// The rows among these that name two different rooms.
fn parted<A: Allocator + Copy>(
    alloc: A,
    moved: &Moved<'_, A>,
    others: &[Row],
) -> Result<Vec<Row, A>, AllocError>
    ensures { IfOk result
        (λ v. v.items
        ≡ filter (λ r. not
        (are_together (with_member_in moved.now.rows.now moved.now.member moved.now.room) (names r))) others.now) }
{
    others
        .iter()
        .filter(|row| moved.parts(row))
        .copied()
        .collect(alloc)
}

/// The rows that name two different rooms after the move. They depend on the member.
fn others_parted<A: Allocator + Copy>(
    alloc: A,
    rows: &Rows<A>,
    member: u32,
    room: u32,
) -> Result<Vec<Row, A>, AllocError>
    ensures { IfOk result
        (λ v. v.items
        ≡ filter (λ r. not (are_together (with_member_in rows.now member room) (names r))) rows.now.others) }
{
    let dependent = others_going(alloc, rows, Key::Member(member), false)?;
    parted(alloc, &Moved { rows, member, room }, &dependent)
}

/// Moves the member to the room, and takes the rows that name two different rooms then.
fn move_member<A: Allocator + Copy>(
    alloc: A,
    rows: &Rows<A>,
    member: u32,
    room: u32,
) -> Result<Edit<A>, AllocError>
    ensures edit { IfOk result (λ edit. edit ≡ moves_member rows.now member room) }
    ensures good { good rows.now ≡ true }
{
    let members = members_picked(alloc, rows.members(), Picked::Only(member))?;
    let moved = all_placed_in(alloc, room, &members)?;
    Ok(Edit {
        taken: Part::new(members, others_parted(alloc, rows, member, room)?),
        put: Part::new(moved, Vec::new(alloc)),
        replaced: Replaced::none(alloc),
    })
}

/// The edit that does this to the rows.
#[tactic(auto, unfolding(crate::specs::inner::Edits::edit_for))]
pub(crate) fn edit_for<A: Allocator + Copy>(
    alloc: A,
    rows: &Rows<A>,
    form: &Form,
) -> Result<Edit<A>, AllocError>
    ensures edit { IfOk result (λ edit. edit ≡ edit_for rows.now form.now) }
    ensures good { good rows.now ≡ true }
{
    match form {
        Form::Put(row) => put(alloc, rows, *row),
        Form::Remove(key) => remove(alloc, rows, *key),
        Form::Move { member, room } => move_member(alloc, rows, *member, *room),
    }
}
