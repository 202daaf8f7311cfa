//! Plans a group: several commands that are one call.

ghost use Rattle.std.specs.Prelude.{◌≡◌, ◌≢◌, ◌+◌, ◌≤◌, ◌<◌, ◌^◌, ◌++◌, ◌∷◌, [], true, List, length, fold, take};
ghost use Rattle.std.specs.Prelude.{vec_len, vec_capacity, None, Some, IfOk, IfErr, OnOk};
ghost use Rattle.undo_log.specs.Timeline.{all_fit};
ghost use Rattle.desk_rows.specs.Edit.{EditOf};
ghost use Rattle.desk_rows.specs.Exchange.{fits, after};
ghost use Rattle.desk_edit.specs.Commands.{desk_after};
ghost use Rattle.desk_edit.specs.Refusals.{reason_against};
ghost use Rattle.desk_edit.specs.Groups.{desk_after_all, part_refused, size_refused, group_refused};
ghost use Rattle.desk_edit.specs.inner.Parts.{Carries};

use crate::command::Command;
use crate::editing::edit_for;
use crate::refusal::GroupRefusal;
use crate::refusing::reason_against;
use desk_rows::{Edit, Rows};
use std::alloc::Allocator;

/// The most commands of a group.
pub const MAX_GROUP: usize = 64;

/// The refusal of a group of this size: none, or more than 64 commands.
pub fn size_refused(count: usize) -> Option<GroupRefusal>
    ensures { result ≡ size_refused count }
{
    if count == 0 {
        Some(GroupRefusal::Empty)
    } else if count > MAX_GROUP {
        Some(GroupRefusal::TooLong)
    } else {
        None
    }
}

/// Plans one command of a group, which numbers them from 0.
fn plan_part<A: Allocator + Copy>(
    alloc: A,
    rows: &Rows<A>,
    part: u32,
    command: &Command,
) -> Result<Edit<A>, GroupRefusal>
    ensures fits { IfOk result (λ edit. fits rows.now edit ≡ true) }
    ensures carries_out { IfOk result (λ edit. after rows.now edit ≡ desk_after rows.now command.now) }
    ensures accepted { OnOk result (reason_against rows.now command.now ≡ None) }
    ensures first { IfErr result (λ why. why ≢ GroupRefusal.OutOfMemory
        → part_refused part rows.now (command.now ∷ []) ≡ Some why) }
    ensures memory { result ≡ Err GroupRefusal.OutOfMemory → reason_against rows.now command.now ≡ None }
{
    if let Some(why) = reason_against(rows, command) {
        return Err(GroupRefusal::Part { part, why });
    }
    match edit_for(alloc, rows, &command.form()) {
        Ok(edit) => Ok(edit),
        Err(_) => Err(GroupRefusal::OutOfMemory),
    }
}

/// Plans each command on the desk after those before it, and appends its edit.
fn plan_parts<A: Allocator + Copy>(
    alloc: A,
    rows: &mut Rows<A>,
    commands: &[Command],
    edits: &mut Vec<Edit<A>, A>,
) -> Result<(), GroupRefusal>
    requires few { vec_len edits.old + length commands.now ≤ MAX_GROUP }
    requires capacity { vec_len edits.old + length commands.now ≤ vec_capacity edits.old }
    ensures carries_out { OnOk result (Carries rows.old commands.now edits.old.items edits.new.items) }
    ensures accepted { OnOk result (part_refused (vec_len edits.old) rows.old commands.now ≡ None) }
    ensures room { vec_capacity edits.new ≡ vec_capacity edits.old }
    ensures first { IfErr result (λ why. why ≢ GroupRefusal.OutOfMemory
        → part_refused (vec_len edits.old) rows.old commands.now ≡ Some why) }
{
    let mut rest = commands;
    while let Some((command, later)) = rest.split_first() {
        let part = edits.len() as u32;
        let edit = plan_part(alloc, rows, part, command)?;
        rows.absorb_fitting(&edit);
        edits.push_reserved(edit);
        rest = later;
    }
    Ok(())
}

/// Plans the commands behind the first one on a copy of the rows, with the first one's edit absorbed.
fn plan_later<A: Allocator + Copy>(
    alloc: A,
    rows: &Rows<A>,
    first: Edit<A>,
    later: &[Command],
) -> Result<Vec<Edit<A>, A>, GroupRefusal>
    requires few { 1 + length later.now ≤ MAX_GROUP }
    requires fits { fits rows.now first ≡ true }
    ensures carries_out { IfOk result (λ edits. Carries (after rows.now first) later.now (first ∷ []) edits.items) }
    ensures accepted { OnOk result (part_refused 1 (after rows.now first) later.now ≡ None) }
    ensures room { IfOk result (λ edits. vec_capacity edits ≡ 1 + length later.now) }
    ensures first { IfErr result (λ why. why ≢ GroupRefusal.OutOfMemory
        → part_refused 1 (after rows.now first) later.now ≡ Some why) }
{
    let Ok(mut edits) = Vec::with_capacity(alloc, 1 + later.len()) else {
        return Err(GroupRefusal::OutOfMemory);
    };
    if later.is_empty() {
        edits.push_reserved(first);
        return Ok(edits);
    }
    let Ok(mut copy) = rows.copy(alloc) else {
        return Err(GroupRefusal::OutOfMemory);
    };
    copy.absorb_fitting(&first);
    edits.push_reserved(first);
    plan_parts(alloc, &mut copy, later, &mut edits)?;
    Ok(edits)
}

/// Plans a group: one edit for each command, or the group's first refusal. Nothing changes.
///
/// Each command is judged on the desk after those before it. The list has capacity for these edits and no more, since
/// a history keeps it. Out of memory is reported only if the size is good and the
/// first command is not refused; later commands may not have been judged then.
// Which growth of memory was refused is no part of the answer. So the contract can't say when a group of which a later
// command would be refused gets out of memory instead.
pub fn plan_group<A: Allocator + Copy>(
    alloc: A,
    rows: &Rows<A>,
    commands: &[Command],
) -> Result<Vec<Edit<A>, A>, GroupRefusal>
    ensures fits { IfOk result (λ edits. all_fit fits after rows.now edits.items ≡ true) }
    ensures carries_out { IfOk result
        (λ edits. fold after rows.now edits.items ≡ desk_after_all rows.now commands.now) }
    ensures each { IfOk result (λ edits. length edits.items ≡ length commands.now) }
    ensures room { IfOk result (λ edits. vec_capacity edits ≡ length commands.now) }
    ensures accepted { OnOk result (group_refused rows.now commands.now ≡ None) }
    ensures first { IfErr result (λ why. why ≢ GroupRefusal.OutOfMemory
        → group_refused rows.now commands.now ≡ Some why) }
    ensures memory { result ≡ Err GroupRefusal.OutOfMemory
        → (size_refused (length commands.now) ≡ None) × (part_refused 0 rows.now (take 1 commands.now) ≡ None) }
{
    if let Some(why) = size_refused(commands.len()) {
        return Err(why);
    }
    let Some((command, later)) = commands.split_first() else {
        return Err(GroupRefusal::Empty);
    };
    let first = plan_part(alloc, rows, 0, command)?;
    plan_later(alloc, rows, first, later)
}
