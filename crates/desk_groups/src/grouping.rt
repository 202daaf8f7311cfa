//! Groups of commands that make the rows of a desk again.

ghost use Rattle.std.specs.Prelude.{◌≡◌, ◌<◌, ◌≤◌, ◌++◌, ◌∷◌, [], true, IfOk, OnOk, length, map};
ghost use Rattle.desk_rows.specs.Desk.{Desk, blank, good, rows_of};
ghost use Rattle.desk_groups.specs.Rooms.{room_rows};
ghost use Rattle.desk_groups.specs.inner.Ranked.{in_making_order};
ghost use Rattle.desk_groups.specs.Making.{command_for, united, lists_of, AcceptsGroups, desk_after_groups};
ghost use Rattle.desk_groups.specs.Making.{made_limit, are_sized, AreGroupsOf, IsFew};

use crate::making::commands_of;
use crate::rooms::{members_of, others_of};
use desk_edit::{Command, good_desks_stay_good};
use desk_rows::Rows;
use std::alloc::{AllocError, Allocator};

/// The most commands of a group that is made. A group may have more, but the longest ones wouldn't fit on a line of an
/// operator then, which has 4,096 octets.
const MADE_LIMIT: usize = 45;

/// How many of so many commands the next group takes.
fn group_size(left: usize) -> usize
    ensures some { 0 < left → 0 < result }
    ensures few { (result ≤ left) × (result ≤ made_limit) }
    ensures full { result < left → result ≡ made_limit }
{
    if left < MADE_LIMIT { left } else { MADE_LIMIT }
}

/// Appends a group of these commands.
#[tactic(auto, using(crate::proofs::Groups::lists_more))]
fn append_group<A: Allocator + Copy>(
    alloc: A,
    groups: &mut Vec<Vec<Command, A>, A>,
    commands: &[Command],
) -> Result<(), AllocError>
    ensures { OnOk result (lists_of groups.new.items ≡ lists_of groups.old.items ++ commands.now ∷ []) }
{
    let group = Vec::from_slice(alloc, commands)?;
    groups.push(group)?;
    Ok(())
}

/// The commands in as few groups as they take, in their order.
fn grouped<A: Allocator + Copy>(
    alloc: A,
    commands: &[Command],
) -> Result<Vec<Vec<Command, A>, A>, AllocError>
    ensures { IfOk result (λ groups. AreGroupsOf commands.now (lists_of groups.items)) }
{
    let mut groups = Vec::new(alloc);
    let mut rest = commands;
    while !rest.is_empty() {
        let (these, later) = rest.split_at(group_size(rest.len()));
        append_group(alloc, &mut groups, these)?;
        rest = later;
    }
    Ok(groups)
}

/// The commands that make all rows.
fn all_commands<A: Allocator + Copy>(
    alloc: A,
    rows: &Rows<A>,
) -> Result<Vec<Command, A>, AllocError>
    ensures { IfOk result (λ commands. commands.items ≡ map command_for (in_making_order rows.now)) }
{
    commands_of(alloc, rows.members(), rows.others())
}

/// The commands that make the rows of the room.
fn room_commands<A: Allocator + Copy>(
    alloc: A,
    rows: &Rows<A>,
    room: u32,
) -> Result<Vec<Command, A>, AllocError>
    ensures { IfOk result
        (λ commands. commands.items ≡ map command_for (in_making_order (room_rows rows.now room))) }
{
    let members = members_of(alloc, rows.members(), room)?;
    let others = others_of(alloc, rows, rows.others(), room)?;
    commands_of(alloc, &members, &others)
}

/// All rows as groups of commands that make them again. The only error is out of memory.
///
/// A desk without rows accepts the groups one after another, and is then the same desk, its members in their order. So
/// does any desk that can have these rows beside its own.
pub fn groups_of<A: Allocator + Copy>(
    alloc: A,
    rows: &Rows<A>,
) -> Result<Vec<Vec<Command, A>, A>, AllocError>
    ensures accepted { IfOk result (λ groups. AcceptsGroups (blank rows.now.bridge_ssrc) (lists_of groups.items)) }
    ensures again { IfOk result
        (λ groups. desk_after_groups (blank rows.now.bridge_ssrc) (lists_of groups.items) ≡ rows.now) }
    ensures accepted_beside { IfOk result (λ groups. (d : Desk) → good d ≡ true → good (united d rows.now) ≡ true
        → AcceptsGroups d (lists_of groups.items)) }
    ensures beside { IfOk result (λ groups. (d : Desk) → good d ≡ true → good (united d rows.now) ≡ true
        → desk_after_groups d (lists_of groups.items) ≡ united d rows.now) }
    ensures sized { IfOk result (λ groups. are_sized (lists_of groups.items) ≡ true) }
    ensures few { IfOk result (λ groups. IsFew (length (rows_of rows.now)) (lists_of groups.items)) }
{
    // Rows are good, which is known where the members are read.
    let _members = rows.members();
    good_desks_stay_good();
    let commands = all_commands(alloc, rows)?;
    grouped(alloc, &commands)
}

/// The rows of one room as groups of commands that make them again. The only error is out of memory.
///
/// Any desk that can have these rows beside its own accepts the groups one after another, and then has them: members
/// stand behind those that are there. Of a room that isn't there, there is no group.
pub fn groups_of_room<A: Allocator + Copy>(
    alloc: A,
    rows: &Rows<A>,
    room: u32,
) -> Result<Vec<Vec<Command, A>, A>, AllocError>
    ensures accepted { IfOk result (λ groups. (d : Desk) → good d ≡ true
        → good (united d (room_rows rows.now room)) ≡ true → AcceptsGroups d (lists_of groups.items)) }
    ensures beside { IfOk result (λ groups. (d : Desk) → good d ≡ true
        → good (united d (room_rows rows.now room)) ≡ true
        → desk_after_groups d (lists_of groups.items) ≡ united d (room_rows rows.now room)) }
    ensures sized { IfOk result (λ groups. are_sized (lists_of groups.items) ≡ true) }
    ensures few { IfOk result
        (λ groups. IsFew (length (rows_of (room_rows rows.now room))) (lists_of groups.items)) }
{
    // Rows are good, which is known where the members are read.
    let _members = rows.members();
    good_desks_stay_good();
    let commands = room_commands(alloc, rows, room)?;
    grouped(alloc, &commands)
}
