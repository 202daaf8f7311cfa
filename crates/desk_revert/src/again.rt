//! Carries commands out again, on a desk as if a call before them had never been made.

ghost use Rattle.std.specs.Prelude.{◌≡◌, ◌≢◌, ◌+◌, ◌<◌, ◌^◌, ◌∷◌, [], true, None, Some, IfErr, OnOk, length};
ghost use Rattle.desk_edit.specs.Commands.{desk_after};
ghost use Rattle.desk_edit.specs.Groups.{desk_after_all};
ghost use Rattle.desk_edit.specs.Refusals.{is_replaced};
ghost use Rattle.desk_edit.specs.AsIf.{is_idle, in_the_way, first_in_the_way};

use desk_edit::{Command, Form, GroupRefusal, plan_group};
use desk_rows::{Key, Row, Rows};
use std::alloc::Allocator;

/// Whether a row of this kind replaces the one of its key.
fn is_replaced(row: &Row) -> bool
    ensures { result ≡ is_replaced row.now }
{
    match row {
        Row::Room(_) | Row::Member(_) | Row::Source(_) | Row::Slot(_) => false,
        Row::Sub(_) | Row::Mute(_) | Row::Gain(_) | Row::Pin(_) | Row::Floor(_) => true,
    }
}

/// Whether the command asks for what is so already: the row stands as it would be, there is no row to take, or the
/// member is in the room. Such a command changes nothing.
#[tactic(auto, using(crate::proofs::Words::is_found))]
pub fn is_idle<A: Allocator + Copy>(rows: &Rows<A>, command: &Command) -> bool
    ensures { result ≡ is_idle rows.now command.now }
{
    match command.form() {
        Form::Put(row) => is_replaced(&row) && rows.holds(&row),
        Form::Remove(key) => rows.find(&key).is_none(),
        Form::Move { member, room } => {
            match rows.find(&Key::Member(member)) {
                Some(Row::Member(row)) => row.room == room,
                _ => false,
            }
        }
    }
}

/// Carries out one command of a list, which numbers them from 0, unless it is idle.
fn carry_out_one<A: Allocator + Copy>(
    alloc: A,
    rows: &mut Rows<A>,
    part: u32,
    command: &Command,
) -> Result<(), GroupRefusal>
    ensures done { OnOk result (rows.new ≡ desk_after rows.old command.now) }
    ensures free { OnOk result (in_the_way rows.old command.now ≡ None) }
    ensures first { IfErr result (λ why. why ≢ GroupRefusal.OutOfMemory
        → first_in_the_way part rows.old (command.now ∷ []) ≡ Some why) }
{
    // Rows are good, which is known where the members are read.
    let _members = rows.members();
    if is_idle(rows, command) {
        return Ok(());
    }
    match plan_group(alloc, rows, &[*command]) {
        Ok(edits) => {
            rows.absorb_fitting(&edits[0]);
            Ok(())
        }
        Err(GroupRefusal::Part { why, .. }) => Err(GroupRefusal::Part { part, why }),
        Err(_) => Err(GroupRefusal::OutOfMemory),
    }
}

/// Carries commands out again, one after another. One that is idle is skipped. The first that stands in the way is told
/// by its place from 0 on, and then the rows are those that it stands against.
pub fn carry_out_again<A: Allocator + Copy>(
    alloc: A,
    rows: &mut Rows<A>,
    commands: &[Command],
) -> Result<(), GroupRefusal>
    requires { length commands.now < 2 ^ 32 }
    ensures done { OnOk result (rows.new ≡ desk_after_all rows.old commands.now) }
    ensures free { OnOk result (first_in_the_way 0 rows.old commands.now ≡ None) }
    ensures first { IfErr result (λ why. why ≢ GroupRefusal.OutOfMemory
        → first_in_the_way 0 rows.old commands.now ≡ Some why) }
{
    let mut part = 0;
    let mut rest = commands;
    while let Some((command, later)) = rest.split_first() {
        carry_out_one(alloc, rows, part, command)?;
        part += 1;
        rest = later;
    }
    Ok(())
}
