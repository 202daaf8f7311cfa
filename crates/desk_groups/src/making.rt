//! The commands that make the rows of a desk, in an order in which each names only what is there.

ghost use Rattle.std.specs.Prelude.{◌≡◌, ◌++◌, OnOk, IfOk, map, filter};
ghost use Rattle.desk_rows.specs.Kinds.{is_of};
ghost use Rattle.desk_rows.specs.declared.row.Row.TheVariants.{Member as MemberRow};
ghost use Rattle.desk_groups.specs.Making.{command_for};
ghost use Rattle.desk_groups.specs.inner.Ranked.{kind_by_kind, in_making_order, these};

use desk_edit::Command;
use desk_rows::{Kind, Member, Row};
use std::alloc::{AllocError, Allocator};

/// The command that puts a row.
fn command_for(row: &Row) -> Command
    ensures { result ≡ command_for row.now }
{
    match row {
        Row::Room(room) => Command::AddRoom(*room),
        Row::Member(member) => Command::AddMember(*member),
        Row::Source(source) => Command::AddSource(*source),
        Row::Slot(slot) => Command::AddSlot(*slot),
        Row::Sub(sub) => Command::Subscribe(*sub),
        Row::Mute(mute) => Command::Mute(*mute),
        Row::Gain(gain) => Command::SetGain(*gain),
        Row::Pin(pin) => Command::Pin(*pin),
        Row::Floor(floor) => Command::GiveFloor(*floor),
    }
}

/// Appends the commands that put these rows.
fn append_rows<A: Allocator>(commands: &mut Vec<Command, A>, rows: &[Row]) -> Result<(), AllocError>
    ensures { OnOk result (commands.new.items ≡ commands.old.items ++ map command_for rows.now) }
{
    let mut rest = rows;
    while let Some((row, later)) = rest.split_first() {
        commands.push(command_for(row))?;
        rest = later;
    }
    Ok(())
}

/// Appends the commands that put these members.
fn append_members<A: Allocator>(
    commands: &mut Vec<Command, A>,
    members: &[Member],
) -> Result<(), AllocError>
    ensures { OnOk result
        (commands.new.items ≡ commands.old.items ++ map command_for (map MemberRow members.now)) }
{
    let mut rest = members;
    while let Some((member, later)) = rest.split_first() {
        commands.push(command_for(&Row::Member(*member)))?;
        rest = later;
    }
    Ok(())
}

/// The rows of this kind.
fn of_kind<A: Allocator>(alloc: A, rows: &[Row], kind: Kind) -> Result<Vec<Row, A>, AllocError>
    ensures { IfOk result (λ v. v.items ≡ filter (is_of kind) rows.now) }
{
    rows.iter()
        .filter(|row| row.is_of(kind))
        .copied()
        .collect(alloc)
}

/// Appends the commands that put the rows of this kind.
fn append_kind<A: Allocator + Copy>(
    alloc: A,
    commands: &mut Vec<Command, A>,
    rows: &[Row],
    kind: Kind,
) -> Result<(), AllocError>
    ensures { OnOk result
        (commands.new.items ≡ commands.old.items ++ map command_for (filter (is_of kind) rows.now)) }
{
    let these = of_kind(alloc, rows, kind)?;
    append_rows(commands, &these)
}

/// Appends the commands that put the rows of these kinds.
fn append_kinds<A: Allocator + Copy>(
    alloc: A,
    commands: &mut Vec<Command, A>,
    rows: &[Row],
    kinds: &[Kind],
) -> Result<(), AllocError>
    ensures { OnOk result
        (commands.new.items ≡ commands.old.items ++ map command_for (kind_by_kind kinds.now rows.now)) }
{
    let mut rest = kinds;
    while let Some((kind, later)) = rest.split_first() {
        append_kind(alloc, commands, rows, *kind)?;
        rest = later;
    }
    Ok(())
}

/// The commands that make these rows: rooms, members in joining order, and then what names them.
pub(crate) fn commands_of<A: Allocator + Copy>(
    alloc: A,
    members: &[Member],
    others: &[Row],
) -> Result<Vec<Command, A>, AllocError>
    ensures { IfOk result
        (λ commands. commands.items ≡ map command_for (in_making_order (these members.now others.now))) }
{
    let mut commands = Vec::new(alloc);
    append_kind(alloc, &mut commands, others, Kind::Room)?;
    append_members(&mut commands, members)?;
    append_kinds(
        alloc,
        &mut commands,
        others,
        &[
            Kind::Source,
            Kind::Slot,
            Kind::Sub,
            Kind::Mute,
            Kind::Gain,
            Kind::Pin,
            Kind::Floor,
        ],
    )?;
    Ok(commands)
}
