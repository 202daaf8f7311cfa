//! Appending the words of calls to a text.

ghost use Rattle.std.specs.Prelude.{◌++◌, decimal, codes};
ghost use Rattle.std.specs.List.{flat_map};
ghost use Rattle.desk_edit.specs.Asked.{asked_by};
ghost use Rattle.desk_edit.specs.Asked.CallOf.{Group};
ghost use Rattle.desk_text.specs.Calls.{call_line};
ghost use Rattle.desk_text.specs.inner.Growing.{buffer_of, Grows};
ghost use Rattle.desk_text.specs.inner.Pieces.{next_value, command_line, other_part, parts_behind};

use crate::appending::{append, append_number, append_value};
use crate::naming::{name, values};
use crate::value::Value;
use desk_edit::{Call, Command};
use desk_rows::RowValue;
use std::alloc::{AllocError, Allocator};

/// Appends a space and a value.
fn append_next<A: Allocator>(value: RowValue, out: &mut Vec<u8, A>) -> Result<(), AllocError>
    ensures { Grows (buffer_of out.old) (buffer_of out.new) (next_value value) result }
{
    append(b" ", out)?;
    append_value(Value::of_row(value), out)
}

/// Appends values, each with a space before it.
fn append_values<A: Allocator>(values: &[RowValue], out: &mut Vec<u8, A>) -> Result<(), AllocError>
    ensures { Grows (buffer_of out.old) (buffer_of out.new) (flat_map next_value values.now) result }
{
    for value in values {
        append_next(*value, out)?;
    }
    Ok(())
}

fn append_named<A: Allocator>(
    name: &[u8],
    values: &[RowValue],
    out: &mut Vec<u8, A>,
) -> Result<(), AllocError>
    ensures { Grows (buffer_of out.old) (buffer_of out.new) (name.now ++ flat_map next_value values.now) result }
{
    append(name, out)?;
    append_values(values, out)
}

/// Appends the words of a command.
fn append_command<A: Allocator>(command: &Command, out: &mut Vec<u8, A>) -> Result<(), AllocError>
    ensures { Grows (buffer_of out.old) (buffer_of out.new) (command_line command.now) result }
{
    append_named(name(command), values(command).as_slice(), out)
}

/// Appends the words of a command of a group behind those of another.
fn append_other<A: Allocator>(command: &Command, out: &mut Vec<u8, A>) -> Result<(), AllocError>
    ensures { Grows (buffer_of out.old) (buffer_of out.new) (other_part command.now) result }
{
    append(b" / ", out)?;
    append_command(command, out)
}

/// Appends the words of commands of a group behind those of another.
fn append_others<A: Allocator>(commands: &[Command], out: &mut Vec<u8, A>) -> Result<(), AllocError>
    ensures { Grows (buffer_of out.old) (buffer_of out.new) (flat_map other_part commands.now) result }
{
    for command in commands {
        append_other(command, out)?;
    }
    Ok(())
}

/// Appends the words of the first command of a group.
fn append_first<A: Allocator>(command: &Command, out: &mut Vec<u8, A>) -> Result<(), AllocError>
    ensures { Grows (buffer_of out.old) (buffer_of out.new) (codes " " ++ command_line command.now) result }
{
    append(b" ", out)?;
    append_command(command, out)
}

/// Appends the words of the commands of a group.
fn append_commands<A: Allocator>(
    commands: &[Command],
    out: &mut Vec<u8, A>,
) -> Result<(), AllocError>
    ensures { Grows (buffer_of out.old) (buffer_of out.new) (parts_behind commands.now) result }
{
    match commands {
        [] => Ok(()),
        [first, others @ ..] => {
            append_first(first, out)?;
            append_others(others, out)
        }
    }
}

/// Appends the first word of a group and its commands.
fn append_parts<A: Allocator>(commands: &[Command], out: &mut Vec<u8, A>) -> Result<(), AllocError>
    ensures { Grows (buffer_of out.old) (buffer_of out.new) (codes "group" ++ parts_behind commands.now) result }
{
    append(b"group", out)?;
    append_commands(commands, out)
}

/// Appends the words of a group.
pub(crate) fn append_group<A: Allocator>(
    commands: &[Command],
    out: &mut Vec<u8, A>,
) -> Result<(), AllocError>
    ensures { Grows (buffer_of out.old) (buffer_of out.new) (call_line (Group commands.now)) result }
{
    append_parts(commands, out)
}

/// Appends these octets and a number.
pub(crate) fn append_last<A: Allocator>(
    head: &[u8],
    last: u64,
    out: &mut Vec<u8, A>,
) -> Result<(), AllocError>
    ensures { Grows (buffer_of out.old) (buffer_of out.new) (head.now ++ decimal last) result }
{
    append(head, out)?;
    append_number(last, out)
}

/// Appends the words of a call.
pub(crate) fn append_call<A: Allocator, C: Allocator + Copy>(
    call: &Call<C>,
    out: &mut Vec<u8, A>,
) -> Result<(), AllocError>
    ensures { Grows (buffer_of out.old) (buffer_of out.new) (call_line (asked_by call.now)) result }
{
    match call {
        Call::Apply(command) => append_command(command, out),
        Call::Group(commands) => append_group(commands, out),
        Call::Undo { last } => append_last(b"undo ", *last, out),
        Call::Redo { last } => append_last(b"redo ", *last, out),
        Call::Revert { number } => append_last(b"revert ", *number, out),
    }
}
