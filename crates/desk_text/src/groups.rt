//! The lines of groups of commands.

ghost use Rattle.std.specs.Prelude.{◌≡◌, ◌+◌, ◌<◌, ◌++◌, length, OnOk, OnErr, vec_len, vec_capacity};
ghost use Rattle.std.specs.List.{flat_map};
ghost use Rattle.desk_text.specs.inner.Growing.{buffer_of, Grows};
ghost use Rattle.desk_text.specs.GroupsText.{lists_in, group_line, groups_text};

use crate::appending::append;
use crate::history::append_end;
use crate::telling::append_group;
use desk_edit::Command;
use std::alloc::{AllocError, Allocator};

/// Appends the line of a group.
fn append_group_line<A: Allocator>(
    commands: &[Command],
    out: &mut Vec<u8, A>,
) -> Result<(), AllocError>
    ensures { Grows (buffer_of out.old) (buffer_of out.new) (group_line commands.now) result }
{
    append_group(commands, out)?;
    append(b"\n", out)
}

/// Appends the lines of groups.
fn append_groups<A: Allocator, C: Allocator + Copy>(
    groups: &[Vec<Command, C>],
    out: &mut Vec<u8, A>,
) -> Result<(), AllocError>
    ensures { Grows (buffer_of out.old) (buffer_of out.new) (flat_map group_line (lists_in groups.now)) result }
{
    for group in groups {
        append_group_line(group, out)?;
    }
    Ok(())
}

/// Appends the lines of groups, and the last one. Out of memory leaves what was appended before.
fn append_all<A: Allocator, C: Allocator + Copy>(
    groups: &[Vec<Command, C>],
    version: u64,
    out: &mut Vec<u8, A>,
) -> Result<(), AllocError>
    ensures { Grows (buffer_of out.old) (buffer_of out.new) (groups_text (lists_in groups.now) version) result }
{
    append_groups(groups, out)?;
    append_end(version, out)
}

/// Appends a line for each group of commands, and the version. On out of memory, the only error, nothing changes.
pub fn print_groups<A: Allocator, C: Allocator + Copy>(
    groups: &[Vec<Command, C>],
    version: u64,
    out: &mut Vec<u8, A>,
) -> Result<(), AllocError>
    ensures ok { OnOk result (out.new.items ≡ out.old.items ++ groups_text (lists_in groups.now) version) }
    ensures err { OnErr result (out.new.items ≡ out.old.items) }
    ensures full { OnErr result (vec_capacity out.old
        < vec_len out.old + length (groups_text (lists_in groups.now) version)) }
{
    let before = out.len();
    let answer = append_all(groups, version, out);
    if answer.is_err() {
        out.truncate(before);
    }
    answer
}
