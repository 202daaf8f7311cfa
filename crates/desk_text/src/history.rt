//! The lines of calls that are in force, and of those that can be redone.

ghost use Rattle.std.specs.Prelude.{◌≡◌, ◌+◌, ◌<◌, ◌∷◌, ◌++◌, [], length, OnOk, OnErr, vec_len, vec_capacity};
ghost use Rattle.std.specs.List.{flat_map};
ghost use Rattle.desk_text.specs.Calls.{call_line};
ghost use Rattle.desk_text.specs.inner.Growing.{buffer_of, Grows};
ghost use Rattle.desk_text.specs.HistoryText.{made_line, undone_text, end_line, history_text};
ghost use Rattle.desk_text.specs.inner.Pieces.{head_of, lists_text};

use crate::appending::{append, append_part};
use crate::telling::{append_call, append_last};
use call_history::AcceptedCall;
use std::alloc::{AllocError, Allocator};

/// Appends the number of an accepted call and its operator, each with a space behind it.
fn append_head<A: Allocator>(
    made: &AcceptedCall<'_>,
    out: &mut Vec<u8, A>,
) -> Result<(), AllocError>
    ensures { Grows (buffer_of out.old) (buffer_of out.new) (head_of made.now) result }
{
    append_part(made.no(), b' ', out)?;
    append_part(u64::from(made.op()), b' ', out)
}

/// Appends the words of an accepted call, and the end of its line.
pub(crate) fn append_rest<A: Allocator>(
    made: &AcceptedCall<'_>,
    out: &mut Vec<u8, A>,
) -> Result<(), AllocError>
    ensures { Grows (buffer_of out.old) (buffer_of out.new) (call_line made.now.call ++ 10 ∷ []) result }
{
    append_call(made.call(), out)?;
    append(b"\n", out)
}

/// Appends the line of an accepted call in two pieces.
fn append_both<A: Allocator>(
    made: &AcceptedCall<'_>,
    out: &mut Vec<u8, A>,
) -> Result<(), AllocError>
    ensures { Grows (buffer_of out.old) (buffer_of out.new) (head_of made.now
        ++ (call_line made.now.call ++ 10 ∷ [])) result }
{
    append_head(made, out)?;
    append_rest(made, out)
}

/// Appends the line of an accepted call.
pub(crate) fn append_made<A: Allocator>(
    made: &AcceptedCall<'_>,
    out: &mut Vec<u8, A>,
) -> Result<(), AllocError>
    ensures { Grows (buffer_of out.old) (buffer_of out.new) (made_line made.now) result }
{
    append_both(made, out)
}

/// Appends the lines of accepted calls.
fn append_all<A: Allocator>(
    all: &[AcceptedCall<'_>],
    out: &mut Vec<u8, A>,
) -> Result<(), AllocError>
    ensures { Grows (buffer_of out.old) (buffer_of out.new) (flat_map made_line all.now) result }
{
    for made in all {
        append_made(made, out)?;
    }
    Ok(())
}

/// Appends the lines of the calls that can be redone, behind one that says so.
fn append_undone<A: Allocator>(
    undone: &[AcceptedCall<'_>],
    out: &mut Vec<u8, A>,
) -> Result<(), AllocError>
    ensures { Grows (buffer_of out.old) (buffer_of out.new) (undone_text undone.now) result }
{
    if undone.is_empty() {
        return Ok(());
    }
    append(b"undone\n", out)?;
    append_all(undone, out)
}

/// Appends the lines of both lists.
fn append_lists<A: Allocator>(
    done: &[AcceptedCall<'_>],
    undone: &[AcceptedCall<'_>],
    out: &mut Vec<u8, A>,
) -> Result<(), AllocError>
    ensures { Grows (buffer_of out.old) (buffer_of out.new) (lists_text done.now undone.now) result }
{
    append_all(done, out)?;
    append_undone(undone, out)
}

/// Appends the last line.
pub(crate) fn append_end<A: Allocator>(version: u64, out: &mut Vec<u8, A>) -> Result<(), AllocError>
    ensures { Grows (buffer_of out.old) (buffer_of out.new) (end_line version) result }
{
    append_last(b"end ", version, out)?;
    append(b"\n", out)
}

/// Appends the lines of both lists, and the last one. Out of memory leaves what was appended before.
fn append_history<A: Allocator>(
    done: &[AcceptedCall<'_>],
    undone: &[AcceptedCall<'_>],
    version: u64,
    out: &mut Vec<u8, A>,
) -> Result<(), AllocError>
    ensures { Grows (buffer_of out.old) (buffer_of out.new) (history_text done.now undone.now version) result }
{
    append_lists(done, undone, out)?;
    append_end(version, out)
}

/// Appends a line for each call that is in force, then for each that can be redone, and the version. On out of memory,
/// the only error, nothing changes.
pub fn print_history<A: Allocator>(
    done: &[AcceptedCall<'_>],
    undone: &[AcceptedCall<'_>],
    version: u64,
    out: &mut Vec<u8, A>,
) -> Result<(), AllocError>
    ensures ok { OnOk result (out.new.items ≡ out.old.items ++ history_text done.now undone.now version) }
    ensures err { OnErr result (out.new.items ≡ out.old.items) }
    ensures full { OnErr result (vec_capacity out.old
        < vec_len out.old + length (history_text done.now undone.now version)) }
{
    let before = out.len();
    let answer = append_history(done, undone, version, out);
    if answer.is_err() {
        out.truncate(before);
    }
    answer
}
