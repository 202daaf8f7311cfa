//! The lines of accepted calls with their stamps.

ghost use Rattle.std.specs.Prelude.{◌≡◌, ◌+◌, ◌<◌, ◌∷◌, ◌++◌, [], length, OnOk, OnErr, vec_len, vec_capacity};
ghost use Rattle.std.specs.Prelude.{true, codes};
ghost use Rattle.desk_text.specs.inner.Growing.{buffer_of, Grows};
ghost use Rattle.desk_text.specs.inner.Pieces.{name_part, named_rest, op_rest, moment_rest, number_rest};
ghost use Rattle.desk_text.specs.StampedText.{stamped_line, told_line, told_text, calls_text};

use crate::appending::{append, append_part};
use crate::history::{append_end, append_rest};
use crate::news::append_told as append_plain;
use call_history::StampedCall;
use std::alloc::{AllocError, Allocator};

/// Appends the name of an accepted call, with a space behind it.
fn append_name<A: Allocator>(call: &StampedCall<'_>, out: &mut Vec<u8, A>) -> Result<(), AllocError>
    ensures { Grows (buffer_of out.old) (buffer_of out.new) (name_part call.now) result }
{
    append(call.stamp().name(), out)?;
    append(b" ", out)
}

/// Appends the name of an accepted call, its words, and the end of its line.
fn append_named<A: Allocator>(
    call: &StampedCall<'_>,
    out: &mut Vec<u8, A>,
) -> Result<(), AllocError>
    ensures { Grows (buffer_of out.old) (buffer_of out.new) (named_rest call.now) result }
{
    append_name(call, out)?;
    append_rest(call.made(), out)
}

/// Appends the line of an accepted call from its operator on.
fn append_by<A: Allocator>(call: &StampedCall<'_>, out: &mut Vec<u8, A>) -> Result<(), AllocError>
    ensures { Grows (buffer_of out.old) (buffer_of out.new) (op_rest call.now) result }
{
    append_part(u64::from(call.made().op()), b' ', out)?;
    append_named(call, out)
}

/// Appends the line of an accepted call from its moment on.
fn append_at<A: Allocator>(call: &StampedCall<'_>, out: &mut Vec<u8, A>) -> Result<(), AllocError>
    ensures { Grows (buffer_of out.old) (buffer_of out.new) (moment_rest call.now) result }
{
    append_part(call.stamp().moment(), b' ', out)?;
    append_by(call, out)
}

/// Appends the line of an accepted call from its number on.
fn append_numbered<A: Allocator>(
    call: &StampedCall<'_>,
    out: &mut Vec<u8, A>,
) -> Result<(), AllocError>
    ensures { Grows (buffer_of out.old) (buffer_of out.new) (number_rest call.now) result }
{
    append_part(call.made().no(), b' ', out)?;
    append_at(call, out)
}

/// Appends the line of an accepted call with its stamp in two pieces.
fn append_both<A: Allocator>(call: &StampedCall<'_>, out: &mut Vec<u8, A>) -> Result<(), AllocError>
    ensures { Grows (buffer_of out.old) (buffer_of out.new) (codes "call " ++ number_rest call.now) result }
{
    append(b"call ", out)?;
    append_numbered(call, out)
}

/// Appends the line of an accepted call with its stamp.
fn append_stamped<A: Allocator>(
    call: &StampedCall<'_>,
    out: &mut Vec<u8, A>,
) -> Result<(), AllocError>
    ensures { Grows (buffer_of out.old) (buffer_of out.new) (stamped_line call.now) result }
{
    append_both(call, out)
}

/// Appends the line that tells of an accepted call.
fn append_told<A: Allocator>(
    is_named: bool,
    call: &StampedCall<'_>,
    out: &mut Vec<u8, A>,
) -> Result<(), AllocError>
    ensures { Grows (buffer_of out.old) (buffer_of out.new) (told_line is_named call.now) result }
{
    if is_named {
        append_stamped(call, out)
    } else {
        append_plain(call.made(), out)
    }
}

/// Appends the lines that tell of accepted calls. Out of memory leaves what was appended before.
fn append_all<A: Allocator>(
    is_named: bool,
    all: &[StampedCall<'_>],
    out: &mut Vec<u8, A>,
) -> Result<(), AllocError>
    ensures { Grows (buffer_of out.old) (buffer_of out.new) (told_text is_named all.now) result }
{
    for call in all {
        append_told(is_named, call, out)?;
    }
    Ok(())
}

/// Appends a line for each of these calls, and the last one. Out of memory leaves what was appended before.
fn append_calls<A: Allocator>(
    all: &[StampedCall<'_>],
    version: u64,
    out: &mut Vec<u8, A>,
) -> Result<(), AllocError>
    ensures { Grows (buffer_of out.old) (buffer_of out.new) (calls_text all.now version) result }
{
    append_all(true, all, out)?;
    append_end(version, out)
}

/// Appends a line for each of these calls as a watch tells it: with its moment and its name, or without them. On out of
/// memory, the only error, nothing changes.
pub fn print_told<A: Allocator>(
    is_named: bool,
    all: &[StampedCall<'_>],
    out: &mut Vec<u8, A>,
) -> Result<(), AllocError>
    ensures ok { OnOk result (out.new.items ≡ out.old.items ++ told_text is_named all.now) }
    ensures err { OnErr result (out.new.items ≡ out.old.items) }
    ensures full { OnErr result (vec_capacity out.old < vec_len out.old + length (told_text is_named all.now)) }
{
    let before = out.len();
    let answer = append_all(is_named, all, out);
    if answer.is_err() {
        out.truncate(before);
    }
    answer
}

/// Appends a line for each of these calls, with its moment and its name, and the version. On out of memory, the only
/// error, nothing changes.
pub fn print_calls<A: Allocator>(
    all: &[StampedCall<'_>],
    version: u64,
    out: &mut Vec<u8, A>,
) -> Result<(), AllocError>
    ensures ok { OnOk result (out.new.items ≡ out.old.items ++ calls_text all.now version) }
    ensures err { OnErr result (out.new.items ≡ out.old.items) }
    ensures full { OnErr result (vec_capacity out.old < vec_len out.old + length (calls_text all.now version)) }
{
    let before = out.len();
    let answer = append_calls(all, version, out);
    if answer.is_err() {
        out.truncate(before);
    }
    answer
}
