//! The lines that tell of calls as they are accepted.

ghost use Rattle.std.specs.Prelude.{◌≡◌, ◌+◌, ◌<◌, ◌∷◌, ◌++◌, [], length, OnOk, OnErr, vec_len, vec_capacity};
ghost use Rattle.desk_text.specs.inner.Growing.{buffer_of, Grows};
ghost use Rattle.desk_text.specs.HistoryText.{end_line, called_line, said_by};
ghost use Rattle.desk_text.specs.NewsText.{news_line};

use crate::appending::{append, append_part};
use crate::history::{append_end, append_made, append_rest};
use call_history::AcceptedCall;
use std::alloc::{AllocError, Allocator};

/// Appends the line that tells of an accepted call.
pub(crate) fn append_told<A: Allocator>(
    made: &AcceptedCall<'_>,
    out: &mut Vec<u8, A>,
) -> Result<(), AllocError>
    ensures { Grows (buffer_of out.old) (buffer_of out.new) (news_line made.now) result }
{
    append(b"call ", out)?;
    append_made(made, out)
}

/// Appends the operator of an accepted call, the words of the call, and the end of its line.
fn append_said<A: Allocator>(
    made: &AcceptedCall<'_>,
    out: &mut Vec<u8, A>,
) -> Result<(), AllocError>
    ensures { Grows (buffer_of out.old) (buffer_of out.new) (said_by made.now ++ 10 ∷ []) result }
{
    append_part(u64::from(made.op()), b' ', out)?;
    append_rest(made, out)
}

/// Appends the line of a script that an accepted call has.
fn append_called<A: Allocator>(
    made: &AcceptedCall<'_>,
    out: &mut Vec<u8, A>,
) -> Result<(), AllocError>
    ensures { Grows (buffer_of out.old) (buffer_of out.new) (called_line made.now) result }
{
    append(b"desk ", out)?;
    append_said(made, out)
}

/// Appends the line of a script that an accepted call has: `desk`, its operator and its words. On out of memory, the
/// only error, nothing changes.
pub fn print_called<A: Allocator>(
    made: &AcceptedCall<'_>,
    out: &mut Vec<u8, A>,
) -> Result<(), AllocError>
    ensures ok { OnOk result (out.new.items ≡ out.old.items ++ called_line made.now) }
    ensures err { OnErr result (out.new.items ≡ out.old.items) }
    ensures full { OnErr result (vec_capacity out.old < vec_len out.old + length (called_line made.now)) }
{
    let before = out.len();
    let answer = append_called(made, out);
    if answer.is_err() {
        out.truncate(before);
    }
    answer
}

/// Appends the line of a version, as the last one of a history. On out of memory, the only error, nothing changes.
pub fn print_end<A: Allocator>(version: u64, out: &mut Vec<u8, A>) -> Result<(), AllocError>
    ensures ok { OnOk result (out.new.items ≡ out.old.items ++ end_line version) }
    ensures err { OnErr result (out.new.items ≡ out.old.items) }
    ensures full { OnErr result (vec_capacity out.old < vec_len out.old + length (end_line version)) }
{
    let before = out.len();
    let answer = append_end(version, out);
    if answer.is_err() {
        out.truncate(before);
    }
    answer
}
