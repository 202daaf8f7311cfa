//! The lines of answers.

ghost use Rattle.std.specs.Prelude.{◌≡◌, ◌+◌, ◌<◌, ◌++◌, length, OnOk, OnErr, vec_len, vec_capacity};
ghost use Rattle.operator_threads.specs.Told.{answer_text};

use desk_calls::Reply;
use desk_text::{print_refused, print_reply};
use operator_desk::Answer;
use std::alloc::{AllocError, Allocator};

/// Appends the line of an answer. On out of memory, the only error, nothing changes.
pub fn print_answer<A: Allocator>(answer: &Answer, out: &mut Vec<u8, A>) -> Result<(), AllocError>
    ensures ok { OnOk result (out.new.items ≡ out.old.items ++ answer_text answer.now) }
    ensures err { OnErr result (out.new.items ≡ out.old.items) }
    ensures full { OnErr result (vec_capacity out.old < vec_len out.old + length (answer_text answer.now)) }
{
    match answer {
        Answer::Accepted { no, .. } => print_reply(&Reply::Accepted { no: *no }, out),
        Answer::Refused { at, why } => print_refused(*at, why.told(), out),
    }
}
