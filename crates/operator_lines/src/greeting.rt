//! What the first line of a connection is.

ghost use Rattle.std.specs.Prelude.{◌≡◌, ◌++◌, IfOk, OnOk, OnErr};
ghost use Rattle.operator_lines.specs.Cut.{is_too_long, lines_of};
ghost use Rattle.operator_lines.specs.Fed.{texts};
ghost use Rattle.operator_lines.specs.Openings.{opening_of, greeting_of, begins_as, beginning_told};

use crate::answering::{print_fault, print_too_long};
use crate::asking::parse_line;
use crate::feeding::Lines;
use desk_text::ParseFault;
use std::alloc::{AllocError, Global};

/// What the first line of a connection is.
#[derive(Clone, Copy, Debug, PartialEq, Eq)]
pub enum Opening {
    /// A faulty line: it is answered, and the connection is closed.
    Faulty,
    /// Any other line: it takes a seat, and is answered there.
    Good,
}

/// How a connection begins.
#[derive(Clone, Copy, Debug, PartialEq, Eq)]
pub enum Beginning {
    /// Its first line has not ended.
    Waits,
    /// Its first line is no good one, or too long: that is answered, and the connection is closed.
    Faulty,
    /// Its first line is a good one.
    Good,
}

/// Says how a connection begins of which these lines have come, and perhaps the beginning of one that is too long.
fn begins(
    alloc: Global,
    lines: &[Vec<u8>],
    is_too_long: bool,
    out: &mut Vec<u8>,
) -> Result<Beginning, AllocError>
    ensures begins { IfOk result (λ begins. begins ≡ begins_as (texts lines.now) is_too_long) }
    ensures text { OnOk result (out.new.items ≡ out.old.items ++ beginning_told (texts lines.now) is_too_long) }
    ensures err { OnErr result (out.new.items ≡ out.old.items) }
{
    match lines {
        [] => {
            if !is_too_long {
                return Ok(Beginning::Waits);
            }
            print_too_long(alloc, out)?;
            Ok(Beginning::Faulty)
        }
        [first, ..] => match greet(alloc, first, out)? {
            Opening::Good => Ok(Beginning::Good),
            Opening::Faulty => Ok(Beginning::Faulty),
        },
    }
}

/// Says how a connection begins of which these octets have come. If its first line is no good one, the answer is
/// appended. It carries nothing out. The only error is out of memory, and appends nothing.
pub fn greet_octets(
    alloc: Global,
    octets: &[u8],
    out: &mut Vec<u8>,
) -> Result<Beginning, AllocError>
    ensures begins { IfOk result (λ begins. begins ≡ begins_as (lines_of octets.now) (is_too_long octets.now)) }
    ensures text { OnOk result (out.new.items
        ≡ out.old.items ++ beginning_told (lines_of octets.now) (is_too_long octets.now)) }
    ensures err { OnErr result (out.new.items ≡ out.old.items) }
{
    let mut lines = Lines::new(alloc);
    let fed = lines.feed(alloc, octets)?;
    begins(alloc, &fed.lines, fed.too_long, out)
}

/// Says what a line is, without its LF, that comes first on a connection. If it is faulty, the answer is appended. It
/// carries nothing out. The only error is out of memory, and appends nothing.
///
/// A page that is open on the bridge's machine can make a browser connect, and choose what is sent behind the request's
/// first line. That line is no good one, whatever the protocol.
pub fn greet(alloc: Global, line: &[u8], out: &mut Vec<u8>) -> Result<Opening, AllocError>
    ensures opening { IfOk result (λ opening. opening ≡ opening_of line.now) }
    ensures text { OnOk result (out.new.items ≡ out.old.items ++ greeting_of line.now) }
    ensures err { OnErr result (out.new.items ≡ out.old.items) }
{
    match parse_line(alloc, line) {
        Ok(_) => Ok(Opening::Good),
        Err(ParseFault::Line { word, fault }) => {
            print_fault(alloc, word, fault, out)?;
            Ok(Opening::Faulty)
        }
        Err(ParseFault::OutOfMemory) => Err(AllocError),
    }
}
