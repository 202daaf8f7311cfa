//! Why a run ended.

ghost use Rattle.std.specs.Prelude.{Some};
ghost use Rattle.script_text.specs.Status.{run_text};

use desk_text::Fault;
use std::error::Error;
use std::fmt;

/// Why a run ended before its script.
#[derive(Clone, Copy, Debug, PartialEq, Eq)]
pub enum RunFault {
    /// The first line that could not be read, from 1, and the place of its word from 1; place 0 is
    /// the whole line.
    Script { line: u64, word: u32, fault: Fault },
    /// The reader failed, or 2^32 calls brought no end.
    Read,
    /// The writer failed or took nothing, or memory ran out behind a part of a line's text, or 2^32 calls didn't take
    /// it.
    Write,
    /// Memory ran out.
    OutOfMemory,
}

impl fmt::Display for RunFault {
    ghost output = { λ f. Some (run_text f) };

    fn fmt<W: fmt::Write>(&self, f: &mut fmt::Formatter<W>) -> fmt::Result {
        match self {
            RunFault::Script { line, word, fault } => write!(f, "line {line} word {word}: {fault}"),
            RunFault::Read | RunFault::Write => write!(f, "input or output failed"),
            RunFault::OutOfMemory => write!(f, "out of memory"),
        }
    }
}

impl Error for RunFault {}
