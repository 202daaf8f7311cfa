//! What the program is asked for, and how it ends.

ghost use Rattle.std.specs.Prelude.{◌≡◌, Some};
ghost use Rattle.std.specs.Option.{option_map};
ghost use Rattle.script_text.specs.Status.{asked_by, unread_by, status_of, exit_of, outcome_text};

use crate::fault::RunFault;
use std::fmt;
use std::io::ErrorKind;

/// What the arguments of the program ask for.
#[derive(Clone, Copy, PartialEq, Eq)]
pub enum Ask {
    /// A run over the script on standard input.
    Replay,
    /// Something that the program doesn't know: it prints its usage.
    Unknown,
    /// Memory ran out before they were read.
    OutOfMemory,
}

/// How the program ended.
#[derive(Clone, Copy, PartialEq, Eq)]
pub enum Exit {
    /// The arguments are not known.
    Usage,
    /// Memory ran out before a run.
    OutOfMemory,
    /// A run, and how it ended.
    Ran(Result<(), RunFault>),
}

/// What the first two words behind the program's name ask for.
pub fn asked(first: Option<&str>, second: Option<&str>) -> Ask
    ensures { result ≡ asked_by (option_map (λ x. x.now) first.entry) (option_map (λ x. x.now) second.entry) }
{
    match (first, second) {
        (Some(word), None) if word == "replay" => Ask::Replay,
        _ => Ask::Unknown,
    }
}

/// What is asked for if the arguments could not be read.
pub fn unread(why: ErrorKind) -> Ask
    ensures { result ≡ unread_by why }
{
    match why {
        ErrorKind::OutOfMemory => Ask::OutOfMemory,
        _ => Ask::Unknown,
    }
}

/// The exit status after a run: 0 if it succeeded, 1 for a fault of the script, 2 for out of memory, 3 if the reader or
/// the writer failed.
pub fn status(answer: &Result<(), RunFault>) -> u8
    ensures { result ≡ status_of answer.now }
{
    match answer {
        Ok(()) => 0,
        Err(RunFault::Script { .. }) => 1,
        Err(RunFault::OutOfMemory) => 2,
        Err(RunFault::Read) | Err(RunFault::Write) => 3,
    }
}

/// The exit status of the program: that of its run, 2 for out of memory before it, 4 for unknown arguments.
pub fn exit_status(outcome: &Exit) -> u8
    ensures { result ≡ exit_of outcome.now }
{
    match outcome {
        Exit::Usage => 4,
        Exit::OutOfMemory => 2,
        Exit::Ran(answer) => status(answer),
    }
}

/// What the program says on standard error.
impl fmt::Display for Exit {
    ghost output = { λ outcome. Some (outcome_text outcome) };

    fn fmt<W: fmt::Write>(&self, f: &mut fmt::Formatter<W>) -> fmt::Result {
        match self {
            Exit::Usage => write!(f, "usage: confbridge replay | confbridge serve FILE"),
            Exit::OutOfMemory => write!(f, "confbridge: out of memory"),
            Exit::Ran(Ok(())) => Ok(()),
            Exit::Ran(Err(fault)) => write!(f, "confbridge: {fault}"),
        }
    }
}
