//! Answers to calls of operators.

ghost use Rattle.std.specs.Prelude.{◌≡◌, Some, None, MatchBool};
ghost use Rattle.desk_edit.specs.Told.{told_in};
ghost use Rattle.operator_desk.specs.Answers.{why_told};

use desk_edit::{Carried, Refusal, RefusalRow};
use published_desk::Notice;

/// The answer to a call.
#[derive(Drop)]
pub enum Answer {
    /// The call is accepted, as call number `no`, 1 to 1,048,576. The notice is of the version that it led to.
    Accepted { no: u64, notice: Notice },
    /// The call is refused at version `at`, 0 to 1,048,576, and changes nothing.
    Refused { at: u64, why: Why },
}

/// Why a call is refused.
// No desk with one operator can answer `LogTaken`. So it is no `Refusal`, and no crate above has to treat a case that
// can't come.
#[derive(Clone, Copy, Debug, PartialEq, Eq)]
pub enum Why {
    /// A desk with one operator refuses it too, for this reason.
    Told(Refusal),
    /// The log has an entry that this desk didn't write: another desk uses the same log.
    LogTaken,
}

impl Why {
    /// The refusal by its number, its name and what it carries.
    pub fn told(self) -> RefusalRow
        ensures { told_in result ≡ why_told self }
    {
        match self {
            Why::Told(refusal) => refusal.told(),
            Why::LogTaken => RefusalRow {
                number: 22,
                name: b"LogTaken",
                carried: Carried::Nothing,
            },
        }
    }
}

/// The answer of a desk behind whose log an entry stands: none, if the desk has ended.
pub(crate) fn taken_answer(ended: bool, at: u64) -> Option<Answer>
    ensures { MatchBool ended (result ≡ None) (result ≡ Some (Answer.Refused at Why.LogTaken)) }
{
    if ended {
        return None;
    }
    Some(Answer::Refused {
        at,
        why: Why::LogTaken,
    })
}

/// The answer to a call that the desk refuses.
pub(crate) fn refused(at: u64, why: Refusal) -> Answer
    ensures { result ≡ Answer.Refused at (Why.Told why) }
{
    Answer::Refused {
        at,
        why: Why::Told(why),
    }
}
