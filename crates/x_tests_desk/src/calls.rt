//! What operators call, and how they are answered.

use desk_edit::{Call, Command, Refusal};
use desk_rows::Room;
use operator_desk::{Answer, CallFault, Why};

/// The answer to a call, as a desk with one operator gives it too.
#[derive(Clone, Copy, PartialEq, Eq)]
pub enum Reply {
    Accepted { no: u64 },
    Refused { at: u64, why: Refusal },
}

/// The call that an operator makes after so many, where this version is the last one that it was told: it adds a
/// room of its own, undoes the last call, removes its room, and does again what was undone last.
pub fn call_of(op: u32, made: usize, last: u64) -> Call {
    match made % 4 {
        0 => Call::Apply(Command::AddRoom(Room {
            room: op,
            rate: 8_000,
        })),
        1 => Call::Undo { last },
        2 => Call::Apply(Command::RemoveRoom { room: op }),
        _ => Call::Redo { last },
    }
}

/// The version that a reply tells.
pub fn version_of(reply: Reply) -> u64 {
    match reply {
        Reply::Accepted { no } => no,
        Reply::Refused { at, .. } => at,
    }
}

/// The answer, if a desk with one operator can give it.
pub fn reply_of(answer: Result<Answer, CallFault>) -> Option<Reply> {
    match answer.ok()? {
        Answer::Accepted { no, .. } => Some(Reply::Accepted { no }),
        Answer::Refused { at, why } => match why {
            Why::Told(why) => Some(Reply::Refused { at, why }),
            Why::LogTaken => None,
        },
    }
}
