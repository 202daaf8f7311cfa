//! Answers to calls of a desk.

use desk_edit::Refusal;

/// The answer to a call of an operator.
#[derive(Clone, Copy, PartialEq, Eq)]
pub enum Reply {
    /// The call is accepted, as call number `no`, 1 to 1,048,576.
    Accepted { no: u64 },
    /// The call is refused at version `at`, 0 to 1,048,576, and changes nothing.
    Refused { at: u64, why: Refusal },
}
