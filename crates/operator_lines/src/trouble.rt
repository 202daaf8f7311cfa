//! A line that was faulty or refused.

ghost use Rattle.std.specs.Prelude.{◌≡◌};

use desk_edit::Refusal;
use desk_text::Fault;
use std::marker::Model;

/// What was wrong with a line.
#[derive(Clone, Copy)]
pub enum Wrong {
    /// It had this fault at the word of this place, from 1; place 0 is the whole line.
    Faulty {
        /// The place.
        word: u32,
        /// The fault.
        fault: Fault,
    },
    /// Its call was refused.
    Refused {
        /// Why.
        refusal: Refusal,
    },
    /// Its call was refused since another desk uses the log.
    Taken,
    /// Its call was refused since the desk's lease has ended, and another connection holds it.
    Closed,
}

/// A line, and what was wrong with it. Contracts see both.
#[derive(Drop)]
pub struct Trouble {
    line: Vec<u8>,
    wrong: Wrong,
}

impl Model for Trouble {
    ghost use Rattle.operator_lines.specs.Why.{TroubleOf};

    ghost Value = { TroubleOf };

    ghost view = { λ t. record { line = t.line.items; wrong = t.wrong } };
}

impl Trouble {
    /// This was wrong with this line.
    pub fn new(line: Vec<u8>, wrong: Wrong) -> Self
        ensures { result ≡ record { line = line.items; wrong = wrong } }
    {
        Self { line, wrong }
    }

    /// The line.
    pub(crate) fn line(&self) -> &[u8]
        ensures { result.now ≡ self.now.line }
    {
        &self.line
    }

    /// What was wrong with it.
    pub(crate) fn wrong(&self) -> Wrong
        ensures { result ≡ self.now.wrong }
    {
        self.wrong
    }
}
