//! The rule over what is shown, and over what readers and the publisher have seen of it.

ghost use Rattle.std.specs.Prelude.{None};
ghost use Rattle.published_desk.specs.Published.{after_list};
ghost use Rattle.published_desk.specs.inner.ReaderRule.{Kept, Sees};

use crate::edition::Edition;
use crate::notice::Notice;
use atomic_table::{Join, Split};
use crossbeam_utils::rule::{Outcome, Protocol};
use desk_rows::Rows;

/// What was shown when its owner last looked, and the first desk. No value of it is made.
pub struct Sight<S, N> {
    /// The rows at the start.
    pub start: S,
    /// The notice of what was shown.
    pub notice: N,
}

/// What an owner has seen, if anything, is a beginning of what is shown.
pub struct Follows;

impl Protocol<Edition, Option<Sight<Rows, Notice>>> for Follows {
    ghost holds = { Kept after_list };

    ghost first = { None };
}

/// A step that shows a page or looks at it.
pub struct Looks;

impl Outcome<Edition, Option<Sight<Rows, Notice>>> for Looks {
    ghost then = { Sees after_list };
}

/// The publisher gives a new reader what it has seen itself.
pub struct Shares;

impl Split<Option<Sight<Rows, Notice>>> for Shares {
    ghost left = { λ v. v };

    ghost right = { λ v. v };
}

impl Join<Option<Sight<Rows, Notice>>> for Shares {
    ghost both = { λ v w. w };

    ghost spent = { None };
}
