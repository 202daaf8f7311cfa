//! What desk, seats and notices of one bridge have in common.

ghost use Rattle.std.specs.Prelude.{◌≡◌};

use published_desk::Opened;
use std::marker::Brand;
use std::sync::ledger::{Blank, Ledger};

/// The brand of one desk: the cells of its log, the name of its publisher, the desk that it begins with, and how many
/// seats it has. It exists in proofs alone. A caller is generic over it, and its own caller picks it
/// by calling it with `Brand`.
pub trait DeskBrand: Ledger {
    ghost use Rattle.std.specs.Prelude.{ℕ, List};
    ghost use Rattle.logbook.specs.Pages.{Book};
    ghost use Rattle.desk_rows.specs.Desk.{Desk};

    ghost cells: { List ℕ };

    ghost publisher: { Book };

    ghost start: { Desk };

    /// As many as the ledger has parts.
    ghost seats: { ℕ };
}

/// The names of a new desk, which it uses up: no two desks have the same.
// Whoever opens a desk hands these in, and picks the brand. So a notice, a seat or a share of another desk has another
// type, or fails a condition.
#[derive(Drop)]
pub struct DeskNames {
    /// The ledger of its calls. It has a part for each operator.
    pub ledger: Blank,
    /// Its publisher.
    pub publisher: Opened,
}

impl DeskNames {
    /// New names, for a desk of so many operators. It takes no memory.
    pub fn new(operators: u32) -> Self
        ensures { result.ledger.parts ≡ operators }
    {
        Self {
            ledger: Blank::new(u64::from(operators)),
            publisher: Opened::new(),
        }
    }
}

impl DeskBrand for Brand {
    ghost use Rattle.std.specs.Prelude.{[]};
    ghost use Rattle.desk_rows.specs.Desk.{blank};

    ghost cells = { [] };

    ghost publisher = { record { number = 0; log_name = 0; cells_name = 0 } };

    ghost start = { blank 0 };

    ghost seats = { 0 };
}
