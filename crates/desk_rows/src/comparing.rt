//! Compares rows.

ghost use Rattle.std.specs.Prelude.{◌≡◌};
ghost use Rattle.desk_rows.specs.Order.{precedes};
ghost use Rattle.desk_rows.specs.Row.{same_media, same_row};

use crate::row::{Media, Row};

impl Media {
    /// Whether both are equal.
    pub fn is_same(self, other: Media) -> bool
        ensures { result ≡ same_media self other }
    {
        self == other
    }
}

impl Row {
    /// Whether both rows are equal.
    pub fn is_same(&self, other: &Row) -> bool
        ensures { result ≡ same_row self.now other.now }
    {
        *self == *other
    }

    /// Whether this row stands before the other in the order of kinds and keys.
    pub fn precedes(&self, other: &Row) -> bool
        ensures { result ≡ precedes self.now other.now }
    {
        self.key().precedes(other.key())
    }
}
