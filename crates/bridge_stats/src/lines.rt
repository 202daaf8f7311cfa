//! Rows that have a line.

ghost use Rattle.std.specs.Prelude.{◌≡◌, ℕ, List};
ghost use Rattle.std.specs.List.{flat_map};
ghost use Rattle.bridge_stats.specs.inner.Growing.{buffer_of, Grows};

use std::alloc::{AllocError, Allocator};

/// What has a line.
pub(crate) trait StatLine {
    /// Its line.
    ghost line: { Self → List ℕ };

    /// Appends its line.
    fn append<A: Allocator>(&self, out: &mut Vec<u8, A>) -> Result<(), AllocError>
        ensures { Grows (buffer_of out.old) (buffer_of out.new) (line self.now) result };
}

/// Appends the lines of rows.
pub(crate) fn append_lines<T: StatLine, A: Allocator>(
    rows: &[T],
    out: &mut Vec<u8, A>,
) -> Result<(), AllocError>
    ensures { Grows (buffer_of out.old) (buffer_of out.new) (flat_map T.line rows.now) result }
{
    for row in rows {
        row.append(out)?;
    }
    Ok(())
}
