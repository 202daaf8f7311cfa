//! What the laws of operators' lines tell a caller.

ghost use Rattle.std.specs.Prelude.{◌≡◌, true, List, ℕ, [], IfOk};
ghost use Rattle.operator_lines.specs.Cut.{cut, is_too_long};
ghost use Rattle.operator_lines.specs.Fed.{StandsFor, texts};

use operator_lines::{Fed, Lines, cuts_are_whole, too_long_for_good};
use std::alloc::{AllocError, Global};

/// Behind a line that is too long nothing is a line.
pub fn hears_nothing_behind_too_long_a_line(
    lines: &mut Lines,
    alloc: Global,
    octets: &[u8],
) -> Result<Fed, AllocError>
    ensures none { IfOk result (λ fed. (before : List ℕ) → StandsFor lines.old before → is_too_long before ≡ true
        → texts fed.lines.items ≡ []) }
    ensures long { IfOk result (λ fed. (before : List ℕ) → StandsFor lines.old before → is_too_long before ≡ true
        → fed.too_long ≡ true) }
{
    too_long_for_good();
    lines.feed(alloc, octets)
}

/// Two streams that are cut alike are one stream.
pub fn streams_that_are_cut_alike_are_one(first: &[u8], second: &[u8]) -> bool
    ensures { cut first.now ≡ cut second.now → result ≡ true }
{
    cuts_are_whole();
    first == second
}
