//! The lines of a stream that comes in pieces.

ghost use Rattle.std.specs.Prelude.{◌≡◌, ◌++◌, ◌∷◌, [], false, codes, IfOk};
ghost use Rattle.operator_lines.specs.Fed.{texts};

use operator_lines::{Fed, Lines};
use std::alloc::{AllocError, Global};

/// `show`, CR and LF, cut at any place: one line, `show`.
pub fn hears_show(alloc: Global, front: &[u8], back: &[u8]) -> Result<(Fed, Fed), AllocError>
    requires { front.now ++ back.now ≡ codes "show\r\n" }
    ensures lines { IfOk result (λ fed. texts fed.0.lines.items ++ texts fed.1.lines.items ≡ codes "show" ∷ []) }
    ensures short { IfOk result (λ fed. fed.1.too_long ≡ false) }
{
    let mut lines = Lines::new(alloc);
    let first = lines.feed(alloc, front)?;
    let second = lines.feed(alloc, back)?;
    Ok((first, second))
}
