//! What is learnt of a book.

ghost use Rattle.std.specs.Prelude.{◌≡◌};
ghost use mathlib.Core.List.{IsPrefix};

use logbook::{Rule, Seen};

/// Learns what another one has seen, if it is of the same book. It does nothing when it runs.
pub(crate) fn learn_same<E, A, P: Rule<E, A>>(seen: &mut Seen<E, A, P>, other: &Seen<E, A, P>)
    ensures { other.now.book ≡ seen.old.book
        → IsPrefix seen.old.log seen.new.log × IsPrefix other.now.log seen.new.log }
{}
