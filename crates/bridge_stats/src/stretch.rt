//! The numbers of a source since it was initialised.

ghost use Rattle.std.specs.Prelude.{◌≡◌, ◌∷◌, ◌++◌, [], length, List, Some, ℤ};
ghost use Rattle.bridge_stats.specs.Counts.{so_many};
ghost use Rattle.bridge_stats.specs.Sources.{expected_of, numbers_after};
ghost use Rattle.bridge_stats.specs.inner.Kept.{IsStretch};

use ingress::{Disposition, Outcome};

/// What is kept of the extended numbers of a source since it was initialised.
#[derive(Clone, Copy)]
pub(crate) struct Stretch {
    /// The first one.
    pub(crate) first: i64,
    /// The greatest one.
    pub(crate) greatest: i64,
    /// How many there were.
    pub(crate) received: u64,
}

impl Stretch {
    /// With one number alone.
    fn begun(ext: i64) -> Self
        ensures { IsStretch (Some result) (ext ∷ []) }
    {
        Self {
            first: ext,
            greatest: ext,
            received: 1,
        }
    }

    /// With one more number.
    fn more(old: Option<Stretch>, ext: i64) -> Self
        ensures { (numbers : List ℤ) → IsStretch old numbers → IsStretch (Some result) (numbers ++ ext ∷ []) }
    {
        match old {
            None => Stretch::begun(ext),
            Some(old) => Self {
                first: old.first,
                greatest: old.greatest.max(ext),
                received: old.received.saturating_add(1),
            },
        }
    }

    /// After a datagram with this outcome.
    pub(crate) fn after(old: Option<Stretch>, outcome: &Outcome) -> Option<Stretch>
        ensures { (numbers : List ℤ) → IsStretch old numbers → IsStretch result (numbers_after numbers outcome.now) }
    {
        match outcome.class().disposition {
            Disposition::OnTime { ext } => Some(Stretch::more(old, ext)),
            Disposition::Late { ext } => Some(Stretch::more(old, ext)),
            Disposition::Duplicate { ext } => Some(Stretch::more(old, ext)),
            Disposition::Restarted { ext } => Some(Stretch::begun(ext)),
            Disposition::Probation => None,
            Disposition::Dropped | Disposition::Compound { .. } => old,
        }
    }

    /// How many numbers were expected.
    pub(crate) fn expected(old: Option<Stretch>) -> u64
        ensures { (numbers : List ℤ) → IsStretch old numbers → result ≡ so_many (expected_of numbers) }
    {
        match old {
            None => 0,
            Some(old) => old.greatest.abs_diff(old.first).saturating_add(1),
        }
    }

    /// How many came.
    pub(crate) fn received(old: Option<Stretch>) -> u64
        ensures { (numbers : List ℤ) → IsStretch old numbers → result ≡ so_many (length numbers) }
    {
        match old {
            None => 0,
            Some(old) => old.received,
        }
    }
}
