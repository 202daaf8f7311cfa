//! What was taken in, in proofs alone.

ghost use Rattle.std.specs.Prelude.{◌≡◌, [], ◌∷◌, ◌++◌};
ghost use Rattle.bridge_stats.specs.Logs.{taken_list};

use crate::taken::TakenIn;
use std::snapshot::Snapshot;

/// All that was taken in. It exists in proofs alone, and takes no memory for what was taken in.
#[derive(Drop)]
pub enum TakenLog {
    /// Nothing.
    Nothing,
    /// Then a datagram was taken in.
    More {
        /// What was taken in before.
        before: Snapshot<TakenLog>,
        /// The datagram.
        taken: Snapshot<TakenIn>,
    },
}

impl TakenLog {
    /// Nothing.
    pub(crate) fn new() -> Self
        ensures { taken_list result ≡ [] }
    {
        TakenLog::Nothing
    }

    /// Notes a datagram.
    #[inline(always)]
    pub(crate) fn note(&mut self, taken: &TakenIn)
        ensures { taken_list self.new ≡ taken_list self.old ++ taken.now ∷ [] }
    {
        let before = Snapshot::of(&*self);
        let taken = Snapshot::of(taken);
        *self = TakenLog::More { before, taken };
    }
}
