//! What a sink took, in proofs alone.

ghost use Rattle.std.specs.Prelude.{◌≡◌, [], ◌∷◌, ◌++◌};
ghost use Rattle.lane_wire.specs.Logs.{taken_list};

use bridge_core::Egress;
use std::snapshot::Snapshot;

/// All that a sink took. It exists in proofs alone, and takes no memory for what was taken.
#[derive(Drop)]
pub enum Taken {
    /// Nothing.
    Nothing,
    /// One more.
    More {
        /// What was taken before.
        before: Snapshot<Taken>,
        /// What was taken last.
        last: Snapshot<Egress>,
    },
}

impl Taken {
    /// Nothing.
    pub fn new() -> Self
        ensures { taken_list result ≡ [] }
    {
        Taken::Nothing
    }

    /// Notes one more.
    pub fn note(&mut self, egress: &Egress)
        ensures { taken_list self.new ≡ taken_list self.old ++ egress.now ∷ [] }
    {
        let before = Snapshot::of(&*self);
        let last = Snapshot::of(egress);
        *self = Taken::More { before, last };
    }
}
