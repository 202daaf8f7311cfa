//! What a lane handled, as its sink was told.

ghost use Rattle.std.specs.Prelude.{◌≡◌, [], ◌∷◌, ◌++◌};
ghost use Rattle.lane_wire.specs.Handlings.{handled_list};

use media_workers::LaneItem;
use std::snapshot::Snapshot;

/// An item that a lane handled, and the version of the desk by which.
#[derive(Drop)]
pub struct Handled {
    /// The version: how many calls had been published.
    pub version: u64,
    /// The item.
    pub item: LaneItem,
}

/// All that a sink was told that its lane handled. It exists in proofs alone, and takes no memory.
#[derive(Drop)]
pub enum HandledLog {
    /// Nothing.
    Nothing,
    /// One item more.
    More {
        /// What was handled before.
        before: Snapshot<HandledLog>,
        /// What was handled last.
        last: Snapshot<Handled>,
    },
}

impl HandledLog {
    /// Nothing.
    pub fn new() -> Self
        ensures { handled_list result ≡ [] }
    {
        HandledLog::Nothing
    }

    /// Notes one more.
    pub fn note(&mut self, handled: &Handled)
        ensures { handled_list self.new ≡ handled_list self.old ++ handled.now ∷ [] }
    {
        let before = Snapshot::of(&*self);
        let last = Snapshot::of(handled);
        *self = HandledLog::More { before, last };
    }
}
