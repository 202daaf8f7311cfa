//! What was done on a wire, in proofs alone.

ghost use Rattle.std.specs.Prelude.{◌≡◌, [], ◌∷◌, ◌++◌};
ghost use Rattle.udp_wire.specs.Attempts.{datagrams_of};
ghost use Rattle.lane_wire.specs.Tries.{all_tried, paused};
ghost use Rattle.lane_wire.specs.Logs.{step_list};

use crate::fault::SendFault;
use bridge_core::Egress;
use std::snapshot::Snapshot;

/// All that was done on a wire. It exists in proofs alone, and takes no memory for what was done.
#[derive(Drop)]
pub enum WireLog {
    /// Nothing.
    Nothing,
    /// Then the datagram of an egress was tried.
    Tried {
        /// What was done before.
        before: Snapshot<WireLog>,
        /// Whose datagram was tried.
        egress: Snapshot<Egress>,
        /// What came of it.
        answer: Snapshot<Result<(), SendFault>>,
    },
    /// Then there was a pause.
    Paused {
        /// What was done before.
        before: Snapshot<WireLog>,
    },
}

impl WireLog {
    /// Nothing.
    pub fn new() -> Self
        ensures { step_list result ≡ [] }
    {
        WireLog::Nothing
    }

    /// Notes that the datagram of an egress was tried once.
    pub fn note_try(&mut self, egress: &Egress, answer: &Result<(), SendFault>)
        ensures { step_list self.new ≡ step_list self.old ++ all_tried (datagrams_of egress.now) answer.now }
    {
        let before = Snapshot::of(&*self);
        let egress = Snapshot::of(egress);
        let answer = Snapshot::of(answer);
        *self = WireLog::Tried {
            before,
            egress,
            answer,
        };
    }

    /// Notes a pause.
    pub fn note_pause(&mut self)
        ensures { step_list self.new ≡ step_list self.old ++ paused ∷ [] }
    {
        let before = Snapshot::of(&*self);
        *self = WireLog::Paused { before };
    }
}
