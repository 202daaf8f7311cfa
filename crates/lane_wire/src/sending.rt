//! How a datagram is sent over a wire that may not be ready.

ghost use Rattle.std.specs.Prelude.{◌≡◌, ◌≤◌, ◌++◌, Err};
ghost use Rattle.udp_wire.specs.Attempts.{datagrams_of};
ghost use Rattle.lane_wire.specs.Tries.{all_tried, unready};
ghost use Rattle.lane_wire.specs.Sendings.{patience, is_unready};

use crate::fault::SendFault;
use crate::wire_log::WireLog;
use bridge_core::Egress;
use std::sync::Wait;

/// How many pauses are made for a datagram at most. A pause is about a millisecond long, so that a datagram is waited
/// for 20 ms: as long as a tick lasts.
const MOST_PAUSES: u32 = 20;

/// Where a lane's datagrams are sent. Contracts see the list of what was done on it, oldest first.
pub trait LaneWire {
    ghost use Rattle.std.specs.Prelude.{◌≡◌, [], ◌∷◌, ◌++◌, List};
    ghost use Rattle.udp_wire.specs.Attempts.{datagrams_of};
    ghost use Rattle.lane_wire.specs.Logs.{step_list};
    ghost use Rattle.lane_wire.specs.Tries.{WireStep, paused, all_tried};

    /// What was done on it so far.
    ghost steps: { Self → List WireStep };

    /// Tries once to send the datagram of an egress. Of a note nothing is sent.
    fn send(&mut self, egress: &Egress) -> Result<(), SendFault>
        ensures { steps self.new ≡ steps self.old ++ all_tried (datagrams_of egress.now) result };

    /// Waits for about a millisecond, in which it may become ready.
    fn pause<R: Wait>(&mut self, rt: &R)
        ensures { steps self.new ≡ steps self.old ++ paused ∷ [] };

    /// What was done on it, in proofs alone.
    fn into_log(self) -> WireLog
        ensures { step_list result ≡ steps self };
}

/// How many pauses are made for a datagram at most: none where the one before it was given up. So a wire that is never
/// ready holds up 20 ms of a lane's time, and no more.
pub(crate) fn patience(is_stuck: bool) -> u32
    ensures { result ≡ patience is_stuck }
{
    if is_stuck { 0 } else { MOST_PAUSES }
}

/// Whether the wire was not ready.
pub(crate) fn is_unready(answer: Result<(), SendFault>) -> bool
    ensures { result ≡ is_unready answer }
{
    match answer {
        Err(SendFault::NotReady) => true,
        Ok(())
        | Err(
            SendFault::Denied
            | SendFault::Refused
            | SendFault::Unreachable
            | SendFault::TooLong
            | SendFault::Other,
        ) => false,
    }
}

/// What came of sending a datagram.
#[derive(Clone, Copy)]
pub(crate) struct Trial {
    /// How many pauses were made, each after a try that found the wire not ready.
    pub(crate) pauses: u32,
    /// What came of the last try.
    pub(crate) answer: Result<(), SendFault>,
}

/// Tries to send the datagram of an egress, and again after a pause while the wire isn't ready. It makes so many pauses
/// at most.
pub(crate) fn send_patiently<W: LaneWire, R: Wait>(
    rt: &R,
    wire: &mut W,
    egress: &Egress,
    most: u32,
) -> Trial
    ensures steps { W.steps wire.new ≡ W.steps wire.old
        ++ (unready (datagrams_of egress.now) result.pauses ++ all_tried (datagrams_of egress.now) result.answer) }
    ensures few { result.pauses ≤ most }
    ensures limit { result.answer ≡ Err SendFault.NotReady → result.pauses ≡ most }
{
    for pauses in 0..most {
        let answer = wire.send(egress);
        if !is_unready(answer) {
            return Trial { pauses, answer };
        }
        wire.pause(rt);
    }
    let answer = wire.send(egress);
    Trial {
        pauses: most,
        answer,
    }
}
