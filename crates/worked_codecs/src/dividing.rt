//! What the law of divisions tells whoever gives a gate packets.

ghost use Rattle.std.specs.Prelude.{◌≡◌, ◌≤◌, ◌++◌, List, pos, IfOk};
ghost use Rattle.frame_gate.specs.Packets.{NumberedPacket, numbered};
ghost use Rattle.frame_gate.specs.Runs.{Divided, frames_in};
ghost use Rattle.frame_gate.specs.Frame.{highest_pt};
ghost use Rattle.frame_gate.specs.Epochs.{epoch_after, epoch_of, frames_of, run};
ghost use Rattle.frame_gate.specs.Admits.{Represents};
ghost use Rattle.frame_gate.specs.laws.WholeDivision.{IsDivision};

use frame_gate::{Admitted, Gate, Packet, whole_division};
use std::alloc::{AllocError, Global};

/// One more packet comes, and someone divides what the gate then has in a row: where a piece ends or the timestamp is
/// another, and nowhere else. The frames of that division are those that the gate has let go of.
pub fn lets_go_of_the_one_division(
    gate: &mut Gate,
    alloc: Global,
    packet: Packet,
) -> Result<Admitted, AllocError>
    requires { packet.pt ≤ highest_pt }
    ensures { IfOk result (λ a. (before : List NumberedPacket) (d : Divided)
        → Represents gate.old before
        → (let then = epoch_after (epoch_of before) (numbered (pos 7) packet) in
        IsDivision (run then) d → frames_of (epoch_of before) ++ a.frames ≡ then.earlier ++ frames_in d)) }
{
    whole_division();
    gate.admit(alloc, 7, packet)
}
