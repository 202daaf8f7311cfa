//! A gate that is given packets.

ghost use Rattle.std.specs.Prelude.{◌≡◌, IfOk};
ghost use Rattle.frame_gate.specs.Packets.{IsExt, numbered};
ghost use Rattle.frame_gate.specs.Admits.{Admits};
ghost use Rattle.worked_codecs.specs.Fixtures.{given};

use bytes::Bytes;
use frame_gate::{Admitted, Gate, Packet};
use std::alloc::{AllocError, Global};

/// Gives the gate a packet.
pub fn give(
    gate: &mut Gate,
    alloc: Global,
    ext: i64,
    marker: bool,
    ts: u32,
    payload: &'static [u8],
) -> Result<Admitted, AllocError>
    requires { IsExt ext }
    ensures { IfOk result (λ a. Admits gate.old gate.new (numbered ext (given marker ts payload.now)) a) }
{
    let packet = Packet {
        marker,
        pt: 100,
        ts,
        payload: Bytes::from_static(payload),
    };
    gate.admit(alloc, ext, packet)
}
