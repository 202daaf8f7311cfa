//! A gate that misses packets.

ghost use Rattle.std.specs.Prelude.{◌≤◌};
ghost use Rattle.frame_gate.specs.Frame.{highest_pt};

use bytes::Bytes;
use frame_gate::{Gate, Packet};
use std::alloc::Global;
use std::test::*;

/// A whole frame of one packet.
fn packet(ts: u32) -> Packet<Global>
    ensures { result.pt ≤ highest_pt }
{
    Packet {
        marker: true,
        pt: 100,
        ts,
        payload: Bytes::from_static(&[7]),
    }
}

/// A gate tells which numbers below the greatest have not come.
#[test]
fn a_gate_tells_what_it_misses(rt: HostRuntime) -> Result<(), Fail> {
    let alloc = rt.alloc();
    let mut gate = Gate::new(alloc)?;
    gate.admit(alloc, 101, packet(9_000))?;
    gate.admit(alloc, 104, packet(12_000))?;
    let missing = gate.missing(alloc)?;
    assert!(rt; missing.as_slice() == [102, 103].as_slice());
    Ok(())
}

/// Once the missing numbers are given up, none is missing.
#[test]
fn what_is_given_up_is_not_missing(rt: HostRuntime) -> Result<(), Fail> {
    let alloc = rt.alloc();
    let mut gate = Gate::new(alloc)?;
    gate.admit(alloc, 101, packet(9_000))?;
    gate.admit(alloc, 104, packet(12_000))?;
    let prepared = gate.prepare_give_up(alloc, 103)?;
    let gave_up = gate.give_up(prepared);
    assert!(rt; gave_up.pli);
    assert!(rt; gate.missing(alloc)?.is_empty());
    Ok(())
}
