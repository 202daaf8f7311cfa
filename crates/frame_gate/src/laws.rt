//! Laws of the definitions: functions that do nothing when they run.

ghost use Rattle.std.specs.Prelude.{◌≡◌, List, map};
ghost use Rattle.frame_gate.specs.Epochs.{epoch_of};
ghost use Rattle.frame_gate.specs.Packets.{NumberedPacket};
ghost use Rattle.frame_gate.specs.Watched.{came, watch_of};
ghost use Rattle.frame_gate.specs.laws.WholeDivision.{WholeDivision};

/// A law: a run of packets is divided behind a marker and where the timestamp changes, and nowhere else.
pub fn whole_division()
    ensures { WholeDivision }
{}

/// A law: without waits a watched gate is a gate. Its epoch is that of the packets alone.
pub fn packets_alone_are_an_epoch()
    ensures { (packets : List NumberedPacket) → (watch_of (map came packets)).epoch ≡ epoch_of packets }
{}
