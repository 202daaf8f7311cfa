//! Packets that are a frame or none, by their first fault.

ghost use Rattle.std.specs.Prelude.{◌≡◌, true, pos, [], ◌∷◌, Some};
ghost use Rattle.worked_bridge.specs.Packets.{packet};

use bridge_core::{Frame, FrameFault, FramePacket};
use std::alloc::Global;

/// A frame has a packet.
#[tactic(auto, unfolding(frame_gate::specs::Frame::fault_of))]
pub fn no_packet(alloc: Global) -> Option<FrameFault>
    ensures { result ≡ Some FrameFault.Empty }
{
    Frame::new(0, Vec::new(alloc)).err()
}

/// A number that stands twice comes before a payload that is missing.
#[tactic(auto, unfolding(frame_gate::specs::Frame::fault_of))]
pub fn a_number_twice(packets: Vec<FramePacket>) -> Option<FrameFault>
    requires { packets.items ≡ packet (pos 8) true 128 [] ∷ packet (pos 8) true 100 (1 ∷ []) ∷ [] }
    ensures { result ≡ Some FrameFault.Order }
{
    Frame::new(0, packets).err()
}

/// A payload that is missing comes before a type that is too great.
#[tactic(auto, unfolding(frame_gate::specs::Frame::fault_of))]
pub fn no_payload(packets: Vec<FramePacket>) -> Option<FrameFault>
    requires { packets.items ≡ packet (pos 7) true 128 [] ∷ packet (pos 8) true 100 (1 ∷ []) ∷ [] }
    ensures { result ≡ Some FrameFault.NoPayload }
{
    Frame::new(0, packets).err()
}

/// A type that is too great comes before a marker that is too early.
#[tactic(auto, unfolding(frame_gate::specs::Frame::fault_of))]
pub fn the_type_128(packets: Vec<FramePacket>) -> Option<FrameFault>
    requires { packets.items ≡ packet (pos 7) true 128 (1 ∷ []) ∷ packet (pos 8) true 100 (1 ∷ []) ∷ [] }
    ensures { result ≡ Some FrameFault.BadKind }
{
    Frame::new(0, packets).err()
}

/// The marker stands at the last packet alone.
#[tactic(auto, unfolding(frame_gate::specs::Frame::fault_of))]
pub fn a_marker_too_early(packets: Vec<FramePacket>) -> Option<FrameFault>
    requires { packets.items ≡ packet (pos 7) true 127 (1 ∷ []) ∷ packet (pos 8) true 100 (1 ∷ []) ∷ [] }
    ensures { result ≡ Some FrameFault.Marker }
{
    Frame::new(0, packets).err()
}
