//! Laws of the definitions, as functions that do nothing when they run.

ghost use Rattle.std.specs.Prelude.{◌≡◌, ℕ, List, None};
ghost use Rattle.rtp_codec.specs.Octets.{AreOctets};
ghost use Rattle.rtp_codec.specs.Packet.{Packet, IsPacket};
ghost use Rattle.rtp_codec.specs.Fault.{first_fault};

/// Octets that have no fault are a packet: so any octets are a packet or have a first fault.
pub fn faultless_is_packet()
    ensures { (octets : List ℕ) → AreOctets octets → first_fault octets ≡ None → (p : Packet) × IsPacket p octets }
{}
