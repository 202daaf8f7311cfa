//! Reads compounds.

ghost use Rattle.std.specs.Prelude.{◌≡◌, ◌<◌, ℕ, false, List, length, IfOk, IfErr, MatchResult, IsErrOf, ◌⊎◌};
ghost use Rattle.rtcp_codec.specs.declared.fault.RtcpFault.{RtcpFault as Fault};
ghost use Rattle.rtcp_codec.specs.declared.fault.RtcpFault.TheVariants as faults;
ghost use Rattle.rtcp_codec.specs.Packet.{Packet};
ghost use Rattle.rtcp_codec.specs.Compound.{IsCompound, HasFault};
ghost use Rattle.rtcp_codec.specs.inner.Reading.{Takes};
ghost use Rattle.rtcp_codec.specs.View.{packet_of, packets_of};

use crate::bodies::packet_from;
use crate::fault::RtcpFault;
use crate::judging::{body_at, judge, size_at};
use crate::packet::Rtcp;
use std::alloc::{AllocError, Allocator};

/// The packet at the front, and what follows it.
fn next_packet<A: Allocator + Copy>(alloc: A, octets: &[u8]) -> Result<(Rtcp<A>, &[u8]), AllocError>
    requires { (p : Packet) × (rest : List ℕ) × Takes false p octets.now rest }
    ensures left { IfOk result (λ r. length r.1.now < length octets.now) }
    ensures same { IfOk result (λ r. (p : Packet) (rest : List ℕ) → Takes false p octets.now rest
        → (packet_of r.0 ≡ p) × (r.1.now ≡ rest)) }
{
    let (packet, rest) = octets.split_at(size_at(octets));
    let body = body_at(packet);
    let packet = packet_from(alloc, packet[1], packet[0] % 32, body)?;
    Ok((packet, rest))
}

/// The packets of a compound.
fn packets_from<A: Allocator + Copy>(alloc: A, octets: &[u8]) -> Result<Vec<Rtcp<A>, A>, AllocError>
    requires { (ps : List Packet) × IsCompound ps octets.now }
    ensures { IfOk result (λ v. (ps : List Packet) → IsCompound ps octets.now → packets_of v.items ≡ ps) }
{
    let mut packets = Vec::new(alloc);
    let mut rest = octets;
    while !rest.is_empty() {
        let (packet, after) = next_packet(alloc, rest)?;
        packets.push(packet)?;
        rest = after;
    }
    Ok(packets)
}

/// Reads the packets of a compound (RFC 3550 section 6.1).
///
/// A compound may lack a source description. A packet of an unknown type is an [`Other`](crate::Other). Octets behind
/// the named parts of a body are ignored, and so is the fill of a chunk.
///
/// A datagram that is no compound gives the first fault of its first faulty packet, and takes no memory.
pub fn read_compound<A: Allocator + Copy>(
    alloc: A,
    octets: &[u8],
) -> Result<Vec<Rtcp<A>, A>, RtcpFault>
    // The octets are the compound of these packets.
    ensures found { IfOk result (λ v. IsCompound (packets_of v.items) octets.now) }
    // Each compound is read, as its packets and no others, unless memory runs out.
    ensures only { (ps : List Packet) → IsCompound ps octets.now
        → MatchResult result (λ v. packets_of v.items ≡ ps) (λ f. f ≡ faults.OutOfMemory) }
    // The fault is the first of the first faulty packet.
    ensures fault { IfErr result (λ f. (f ≡ faults.OutOfMemory) ⊎ HasFault f octets.now) }
    // Each fault is reported, and that takes no memory.
    ensures told { (f : Fault) → HasFault f octets.now → IsErrOf result f }
    // Only a compound takes memory.
    ensures memory { IfErr result (λ f. f ≡ faults.OutOfMemory → (ps : List Packet) × IsCompound ps octets.now) }
{
    // All octets are judged before a packet is read: a fault depends on the octets alone, and hostile ones take no
    // memory.
    judge(octets)?;
    Ok(packets_from(alloc, octets)?)
}
