//! Sends datagrams over a wire.

ghost use Rattle.std.specs.Prelude.{◌≡◌, ◌++◌, ◌∷◌, [], ◌≤◌, List, map, Option};
ghost use Rattle.udp_wire.specs.Attempts.{Attempt, Tried, with_tried, GrewBy};

use bridge_core::{Egress, PacketBytes};
use rtp_codec::Address;
use std::alloc::Allocator;

/// Where datagrams are sent. Contracts see the list of its attempts, oldest first, if that is known.
pub trait Wire {
    /// What was tried so far, and whether it was sent. Of a socket that isn't known.
    ghost attempts: { Self → Option (List Attempt) };

    /// Tries once to send a datagram, and returns whether it was sent.
    fn send(&mut self, to: Address, octets: &[u8]) -> bool
        ensures { attempts self.new
            ≡ with_tried (record { to = to; octets = octets.now; sent = result } ∷ []) (attempts self.old) };

    /// The same, of a datagram in two parts.
    fn send_parts(&mut self, to: Address, first: &[u8], rest: &[u8]) -> bool
        ensures { attempts self.new
            ≡ with_tried (record { to = to; octets = first.now ++ rest.now; sent = result } ∷ []) (attempts self.old) };
}

/// Tries to send each datagram once, in order, whatever failed before. Returns how many failed.
/// The number beside each egress is its lane's. It has no effect.
pub fn send_all<A: Allocator + Copy, W: Wire>(egresses: &[(u32, Egress<A>)], wire: &mut W) -> u64
    ensures { GrewBy (map (λ e. e.1) egresses.now) (W.attempts wire.old) (W.attempts wire.new) result }
{
    let mut failed = 0;
    for (_, egress) in egresses {
        failed += send_one(egress, wire);
    }
    failed
}

/// Tries to send a datagram, and counts the failure.
fn attempt<W: Wire>(to: Address, octets: &[u8], wire: &mut W) -> u64
    ensures tried { Tried to octets.now (W.attempts wire.old) (W.attempts wire.new) result }
    ensures small { result ≤ 1 }
{
    if wire.send(to, octets) { 0 } else { 1 }
}

/// Tries to send a packet, and counts the failure.
fn attempt_packet<A: Allocator + Copy, W: Wire>(
    to: Address,
    packet: &PacketBytes<A>,
    wire: &mut W,
) -> u64
    ensures tried { Tried to packet.now (W.attempts wire.old) (W.attempts wire.new) result }
    ensures small { result ≤ 1 }
{
    let (first, rest) = packet.parts();
    if wire.send_parts(to, first, rest) {
        0
    } else {
        1
    }
}

/// Tries to send the datagram of an egress, if it has one, and counts the failure.
#[tactic(auto, using(crate::proofs::WireLemmas::grew_one, crate::proofs::WireLemmas::grew_none))]
fn send_one<A: Allocator + Copy, W: Wire>(egress: &Egress<A>, wire: &mut W) -> u64
    ensures grew { GrewBy (egress.now ∷ []) (W.attempts wire.old) (W.attempts wire.new) result }
    ensures small { result ≤ 1 }
{
    match egress {
        Egress::Media { to, bytes, .. } => attempt_packet(*to, bytes, wire),
        Egress::Control { to, bytes, .. } => attempt(*to, bytes, wire),
        Egress::Note { .. } => 0,
    }
}
