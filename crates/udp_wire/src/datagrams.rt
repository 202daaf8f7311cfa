//! What a socket for datagrams is asked.

ghost use Rattle.std.specs.Prelude.{◌≡◌, ◌++◌, ◌+◌, ◌<◌, ℕ, List, length, Result, IfOk, OnErr, vec_capacity};
ghost use Rattle.std.specs.Counts.{IsPrefixLen};
ghost use Rattle.std.specs.declared.io.Error.{Error};
ghost use Rattle.std.specs.declared.net.socket_addr.SocketAddr.{SocketAddr as Place};
ghost use Rattle.udp_wire.specs.Asked.{WasSent};

use crate::socket::socket_address;
use rtp_codec::Address;
use std::alloc::AllocError;
use std::io;
use std::net::SocketAddr;

/// A socket for datagrams: two calls of the system, and nothing else.
///
/// Contracts see each call as a relation between the socket before and the socket after it. Only the call itself shows
/// that it holds. So a function that promises one of them from its first to its last moment makes this call, with
/// these octets and this address, and no other.
pub trait Datagrams {
    /// It was asked for a datagram, answered this, and left these octets in the chunk.
    ghost received: { Self → Self → Result (ℕ × Place) Error → List ℕ → Type 0 };

    /// It was asked to send these octets to this address, and answered this.
    ghost sent: { Self → Self → List ℕ → Place → Result ℕ Error → Type 0 };

    /// Reads the next datagram into a chunk: how many octets it has, and where it comes from.
    fn recv_from(&mut self, chunk: &mut [u8]) -> io::Result<(usize, SocketAddr)>
        ensures call { received self.old self.new result chunk.new }
        ensures few { IfOk result (λ r. IsPrefixLen r.0 chunk.new) };

    /// Sends a datagram to an address.
    fn send_to(&mut self, octets: &[u8], to: SocketAddr) -> io::Result<usize>
        ensures { sent self.old self.new octets.now to result };
}

/// Sends a datagram once.
pub fn send_octets<D: Datagrams>(socket: &mut D, to: Address, octets: &[u8]) -> io::Result<usize>
    ensures { WasSent D.sent socket.old socket.new to octets.now result }
{
    socket.send_to(octets, socket_address(to))
}

/// Sends a datagram of two parts once, which it joins in `whole`. On out of memory it sends nothing.
pub fn send_parts<D: Datagrams>(
    socket: &mut D,
    whole: &mut Vec<u8>,
    to: Address,
    first: &[u8],
    rest: &[u8],
) -> Result<io::Result<usize>, AllocError>
    ensures sent { IfOk result (WasSent D.sent socket.old socket.new to (first.now ++ rest.now)) }
    ensures none { OnErr result (socket.new ≡ socket.old) }
    ensures full { OnErr result (vec_capacity whole.old < length first.now + length rest.now) }
{
    if first.is_empty() {
        return Ok(send_octets(socket, to, rest));
    }
    whole.clear();
    whole.extend_from_slice(first)?;
    whole.extend_from_slice(rest)?;
    Ok(send_octets(socket, to, whole))
}
