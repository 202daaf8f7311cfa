//! The system's socket for datagrams. What its two calls do is trusted.

use mio::net::UdpSocket;
use std::io;
use std::net::SocketAddr;
use udp_wire::Datagrams;

/// The system's socket for datagrams.
// Nothing here decides anything: what a call is given and what it answers goes through as it is. No clause can say what
// the system does.
#[derive(Drop)]
pub(crate) struct SystemSocket<'s>(pub(crate) &'s UdpSocket);

impl<'s> Datagrams for SystemSocket<'s> {
    ghost use Rattle.std.specs.Prelude.{⊤};

    ghost received = { λ old new answer chunk. ⊤ };

    ghost sent = { λ old new octets to answer. ⊤ };

    fn recv_from(&mut self, chunk: &mut [u8]) -> io::Result<(usize, SocketAddr)> {
        self.0.recv_from(chunk)
    }

    fn send_to(&mut self, octets: &[u8], to: SocketAddr) -> io::Result<usize> {
        self.0.send_to(octets, to)
    }
}
