//! Where operators connect.

ghost use Rattle.std.specs.Prelude.{◌≡◌, ◌||◌, false, None, IfSome};

use mio::net::{TcpListener, TcpStream};
use operator_threads::Lobby;
use rtp_codec::Address;
use std::io::ErrorKind;
use udp_wire::{Moments, address_of};

/// Where a connection comes from that has no address of IPv4, which none has here.
const NOWHERE: Address = Address {
    ip: [0, 0, 0, 0],
    port: 0,
};

/// Where operators connect.
#[derive(Drop)]
pub(crate) struct OperatorListener {
    pub(crate) tcp: TcpListener,
    /// Connections may wait.
    // So a round in which nobody connects asks the system nothing. Where more than 64 connect at once, some wait 20 ms.
    pub(crate) has_callers: bool,
    /// The connections whose first line has not come.
    pub(crate) lobby: Lobby,
    /// The clock of all connections.
    pub(crate) moments: Moments,
}

impl OperatorListener {
    /// Notes whether connections may wait since the last call.
    pub(crate) fn note(&mut self, may_wait: bool)
        ensures { self.new ≡ record self.old { has_callers = self.old.has_callers || may_wait } }
    {
        self.has_callers = self.has_callers || may_wait;
    }

    /// The next connection, if one waits, and where it comes from. Behind one more may wait.
    pub(crate) fn next_caller(&mut self) -> Option<(TcpStream, Address)>
        ensures some { IfSome result (λ _. self.new ≡ self.old) }
        ensures none { self.old.has_callers ≡ false → (result ≡ None) × (self.new ≡ self.old) }
    {
        if !self.has_callers {
            return None;
        }
        match self.tcp.accept() {
            Ok((stream, told)) => Some((stream, address_of(told).unwrap_or(NOWHERE))),
            Err(error) => {
                self.has_callers = error.kind() != ErrorKind::WouldBlock;
                None
            }
        }
    }
}
