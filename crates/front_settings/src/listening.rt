//! Where a bridge listens.

use rtp_codec::Address;
use std::fmt;

/// Where a bridge listens: its addresses as the system tells them.
#[derive(Clone, Copy, PartialEq, Eq)]
pub struct Listening {
    /// Where datagrams are taken.
    pub udp: Address,
    /// Where operators connect.
    pub tcp: Address,
}

impl fmt::Display for Listening {
    ghost use Rattle.std.specs.Prelude.{Some};
    ghost use Rattle.front_settings.specs.Printed.{listening_text};

    ghost output = { λ listening. Some (listening_text listening) };

    fn fmt<W: fmt::Write>(&self, f: &mut fmt::Formatter<W>) -> fmt::Result {
        let udp = self.udp;
        let tcp = self.tcp;
        write!(f, "udp {udp} and tcp {tcp}")
    }
}
