//! Who sends.

ghost use Rattle.std.specs.Prelude.{◌≡◌};
ghost use Rattle.bridge_stats.specs.Senders.{sender_of};

use rtp_codec::{Address, Header, IpOctets};

/// Who sends RTP packets: an address and an SSRC.
#[derive(Clone, Copy, PartialEq, Eq, Hash)]
pub struct Sender {
    /// The four octets of the IPv4 address, in network order.
    pub ip: IpOctets,
    /// The UDP port.
    pub port: u16,
    /// The SSRC of its packets.
    pub ssrc: u32,
}

/// Who sent a packet with this header from this address.
pub(crate) fn sender_of(from: &Address, header: &Header) -> Sender
    ensures { result ≡ sender_of from.now header.now }
{
    Sender {
        ip: from.octets(),
        port: from.port,
        ssrc: header.ssrc,
    }
}
