//! Addresses of sockets.

ghost use Rattle.std.specs.Prelude.{◌≡◌, Some};
ghost use Rattle.udp_wire.specs.Sockets.{told_address};

use rtp_codec::Address;
use std::net::{IpAddr, Ipv4Addr, SocketAddr};

/// An address as the system has it.
pub fn socket_address(address: Address) -> SocketAddr
    ensures { told_address result ≡ Some address }
{
    SocketAddr::new(
        IpAddr::V4(Ipv4Addr::from_octets(address.octets())),
        address.port,
    )
}

/// The address that the system reports, or `None` for IPv6. An IPv4 socket has an IPv4 address.
pub fn address_of(told: SocketAddr) -> Option<Address>
    ensures { result ≡ told_address told }
{
    match told.ip() {
        IpAddr::V4(ip) => Some(Address {
            ip: ip.octets(),
            port: told.port(),
        }),
        IpAddr::V6(_) => None,
    }
}
