//! The addresses of datagrams.

ghost use Rattle.std.specs.Prelude.{◌≡◌};

/// The octets of an IP address: four, as it is an IPv4 address.
pub type IpOctets = [u8; 4];

/// An IPv4 address and a UDP port.
#[derive(Clone, Copy, PartialEq, Eq)]
pub struct Address {
    /// The four octets, in network order.
    pub ip: IpOctets,
    /// The UDP port.
    pub port: u16,
}

impl Address {
    /// The octets of its IPv4 address, in network order.
    #[inline(always)]
    pub fn octets(&self) -> IpOctets
        ensures { result ≡ self.now.ip }
    {
        self.ip
    }
}
