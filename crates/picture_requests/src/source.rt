//! Sources of video.

ghost use Rattle.std.specs.Prelude.{◌≡◌};
ghost use Rattle.picture_requests.specs.Sources.{member_address, source_at, is_among};

use rtp_codec::{Address, IpOctets};

/// A source of video at the address of its member. The parts of the address stand apart, as keys of tables.
#[derive(Clone, Copy, PartialEq, Eq, Hash)]
pub struct VideoSource {
    /// The SSRC of the source.
    pub ssrc: u32,
    /// The four octets of the member's IPv4 address, in network order.
    pub ip: IpOctets,
    /// The member's UDP port.
    pub port: u16,
}

impl VideoSource {
    /// The source of this SSRC at an address.
    pub fn at(ssrc: u32, address: &Address) -> Self
        ensures { result ≡ source_at ssrc address.now }
    {
        Self {
            ssrc,
            ip: address.octets(),
            port: address.port,
        }
    }

    /// The address of the source's member, to which a request goes.
    pub fn address(&self) -> Address
        ensures { result ≡ member_address self.now }
    {
        Address {
            ip: self.ip,
            port: self.port,
        }
    }
}

/// Whether a source is among these.
pub(crate) fn is_among(sources: &[VideoSource], source: &VideoSource) -> bool
    ensures { result ≡ is_among sources.now source.now }
{
    sources.iter().any(|other| *source == *other)
}
