//! The key of a bucket.

ghost use Rattle.std.specs.Prelude.{◌≡◌};
ghost use Rattle.rate_limiter.specs.inner.Keyed.{key_of};

use rtp_codec::{Address, IpOctets};

/// The key of a bucket: the parts of its address.
#[derive(Clone, Copy, PartialEq, Eq, Hash)]
pub(crate) struct AddressKey {
    ip: IpOctets,
    port: u16,
}

/// The key of the bucket of an address.
pub(crate) fn key_of(address: &Address) -> AddressKey
    ensures { result ≡ key_of address.now }
{
    AddressKey {
        ip: address.octets(),
        port: address.port,
    }
}
