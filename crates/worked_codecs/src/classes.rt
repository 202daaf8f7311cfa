//! What a datagram is by its first two octets.

ghost use Rattle.std.specs.Prelude.{◌≡◌};

use rtp_codec::{Class, classify};

/// One octet is none either, whatever its version is.
pub fn one_octet_is_neither() -> Class
    ensures { result ≡ Class.Neither }
{
    classify(&[0x80])
}

/// The first type of RTCP.
pub fn type_192_is_rtcp() -> Class
    ensures { result ≡ Class.Rtcp }
{
    classify(&[0x80, 192])
}

/// The last type of RTCP, all other bits of the first octet set.
pub fn type_223_is_rtcp() -> Class
    ensures { result ≡ Class.Rtcp }
{
    classify(&[0xbf, 223, 0, 1])
}
