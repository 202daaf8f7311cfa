//! Why datagrams are no RTP packets: the first fault is told.
#![tactic(auto, unfolding(rtp_codec::specs::Fault::first_fault))]

ghost use Rattle.std.specs.Prelude.{◌≡◌, Some};

use rtp_codec::{RtpFault, read};

/// An octet is missing, which is told before the version.
pub fn an_octet_is_missing() -> Option<RtpFault>
    ensures { result ≡ Some RtpFault.Short }
{
    read(&[0, 0, 0, 0, 0, 0, 0, 0, 0, 0, 0]).err()
}

/// The extension's word has three octets, which is told before the padding.
pub fn three_octets_of_a_word() -> Option<RtpFault>
    ensures { result ≡ Some RtpFault.Extension }
{
    read(&[
        0xb0, 0, 0, 0, 0, 0, 0, 0, 0, 0, 0, 101, 0xbe, 0xde, 0, 1, 1, 2, 0,
    ])
    .err()
}

/// Padding is due where nothing is left: the last octet of the header is no count.
pub fn nothing_is_left_of_padding() -> Option<RtpFault>
    ensures { result ≡ Some RtpFault.Padding }
{
    read(&[0xa0, 0, 0, 1, 0, 0, 0, 0, 0, 0, 0, 1]).err()
}
