//! RTP packets that are written.

ghost use Rattle.std.specs.Prelude.{◌≡◌, ◌+◌, ◌≤◌, [], ◌∷◌, ◌++◌, OnOk, OnErr, IsOk, vec_len, vec_capacity};
ghost use Rattle.std.specs.List.{range_with_len};
ghost use Rattle.worked_codecs.specs.Octets.{octets_of};

use rtp_codec::{Header, write};
use std::alloc::AllocError;

/// A header with the marker, the greatest type and the last number.
const HEADER: Header = Header {
    marker: true,
    pt: 100,
    seq: 65_535,
    ts: 1_000,
    ssrc: 501,
};

/// One contributing source and two octets, behind an octet that stands there.
pub fn behind_an_octet(out: &mut Vec<u8>) -> Result<(), AllocError>
    requires { out.old.items ≡ 7 ∷ [] }
    ensures ok { OnOk result (out.new.items ≡ 7 ∷ octets_of (0x81e4_ffff ∷ 1000 ∷ 501 ∷ 101 ∷ []) ++ 0xaa ∷ 0xbb ∷ []) }
    ensures err { OnErr result (out.new.items ≡ 7 ∷ []) }
{
    write(&HEADER, &[101], &[0xaa, 0xbb], out)
}

/// Nothing but a header.
pub fn an_empty_packet(out: &mut Vec<u8>) -> Result<(), AllocError>
    requires { out.old.items ≡ [] }
    ensures ok { OnOk result (out.new.items ≡ octets_of (0x80e4_ffff ∷ 1000 ∷ 501 ∷ [])) }
{
    write(&HEADER, &[], &[], out)
}

/// Where the buffer has the capacity, no memory is taken.
pub fn within_capacity(out: &mut Vec<u8>) -> Result<(), AllocError>
    requires { vec_len out.old + 18 ≤ vec_capacity out.old }
    ensures { IsOk result }
{
    write(&HEADER, &[101], &[0xaa, 0xbb], out)
}

/// The most contributing sources.
pub fn with_15_sources(out: &mut Vec<u8>) -> Result<(), AllocError>
    requires { out.old.items ≡ [] }
    ensures { OnOk result (out.new.items ≡ octets_of (0x8fe4_ffff ∷ 1000 ∷ 501 ∷ range_with_len 1 15) ++ 9 ∷ []) }
{
    write(
        &HEADER,
        &[1, 2, 3, 4, 5, 6, 7, 8, 9, 10, 11, 12, 13, 14, 15],
        &[9],
        out,
    )
}
