//! RTP packets that are read, and what was written read back.

ghost use Rattle.std.specs.Prelude.{◌≡◌, ◌≤◌, [], IsOkAnd, IfSome, length};
ghost use Rattle.rtp_codec.specs.Packet.{plain};
ghost use Rattle.rtp_codec.specs.View.{packet_of};
ghost use Rattle.worked_codecs.specs.Packets.{greatest, from_101, extended, padding_alone};

use rtp_codec::{Header, RtpFault, RtpView, read, write, written_is_packet};

/// A header and nothing else, its fields at their most: an empty payload is accepted.
pub fn a_header_alone() -> Result<RtpView<'static>, RtpFault>
    ensures { IsOkAnd result (λ v. packet_of v ≡ greatest) }
{
    written_is_packet();
    read(&[
        0x80, 0xff, 0xff, 0xff, 0xff, 0xff, 0xff, 0xff, 0xff, 0xff, 0xff, 0xff,
    ])
}

/// A contributing source, and a payload of two octets.
pub fn a_source_and_a_payload() -> Result<RtpView<'static>, RtpFault>
    ensures { IsOkAnd result (λ v. packet_of v ≡ from_101) }
{
    written_is_packet();
    read(&[
        0x81, 0x64, 0xff, 0xff, 0, 0, 3, 0xe8, 0, 0, 1, 0xf5, 0, 0, 0, 101, 0xaa, 0xbb,
    ])
}

/// An extension of one word, a payload of an octet and two octets of padding.
pub fn an_extension_and_padding() -> Result<RtpView<'static>, RtpFault>
    ensures { IsOkAnd result (λ v. packet_of v ≡ extended) }
{
    read(&[
        0xb0, 0x64, 0, 1, 0, 0, 0, 2, 0, 0, 0, 3, 0xbe, 0xde, 0, 1, 1, 2, 3, 4, 0xaa, 7, 2,
    ])
}

/// All that is left is padding: an empty payload again.
pub fn nothing_but_padding() -> Result<RtpView<'static>, RtpFault>
    ensures { IsOkAnd result (λ v. packet_of v ≡ padding_alone) }
{
    read(&[0xa0, 0x64, 0, 1, 0, 0, 0, 2, 0, 0, 0, 3, 1])
}

/// What was written reads back as its parts.
pub fn what_was_written_reads_back<'a>(
    header: &Header,
    csrcs: &[u32],
    payload: &[u8],
    out: &'a mut Vec<u8>,
) -> Option<RtpView<'a>>
    requires pt { header.now.pt ≤ 127 }
    requires csrcs { length csrcs.now ≤ 15 }
    requires out { out.old.items ≡ [] }
    ensures { IfSome result (λ v. packet_of v ≡ plain header.now csrcs.now payload.now) }
{
    write(header, csrcs, payload, out).ok()?;
    read(out).ok()
}
