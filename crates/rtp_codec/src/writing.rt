//! Writing RTP packets.

ghost use Rattle.std.specs.Prelude.{◌≡◌, ℕ, List, ◌+◌, ◌*◌, ◌<◌, ◌≤◌, ◌++◌, length, false, OnOk, OnErr, vec_len};
ghost use Rattle.std.specs.Prelude.{vec_capacity};
ghost use Rattle.rtp_codec.specs.Packet.{written, fixed_header, plain, IsPacket, FitsHeader, number_octets, size};
ghost use Rattle.rtp_codec.specs.Packet.{most_pt, most_csrcs};
ghost use Rattle.rtp_codec.specs.declared.writing.Header.{Header};

use std::alloc::{AllocError, Allocator};

/// The fixed header of an RTP packet (RFC 3550 section 5.1). The version, the counts and the flags of its first octet
/// follow from the packet.
#[derive(Clone, Copy, PartialEq, Eq)]
pub struct Header {
    /// The marker bit. For video it ends a frame.
    pub marker: bool,
    /// The payload type, at most 127.
    pub pt: u8,
    /// The sequence number.
    pub seq: u16,
    /// The RTP timestamp, in units of the payload's clock.
    pub ts: u32,
    /// The synchronisation source.
    pub ssrc: u32,
}

/// The octets of the fixed header of a packet without padding and extension (RFC 3550 section 5.1). It has at most 15
/// contributing sources (`csrc_count`, CC), and a payload type of at most 127:
///
/// ```text
///  0                   1                   2                   3
///  0 1 2 3 4 5 6 7 8 9 0 1 2 3 4 5 6 7 8 9 0 1 2 3 4 5 6 7 8 9 0 1
/// +-+-+-+-+-+-+-+-+-+-+-+-+-+-+-+-+-+-+-+-+-+-+-+-+-+-+-+-+-+-+-+-+
/// |V=2|P|X|  CC   |M|     PT      |       sequence number         |
/// +-+-+-+-+-+-+-+-+-+-+-+-+-+-+-+-+-+-+-+-+-+-+-+-+-+-+-+-+-+-+-+-+
/// |                           timestamp                           |
/// +-+-+-+-+-+-+-+-+-+-+-+-+-+-+-+-+-+-+-+-+-+-+-+-+-+-+-+-+-+-+-+-+
/// |                             SSRC                              |
/// +-+-+-+-+-+-+-+-+-+-+-+-+-+-+-+-+-+-+-+-+-+-+-+-+-+-+-+-+-+-+-+-+
/// ```
pub fn fixed_header(header: &Header, csrc_count: u8) -> [u8; 12]
    requires pt { header.now.pt ≤ most_pt }
    requires csrcs { csrc_count ≤ most_csrcs }
    ensures octets { result ≡ fixed_header false false header.now csrc_count }
    ensures fits { FitsHeader header.now }
{
    let (pt, seq) = (header.pt, header.seq);
    let (ts, ssrc) = (header.ts, header.ssrc);
    let [s0, s1] = seq.to_be_bytes();
    let [t0, t1, t2, t3] = ts.to_be_bytes();
    let [x0, x1, x2, x3] = ssrc.to_be_bytes();
    let second = if header.marker { 128 + pt } else { pt };
    [
        128 + csrc_count,
        second,
        s0,
        s1,
        t0,
        t1,
        t2,
        t3,
        x0,
        x1,
        x2,
        x3,
    ]
}

/// Appends octets. The buffer has the capacity.
fn append<A: Allocator>(octets: &[u8], out: &mut Vec<u8, A>)
    requires { vec_len out.old + length octets.now ≤ vec_capacity out.old }
    ensures items { out.new.items ≡ out.old.items ++ octets.now }
    ensures len { vec_len out.new ≡ vec_len out.old + length octets.now }
    ensures capacity { vec_capacity out.old ≤ vec_capacity out.new }
{
    // The buffer has the capacity, so this takes no memory and can't fail.
    let _ = out.extend_from_slice(octets);
}

/// Appends 32-bit numbers in network order. The buffer has the capacity.
fn append_numbers<A: Allocator>(numbers: &[u32], out: &mut Vec<u8, A>)
    requires { vec_len out.old + 4 * length numbers.now ≤ vec_capacity out.old }
    ensures items { out.new.items ≡ out.old.items ++ number_octets numbers.now }
    ensures len { vec_len out.new ≡ vec_len out.old + 4 * length numbers.now }
    ensures capacity { vec_capacity out.old ≤ vec_capacity out.new }
{
    for number in numbers {
        append(&number.to_be_bytes(), out);
    }
}

/// Appends an RTP packet to `out` (RFC 3550 section 5.1), without padding and header extension.
///
/// A packet has at most 15 contributing sources, and a payload type of at most 127. On out of memory `out` stays as it
/// was. If `out` has the capacity, `write` succeeds.
pub fn write<A: Allocator>(
    header: &Header,
    csrcs: &[u32],
    payload: &[u8],
    out: &mut Vec<u8, A>,
) -> Result<(), AllocError>
    requires pt { header.now.pt ≤ most_pt }
    requires csrcs { length csrcs.now ≤ most_csrcs }
    ensures ok { OnOk result (out.new.items ≡ out.old.items ++ written header.now csrcs.now payload.now) }
    // It reads back as these parts.
    ensures reads { OnOk result
        (IsPacket (plain header.now csrcs.now payload.now) (written header.now csrcs.now payload.now)) }
    ensures err { OnErr result (out.new.items ≡ out.old.items) }
    // Only a packet that exceeds the capacity takes memory.
    ensures full { OnErr result (vec_capacity out.old < vec_len out.old + size csrcs.now payload.now) }
{
    let octets = 12 + 4 * csrcs.len() + payload.len();
    out.reserve(octets)?;
    append(&fixed_header(header, csrcs.len() as u8), out);
    append_numbers(csrcs, out);
    append(payload, out);
    Ok(())
}

/// A law: [`read`] reads a written packet back as its parts. A caller that knows only the octets uses it.
pub fn written_is_packet()
    ensures { (header : Header) (csrcs payload : List ℕ) → FitsHeader header → length csrcs ≤ most_csrcs
        → IsPacket (plain header csrcs payload) (written header csrcs payload) }
{}
