//! The packets of a mix.

ghost use Rattle.std.specs.Prelude.{◌≡◌, ◌≤◌, ◌++◌, ℕ, List, [], length, false, IfOk, OnOk};
ghost use Rattle.rtp_codec.specs.Packet.{written, number_octets, most_pt, most_csrcs};
ghost use Rattle.media_items.specs.Formats.{encoded};

use crate::formats::append_encoded;
use bytes::{Bytes, BytesMut};
use media_items::Format;
use retransmit::PacketBytes;
use rtp_codec::{Header, fixed_header, write};
use std::alloc::{AllocError, Allocator};

/// The contributing sources of a packet, in network order: the octets of `front`, then those of `back`.
#[derive(Clone, Copy)]
pub struct Named<'a> {
    /// The number of sources, at most 15. Each has four octets.
    pub count: u8,
    /// The octets of the first ones.
    pub front: &'a [u8],
    /// The octets of the others.
    pub back: &'a [u8],
}

/// The octets of a packet with these samples, in one piece.
pub fn packet_of<A: Allocator + Copy>(
    alloc: A,
    header: &Header,
    csrcs: &[u32],
    format: Format,
    samples: &[i16],
) -> Result<PacketBytes<A>, AllocError>
    requires pt { header.now.pt ≤ most_pt }
    requires csrcs { length csrcs.now ≤ most_csrcs }
    ensures { IfOk result (λ bytes. bytes ≡ written header.now csrcs.now (encoded format samples.now)) }
{
    let size = 12 + 4 * csrcs.len() + format.payload_len(samples);
    let mut out = Vec::with_capacity(alloc, size)?;
    write(header, csrcs, &[], &mut out)?;
    append_encoded(format, samples, &mut out)?;
    Ok(PacketBytes::whole(Bytes::from_vec(out)?))
}

/// The octets of a packet with this payload. They are written to an empty buffer and cut off it, with no second copy.
pub fn packet_in<A: Allocator + Copy>(
    block: &mut BytesMut<A>,
    header: &Header,
    named: Named<'_>,
    payload: &[u8],
) -> Result<PacketBytes<A>, AllocError>
    requires pt { header.now.pt ≤ most_pt }
    requires csrcs { named.count ≤ most_csrcs }
    requires empty { block.old.items ≡ [] }
    ensures octets { IfOk result
        (λ bytes. (csrcs : List ℕ) → length csrcs ≡ named.entry.count
        → named.entry.front.now ++ named.entry.back.now ≡ number_octets csrcs
        → bytes ≡ written header.now csrcs payload.now) }
    ensures empty { OnOk result (block.new.items ≡ []) }
{
    block.extend_from_slice(&fixed_header(header, named.count))?;
    block.extend_from_slice(named.front)?;
    block.extend_from_slice(named.back)?;
    block.extend_from_slice(payload)?;
    let count = block.len();
    Ok(PacketBytes::whole(block.freeze_to(count)?))
}
