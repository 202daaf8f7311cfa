//! Reads what receivers report of losses.

ghost use Rattle.std.specs.Prelude.{◌≡◌};
ghost use Rattle.receiver_feedback.specs.LossNotes.{note_of};

use forward_rewrite::{Owner, Stream};
use rtcp_codec::ReportBlock;
use std::alloc::Allocator;

/// A receiver's losses on an outgoing stream, by its report block.
#[derive(Clone, Copy)]
pub struct LossNote {
    /// The SSRC of the stream.
    pub out_ssrc: u32,
    /// The fraction of packets lost since the receiver's last report, in 256ths.
    pub fraction: u8,
    /// The packets lost in all: -8,388,608 to 8,388,607. Duplicates make it negative.
    pub lost: i32,
    /// The source's packet with the highest number that the receiver got: its SSRC and its extended sequence number,
    /// at least -65536. `None` if the stream doesn't have it.
    pub source: Option<(u32, i64)>,
}

/// Reads a report block that this owner sent about this stream (RFC 3550 section 6.4.1).
///
/// The block's highest number leads back to the source's packet, if its low 16 bits are those of one of the stream's
/// last 512 packets, and that packet went to the owner.
pub fn note<A: Allocator + Copy>(block: &ReportBlock, owner: &Owner, stream: &Stream<A>) -> LossNote
    ensures { result ≡ note_of block.now owner.now stream.now.window }
{
    let number = (block.highest % 65536) as u16;
    LossNote {
        out_ssrc: block.ssrc,
        fraction: block.fraction,
        lost: block.lost,
        source: stream
            .find(number, owner)
            .map(|entry| (entry.source, entry.ext)),
    }
}
