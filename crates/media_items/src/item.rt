//! The input events of lanes.

ghost use Rattle.std.specs.Prelude.{◌≡◌, IfOk};
ghost use Rattle.media_items.specs.Inputs.{input_of};

use crate::frame::MediaFrame;
use rtcp_codec::ReportBlock;
use rtp_codec::Address;
use std::alloc::{AllocError, Allocator, Global};

/// An input event of the lanes (media workers).
#[derive(Drop)]
pub enum Item<A: Allocator + Copy = Global> {
    /// A whole video frame of a source.
    Frame(MediaFrame<A>),
    /// The samples of an audio packet.
    Audio {
        /// The SSRC of the source.
        ssrc: u32,
        /// The address that it came from.
        address: Address,
        /// The clock rate, in Hz: 8000 or 44100.
        rate: u32,
        /// The RTP timestamp of the first sample, at that rate.
        ts: u32,
        /// The samples, 1 sample to 200 ms: at most 1,600 or 8,820.
        samples: Vec<i16, A>,
    },
    /// A tick: mixes are sent every 20 ms. The receive side makes none.
    Tick {
        /// The moment, in nanoseconds since 1970.
        moment: u64,
    },
    /// A generic NACK (RFC 4585 section 6.2.1): a receiver asks for packets again.
    Nack {
        /// The address that it came from.
        from: Address,
        /// The SSRC of the outgoing stream.
        out_ssrc: u32,
        /// The sequence numbers. A repeated number counts once.
        numbers: Vec<u16, A>,
    },
    /// A receiver's report block about an outgoing stream (RFC 3550 section 6.4.1).
    Block {
        /// The address that it came from.
        from: Address,
        /// The block. Its SSRC is that of the outgoing stream.
        block: ReportBlock,
    },
    /// A picture loss indication (RFC 4585 section 6.3.1): a receiver lost the picture.
    Pli {
        /// The address that it came from.
        from: Address,
        /// The SSRC of the outgoing stream.
        out_ssrc: u32,
    },
    /// Sender reports of all streams are due. The receive side makes none.
    Report {
        /// The moment, in nanoseconds since 1970.
        moment: u64,
    },
    /// From here on, jitter buffers begin anew after late or full sound. The receive side makes none.
    Renew,
}

impl<A: Allocator + Copy> Item<A> {
    /// A copy. It shares a frame's payloads, and copies samples and numbers.
    ///
    /// The only error is out of memory.
    pub fn copy(&self, alloc: A) -> Result<Self, AllocError>
        ensures { IfOk result (λ item. input_of item ≡ input_of self.now) }
    {
        match self {
            Item::Frame(frame) => Ok(Item::Frame(frame.try_clone(alloc)?)),
            &Item::Audio {
                ssrc,
                address,
                rate,
                ts,
                ref samples,
            } => Ok(Item::Audio {
                ssrc,
                address,
                rate,
                ts,
                samples: copied(alloc, samples)?,
            }),
            &Item::Tick { moment } => Ok(Item::Tick { moment }),
            &Item::Nack {
                from,
                out_ssrc,
                ref numbers,
            } => Ok(Item::Nack {
                from,
                out_ssrc,
                numbers: copied(alloc, numbers)?,
            }),
            &Item::Block { from, block } => Ok(Item::Block { from, block }),
            &Item::Pli { from, out_ssrc } => Ok(Item::Pli { from, out_ssrc }),
            &Item::Report { moment } => Ok(Item::Report { moment }),
            &Item::Renew => Ok(Item::Renew),
        }
    }
}

/// A copy of the numbers.
fn copied<T: Copy, A: Allocator>(alloc: A, numbers: &[T]) -> Result<Vec<T, A>, AllocError>
    ensures { IfOk result (λ copy. copy.items ≡ numbers.now) }
{
    let mut copy = Vec::with_capacity(alloc, numbers.len())?;
    copy.extend_from_slice(numbers)?;
    Ok(copy)
}
