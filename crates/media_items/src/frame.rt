//! Video frames with their origin.

ghost use Rattle.std.specs.Prelude.{◌≡◌, IfOk};

use frame_gate::Frame;
use rtp_codec::Address;
use std::alloc::{AllocError, Allocator, Global};
use std::marker::Model;

/// A frame, and the source that it came from.
#[derive(Drop)]
pub struct MediaFrame<A: Allocator + Copy = Global> {
    /// The SSRC of the source.
    pub source: u32,
    /// The address that it came from.
    pub address: Address,
    /// The epoch of the source, from 1 on. Each initialisation of a source begins an epoch.
    pub epoch: u64,
    /// The moment when it became whole, in nanoseconds since 1970.
    pub moment: u64,
    /// The packets of the frame.
    pub frame: Frame<A>,
}

impl<A: Allocator + Copy> Model for MediaFrame<A> {
    ghost use Rattle.media_items.specs.Frame.{SourceFrame};

    ghost Value = { SourceFrame };

    ghost view = { λ f. record {
      source = f.source;
      address = f.address;
      epoch = f.epoch;
      moment = f.moment;
      frame = f.frame;
    } };
}

impl<A: Allocator + Copy> MediaFrame<A> {
    /// A copy that shares the payloads. The only error is out of memory.
    pub fn try_clone(&self, alloc: A) -> Result<Self, AllocError>
        ensures { IfOk result (λ frame. frame ≡ self.now) }
    {
        let frame = self.frame.try_clone(alloc)?;
        Ok(Self {
            source: self.source,
            address: self.address,
            epoch: self.epoch,
            moment: self.moment,
            frame,
        })
    }
}
