//! The last frame of a stream, from which the next timestamp follows.

ghost use Rattle.std.specs.Prelude.{◌≡◌, Some};
ghost use Rattle.forward_rewrite.specs.Streams.{sent};
ghost use Rattle.forward_rewrite.specs.inner.Counters.{ts_after, goes_on};

use media_items::MediaFrame;
use rtp_codec::Address;
use std::alloc::Allocator;

/// The last frame that was sent. Its offset leads from the source's timestamps to the stream's.
#[derive(Clone, Copy)]
pub struct LastSent {
    source: u32,
    address: Address,
    epoch: u64,
    moment: u64,
    ts: u32,
    offset: u32,
}

impl LastSent {
    /// The frame as it is kept, sent under this timestamp.
    pub fn new<A: Allocator + Copy>(frame: &MediaFrame<A>, ts: u32) -> Self
        ensures { result ≡ sent frame.now ts }
    {
        let whole = &frame.frame;
        Self {
            source: frame.source,
            address: frame.address,
            epoch: frame.epoch,
            moment: frame.moment,
            ts,
            offset: ts.wrapping_sub(whole.ts),
        }
    }

    /// The timestamp under which it was sent.
    pub fn ts(&self) -> u32
        ensures { result ≡ self.now.ts }
    {
        self.ts
    }

    /// The moment when it came, in nanoseconds since 1970.
    pub fn moment(&self) -> u64
        ensures { result ≡ self.now.moment }
    {
        self.moment
    }

    /// The timestamp of the next frame.
    pub fn ts_for<A: Allocator + Copy>(&self, frame: &MediaFrame<A>) -> u32
        ensures { result ≡ ts_after 0 (Some self.now) frame.now }
    {
        let whole = &frame.frame;
        if self.goes_on(frame) {
            return whole.ts.wrapping_add(self.offset);
        }
        let elapsed = frame.moment.saturating_sub(self.moment);
        let ticks = (elapsed / 1000 * 9 / 100).max(1);
        ((u64::from(self.ts) + ticks) % 4_294_967_296) as u32
    }

    /// Whether the frame has the source, address and epoch of the last one.
    fn goes_on<A: Allocator + Copy>(&self, frame: &MediaFrame<A>) -> bool
        ensures { result ≡ goes_on self.now frame.now }
    {
        self.source == frame.source && (self.address == frame.address && self.epoch == frame.epoch)
    }
}
