//! The counts of a lane that runs and of its streams, for whoever asks.

use crate::counts::SendCounts;
use crate::fault::SendFault;
use crate::stream_counts::StreamCounts;
use crate::stream_numbers::StreamNumbers;
use bridge_core::Egress;
use std::alloc::{AllocError, Global};
use std::sync::atomic::{AtomicU64, Ordering};
use std::sync::{Mutex, MutexGuard, Wait};

/// What a lane's sink has counted so far, in all and of each stream, as other threads may read it. Each count is exact,
/// and they may be of moments that a datagram or so lies between. No contract speaks of it.
///
/// A lane that sends while the counts of streams are read waits until they are copied.
#[derive(Drop)]
pub struct SharedCounts {
    packets: AtomicU64,
    octets: AtomicU64,
    waited: AtomicU64,
    not_ready: AtomicU64,
    denied: AtomicU64,
    refused: AtomicU64,
    unreachable: AtomicU64,
    too_long: AtomicU64,
    other: AtomicU64,
    streams: Mutex<StreamCounts>,
}

impl SharedCounts {
    /// Nothing was counted. The only error is out of memory.
    pub fn new(alloc: Global) -> Result<Self, AllocError> {
        Ok(Self {
            packets: AtomicU64::new(0),
            octets: AtomicU64::new(0),
            waited: AtomicU64::new(0),
            not_ready: AtomicU64::new(0),
            denied: AtomicU64::new(0),
            refused: AtomicU64::new(0),
            unreachable: AtomicU64::new(0),
            too_long: AtomicU64::new(0),
            other: AtomicU64::new(0),
            streams: Mutex::new(StreamCounts::new(alloc)?),
        })
    }

    /// How many streams are kept, and how many packets and reports were left out since memory was refused.
    pub fn streams<R: Wait>(&self, rt: &R) -> (usize, u64) {
        let streams = self.streams.lock(rt);
        let kept = (streams.len(), streams.left_out());
        MutexGuard::unlock(streams);
        kept
    }

    /// Copies what is counted of each stream, in the order in which the streams were counted first: of so many at most,
    /// of those that began last. The only error is out of memory.
    pub fn copy_streams<R: Wait>(
        &self,
        rt: &R,
        most: usize,
        out: &mut Vec<(u32, StreamNumbers)>,
    ) -> Result<(), AllocError> {
        let streams = self.streams.lock(rt);
        let done = streams.copy(most, out);
        MutexGuard::unlock(streams);
        done
    }

    /// Counts what a lane sent for its stream.
    pub(crate) fn count<R: Wait>(&self, rt: &R, egress: &Egress, answer: Result<(), SendFault>) {
        let mut streams = self.streams.lock(rt);
        streams.count(egress, answer);
        MutexGuard::unlock(streams);
    }

    /// What was counted so far.
    pub fn read(&self) -> SendCounts {
        SendCounts {
            packets: self.packets.load(Ordering::SeqCst),
            octets: self.octets.load(Ordering::SeqCst),
            waited: self.waited.load(Ordering::SeqCst),
            not_ready: self.not_ready.load(Ordering::SeqCst),
            denied: self.denied.load(Ordering::SeqCst),
            refused: self.refused.load(Ordering::SeqCst),
            unreachable: self.unreachable.load(Ordering::SeqCst),
            too_long: self.too_long.load(Ordering::SeqCst),
            other: self.other.load(Ordering::SeqCst),
        }
    }

    /// Shows what was counted. Where all went well, only what was sent has changed.
    pub(crate) fn show(&self, counts: &SendCounts, is_trouble: bool) {
        self.packets.store(counts.packets, Ordering::SeqCst);
        self.octets.store(counts.octets, Ordering::SeqCst);
        if is_trouble {
            self.waited.store(counts.waited, Ordering::SeqCst);
            self.not_ready.store(counts.not_ready, Ordering::SeqCst);
            self.denied.store(counts.denied, Ordering::SeqCst);
            self.refused.store(counts.refused, Ordering::SeqCst);
            self.unreachable.store(counts.unreachable, Ordering::SeqCst);
            self.too_long.store(counts.too_long, Ordering::SeqCst);
            self.other.store(counts.other, Ordering::SeqCst);
        }
    }
}
