//! Sender and receiver reports.

use std::alloc::{Allocator, Global};

/// A receiver's statistics of one source (RFC 3550 section 6.4.1).
#[derive(Clone, Copy, PartialEq, Eq)]
pub struct ReportBlock {
    /// The source that the block is about.
    pub ssrc: u32,
    /// The fraction of packets lost since the last report, in 256ths.
    pub fraction: u8,
    /// The packets lost in all: -8,388,608 to 8,388,607. Duplicates make it negative.
    pub lost: i32,
    /// The highest sequence number in the lower 16 bits, the number of wraps in the upper 16.
    pub highest: u32,
    /// The interarrival jitter, in units of the RTP timestamp.
    pub jitter: u32,
    /// The middle 32 bits of the last sender report's NTP timestamp (LSR). 0 if there was none.
    pub lsr: u32,
    /// The delay since that report (DLSR), in 65536ths of a second. 0 if there was none.
    pub dlsr: u32,
}

/// A sender report (SR, RFC 3550 section 6.4.1).
#[derive(Drop)]
pub struct SenderReport<A: Allocator = Global> {
    /// The sender.
    pub ssrc: u32,
    /// The NTP timestamp: seconds since 1900 in the upper 32 bits, their fraction in the lower 32.
    pub ntp: u64,
    /// The RTP timestamp of the same moment, in units of the media's clock.
    pub ts: u32,
    /// The packets that the sender has sent, modulo 2^32.
    pub packets: u32,
    /// The octets of payload that the sender has sent, modulo 2^32.
    pub octets: u32,
    /// The report blocks, at most 31.
    pub blocks: Vec<ReportBlock, A>,
}

/// A receiver report (RR, RFC 3550 section 6.4.2).
#[derive(Drop)]
pub struct ReceiverReport<A: Allocator = Global> {
    /// The receiver.
    pub ssrc: u32,
    /// The report blocks, at most 31.
    pub blocks: Vec<ReportBlock, A>,
}
