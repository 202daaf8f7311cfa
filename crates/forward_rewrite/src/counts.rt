//! The counts of a stream for its sender reports.

/// What an outgoing stream has sent so far, for its sender report (RFC 3550 section 6.4.1). Resends don't count.
// Video streams and mixes both give these, so sender reports are one function. A stream that hasn't begun gives none,
// so that function has no condition.
#[derive(Clone, Copy)]
pub struct Counts {
    /// The SSRC of the stream.
    pub ssrc: u32,
    /// The packets that were sent, modulo 2^32.
    pub packets: u32,
    /// The octets of payload that were sent, modulo 2^32.
    pub octets: u32,
    /// The RTP timestamp of its last frame, or of a mix's last tick, in units of `rate`.
    pub ts: u32,
    /// The moment of that frame or tick, in nanoseconds since 1970.
    pub moment: u64,
    /// The clock rate of the timestamp, in Hz: 8000 or 44100 for audio, 90000 for video.
    pub rate: u32,
}
