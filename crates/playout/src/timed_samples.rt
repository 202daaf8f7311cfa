//! Samples as they came.

/// Samples of a source as they came.
#[derive(Clone, Copy)]
pub struct TimedSamples<'a> {
    /// Their clock rate in Hz, 50 to 48,000 (RFC 3550 section 5.1).
    pub rate: u32,
    /// The RTP timestamp of the first one, in units of that rate.
    pub ts: u32,
    /// The samples, 16 bits each, in order: 1 sample to a fifth of a second.
    pub samples: &'a [i16],
}
