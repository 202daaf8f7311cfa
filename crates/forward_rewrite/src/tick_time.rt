//! What a mix stream keeps of its last tick.

/// The clock rate and the moment of a tick.
#[derive(Clone, Copy)]
pub struct TickTime {
    /// The clock rate, in Hz: 8000 or 44100.
    pub rate: u32,
    /// The moment, in nanoseconds since 1970.
    pub moment: u64,
}
