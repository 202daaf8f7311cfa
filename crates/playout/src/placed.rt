//! The answer to samples that are put.

/// What became of samples that were put.
#[derive(Clone, Copy, PartialEq, Eq)]
pub enum PlacedSamples {
    /// Some were kept. The others came too late, or their places had samples.
    Kept {
        /// The number of samples that were kept.
        count: u32,
    },
    /// All came too late.
    Late,
    /// They are more than a second away. The buffer was emptied, and begins anew with them.
    Reset,
}
