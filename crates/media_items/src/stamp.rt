//! What explains a packet that is sent.

/// Explains what a lane sends: the version of the desk that it followed, and the item that it answered.
#[derive(Clone, Copy, PartialEq, Eq)]
pub struct Stamp {
    /// The version of the desk, 0 to 1,048,576.
    pub version: u64,
    /// The item's number in the lane, from 1 on.
    pub item: u64,
}
