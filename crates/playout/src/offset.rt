//! How far samples are put from the position.

/// How many places the first sample of a put is ahead of the position, or behind it. One of them is 0.
#[derive(Clone, Copy)]
pub(crate) struct Offset {
    pub(crate) ahead: u32,
    pub(crate) behind: u32,
}
