//! Who speaks in a trace.

/// Who speaks in a trace.
#[derive(Clone, Copy, PartialEq, Eq)]
pub enum Speaker {
    /// The receive side.
    Front,
    /// The lane of this number, from 0 on.
    Lane(u32),
}
