//! Up to two things.

/// Up to two things of one type. Contracts see a list.
#[derive(Clone, Copy)]
pub enum Few<T> {
    Nothing,
    One(T),
    Two(T, T),
}
