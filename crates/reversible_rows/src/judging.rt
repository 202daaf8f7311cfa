//! Whether an edit leads to a good desk, without making that desk.
//!
//! An overlay answers for the desk that the edit leads to. Rows that come are judged whole, rows that stay only where
//! the edit touches what they name.

pub(crate) mod changes;
pub(crate) mod counting;
pub(crate) mod exchange;
pub(crate) mod lists;
pub(crate) mod overlay;
pub(crate) mod places;
pub(crate) mod staying;
