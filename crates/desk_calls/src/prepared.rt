//! A call that was judged.

use crate::entry::DeskEntry;
use desk_rows::Edit;
use std::alloc::{Allocator, Global};
use undo_log::Edits;

/// What an accepted call will do. All memory that it takes is there.
#[derive(Drop)]
pub enum Prepared<A: Allocator + Copy = Global> {
    /// Absorbs the edits of a command, a group or a revert, and keeps what stands for the call.
    Apply(Edits<Edit<A>, A>, DeskEntry<A>),
    /// Takes the last entry's edits back.
    Undo,
    /// Absorbs the edits that were undone last.
    Redo,
}
