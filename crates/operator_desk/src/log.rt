//! The log: cells that are written once.

ghost use Rattle.std.specs.Prelude.{◌≡◌, ◌<◌, length, Some, IfOk, IfErr, IfSome, slice_get};
ghost use Rattle.desk_edit.specs.Calls.{call_limit};

use crate::entry::LogEntry;
use std::alloc::{AllocError, Global};
use std::marker::Model;
use std::sync::{OnceLock, OnceToken, Wait};
use undo_log::LIMIT;

/// A cell for each call that can be accepted, 1,048,576 in all. Each is written once and never again.
///
/// Contracts see which cells they are.
#[derive(Drop)]
pub struct Log {
    cells: Vec<OnceLock<LogEntry>>,
}

impl Model for Log {
    ghost use Rattle.std.specs.Prelude.{◌≡◌, ℕ, List, length};
    ghost use Rattle.desk_edit.specs.Calls.{call_limit};
    ghost use Rattle.operator_desk.specs.inner.Tokens.{names};

    ghost Value = { List ℕ };

    ghost view = { λ l. names l.cells.items };

    ghost invariant = { λ l. length l.cells.items ≡ call_limit };
}

impl Log {
    /// A log in which nothing is written.
    pub fn new(alloc: Global) -> Result<Log, AllocError>
        ensures { IfOk result (λ log. length log ≡ call_limit) }
    {
        let mut cells = Vec::with_capacity(alloc, LIMIT)?;
        for _ in 0..LIMIT {
            cells.push_reserved(OnceLock::new());
        }
        Ok(Log { cells })
    }

    /// How many cells there are.
    pub(crate) fn len(&self) -> usize
        ensures length { result ≡ length self.now }
        ensures limit { result ≡ call_limit }
    {
        self.cells.len()
    }

    /// Writes a cell. On an `Err` it was written already, as the token shows.
    pub(crate) fn write<R: Wait>(
        &self,
        rt: &R,
        at: usize,
        entry: LogEntry,
    ) -> Result<OnceToken<'_, LogEntry>, OnceToken<'_, LogEntry>>
        requires { at < length self.now }
        ensures ok { IfOk result (λ t. (slice_get self.now at ≡ Some t.of) × (t.value ≡ entry)) }
        ensures err { IfErr result (λ t. slice_get self.now at ≡ Some t.of) }
    {
        match self.cells[at].try_insert(rt, entry) {
            Ok(token) => Ok(token),
            Err((token, _)) => Err(token),
        }
    }

    /// Shows that a cell is written, if it is.
    pub(crate) fn witness(&self, at: usize) -> Option<OnceToken<'_, LogEntry>>
        requires { at < length self.now }
        ensures { IfSome result (λ t. slice_get self.now at ≡ Some t.of) }
    {
        self.cells[at].witness()
    }

    /// The entry of a cell that is shown to be written.
    pub(crate) fn read<'a>(&'a self, at: usize, token: &OnceToken<'a, LogEntry>) -> &'a LogEntry
        requires { slice_get self.now at ≡ Some token.now.of }
        ensures { result.now ≡ token.now.value }
    {
        self.cells[at].value(token)
    }
}
