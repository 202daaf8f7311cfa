//! Copies of what lies under the lock of a shared desk.

ghost use Rattle.std.specs.Prelude.{◌≡◌, true, IfOk};
ghost use Rattle.desk_rows.specs.Desk.{good};
ghost use Rattle.operator_desk.specs.Answers.{IsCopy};
ghost use Rattle.operator_desk.specs.LegalLogs.{IsLegal};
ghost use Rattle.operator_desk.specs.PastCalls.{IsPast};

use crate::desk_brand::DeskBrand;
use crate::desk_inner::DeskInner;
use crate::entry::LogEntry;
use crate::past::Past;
use crate::tokens::copied;
use desk_rows::Rows;
use std::alloc::{AllocError, Global};

impl<'a, H: DeskBrand> DeskInner<'a, H> {
    /// The version, and a copy of its rows.
    pub fn rows(&self, alloc: Global) -> Result<(u64, Rows), AllocError>
        ensures copy { IfOk result (λ r. IsCopy H.start r.0 r.1) }
        ensures good { IfOk result (λ r. good r.1 ≡ true) }
    {
        let rows = self.desk.rows().copy(alloc)?;
        Ok((self.desk.version(), rows))
    }

    /// A copy of the log.
    pub fn copied(&self, alloc: Global) -> Result<Vec<LogEntry>, AllocError>
        ensures copy { IfOk result (λ log. log.items ≡ self.now.log) }
        ensures legal { IsLegal H.start self.now.log }
    {
        copied(alloc, self.log, &self.entries)
    }

    /// The last calls of the log that are in force, and the last that can be redone: at most so many of each.
    pub fn past(&self, alloc: Global, most: usize) -> Result<Past<'a, H>, AllocError>
        ensures log { IfOk result (λ past. past.log ≡ self.now.log) }
        ensures past { IfOk result (λ past. IsPast H.start most past) }
    {
        let done = self.lists.in_force(alloc, most)?;
        let undone = self.lists.undone(most);
        Past::new(alloc, self.log, &self.entries, &done, undone)
    }
}
