//! The groups that make the rows of the desk again.

ghost use Rattle.std.specs.Prelude.{◌≡◌, ◌++◌, ℕ, List, IfOk, OnOk, OnErr};
ghost use Rattle.desk_groups.specs.Making.{MakeAgain, lists_of};
ghost use Rattle.operator_threads.specs.Told.{TellsMaking, TellsGroups};

use crate::at_desk::AtDesk;
use crate::wake::Wake;
use desk_edit::Command;
use desk_groups::groups_of;
use desk_rows::Rows;
use desk_text::print_groups;
use operator_desk::DeskBrand;
use std::alloc::{AllocError, Global};
use std::sync::{MutexGuard, Wait};

/// The groups that make these rows again.
fn made(alloc: Global, rows: &Rows) -> Result<Vec<Vec<Command>>, AllocError>
    ensures { IfOk result (λ groups. MakeAgain rows.now (lists_of groups.items)) }
{
    groups_of(alloc, rows)
}

/// Appends the groups that make these rows again, a line for each, and the version. An `Err` appends nothing.
fn print_made(alloc: Global, rows: &Rows, version: u64, out: &mut Vec<u8>) -> Result<(), AllocError>
    ensures ok { OnOk result ((text : List ℕ) × (out.new.items ≡ out.old.items ++ text)
        × TellsMaking rows.now version text) }
    ensures err { OnErr result (out.new.items ≡ out.old.items) }
{
    let groups = made(alloc, rows)?;
    print_groups(&groups, version, out)
}

impl<'b, 'a, H: DeskBrand, R: Wait, F: Wake> AtDesk<'b, 'a, H, R, F> {
    /// Appends the groups that make a copy of the rows again, a line for each, and the version. An `Err` appends
    /// nothing.
    fn print_making(&self, alloc: Global, asked: u64, out: &mut Vec<u8>) -> Result<(), AllocError>
        ensures ok { OnOk result ((text : List ℕ) × (out.new.items ≡ out.old.items ++ text)
            × TellsGroups H.start asked text) }
        ensures err { OnErr result (out.new.items ≡ out.old.items) }
    {
        let (version, rows) = self.operators.desk.rows(self.rt, alloc)?;
        // No clause of the desk says that it is published.
        if version < asked {
            return Err(self.give_up());
        }
        print_made(alloc, &rows, version, out)
    }

    /// Appends the groups in the operator's turn. An `Err` appends nothing.
    // They are made of a copy of the rows, so one operator at a time has one.
    pub(crate) fn show_groups(
        &self,
        alloc: Global,
        asked: u64,
        out: &mut Vec<u8>,
    ) -> Result<(), AllocError>
        ensures ok { OnOk result ((text : List ℕ) × (out.new.items ≡ out.old.items ++ text)
            × TellsGroups H.start asked text) }
        ensures err { OnErr result (out.new.items ≡ out.old.items) }
    {
        let printed = self.operators.printed.lock(self.rt);
        let answer = self.print_making(alloc, asked, out);
        MutexGuard::unlock(printed);
        answer
    }
}
