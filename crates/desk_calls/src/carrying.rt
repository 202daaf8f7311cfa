//! Carries out again what later calls did.

ghost use Rattle.std.specs.Prelude.{◌≡◌, ◌≢◌, ◌∷◌, [], None, Some, IfErr, OnOk, fold, reverse, if◌then◌else◌};
ghost use Rattle.desk_edit.specs.InForce.{from_newest, desk_with};
ghost use Rattle.desk_edit.specs.Reverts.{conflict, in_call};

use crate::entry::DeskEntry;
use crate::striking::pass;
use desk_edit::{GroupRefusal, Refusal};
use desk_revert::carry_out_again;
use desk_rows::Rows;
use std::alloc::Allocator;

/// Carries out again what of these entries is in force, where these numbers are struck from above. The first command
/// that stands in the way is told.
// It goes down one frame for each entry that a revert goes past: at most 257.
pub(crate) fn carry_out_in_force<A: Allocator + Copy>(
    alloc: A,
    rows: &mut Rows<A>,
    entries: &[DeskEntry<A>],
    struck: &mut Vec<u64, A>,
) -> Result<(), Refusal>
    ensures done { OnOk result (
        rows.new ≡ fold desk_with rows.old (reverse (from_newest struck.old.items (reverse entries.now)))) }
    ensures free { OnOk result (
        conflict rows.old (reverse (from_newest struck.old.items (reverse entries.now))) ≡ None) }
    ensures first { IfErr result (λ why. why ≢ Refusal.OutOfMemory
        → conflict rows.old (reverse (from_newest struck.old.items (reverse entries.now))) ≡ Some why) }
{
    let Some((entry, earlier)) = entries.split_last() else {
        return Ok(());
    };
    let Ok(is_out) = pass(struck, entry) else {
        return Err(Refusal::OutOfMemory);
    };
    match carry_out_in_force(alloc, rows, earlier, struck) {
        Ok(()) => carry_out_unless(alloc, rows, entry, is_out),
        Err(why) => Err(why),
    }
}

/// Carries an entry out again, or tells its first command that stands in the way. One that is struck is passed over.
fn carry_out_unless<A: Allocator + Copy>(
    alloc: A,
    rows: &mut Rows<A>,
    entry: &DeskEntry<A>,
    is_out: bool,
) -> Result<(), Refusal>
    ensures done { OnOk result (rows.new ≡ if is_out then rows.old else desk_with rows.old entry.now) }
    ensures free { OnOk result ((if is_out then None else conflict rows.old (entry.now ∷ [])) ≡ None) }
    ensures first { IfErr result (λ why. why ≢ Refusal.OutOfMemory
        → (if is_out then None else conflict rows.old (entry.now ∷ [])) ≡ Some why) }
{
    if is_out {
        return Ok(());
    }
    carry_out_entry(alloc, rows, entry)
}

/// Carries an entry out again, or tells its first command that stands in the way.
fn carry_out_entry<A: Allocator + Copy>(
    alloc: A,
    rows: &mut Rows<A>,
    entry: &DeskEntry<A>,
) -> Result<(), Refusal>
    ensures done { OnOk result (rows.new ≡ desk_with rows.old entry.now) }
    ensures free { OnOk result (conflict rows.old (entry.now ∷ []) ≡ None) }
    ensures first { IfErr result (λ why. why ≢ Refusal.OutOfMemory → conflict rows.old (entry.now ∷ []) ≡ Some why) }
{
    match carry_out_again(alloc, rows, entry.commands()) {
        Ok(()) => Ok(()),
        Err(why) => Err(in_call(entry.number(), why)),
    }
}

/// What stands in the way within a call of this number.
fn in_call(call: u64, why: GroupRefusal) -> Refusal
    ensures { result ≡ in_call call why }
{
    match why {
        GroupRefusal::Part { part, why } => Refusal::Conflict { call, part, why },
        GroupRefusal::Empty | GroupRefusal::TooLong | GroupRefusal::OutOfMemory => {
            Refusal::OutOfMemory
        }
    }
}
