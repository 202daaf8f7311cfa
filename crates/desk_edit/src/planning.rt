//! Plans a command: judges it, and makes its edit.

ghost use Rattle.std.specs.Prelude.{◌≡◌, ◌≢◌, true, None, Some, IfOk, IfErr, OnOk};
ghost use Rattle.desk_rows.specs.Exchange.{fits, after};
ghost use Rattle.desk_edit.specs.Commands.{desk_after};
ghost use Rattle.desk_edit.specs.Refusals.{refused};

use crate::command::Command;
use crate::editing::edit_for;
use crate::refusal::Refusal;
use crate::refusing::reason_against;
use desk_rows::{Edit, Rows};
use std::alloc::Allocator;

/// Plans a command: the edit that carries it out, or its first refusal. Nothing changes.
///
/// Out of memory is reported only if no other refusal holds.
#[tactic(auto, using(crate::proofs::Outcomes::refused_for))]
pub fn plan<A: Allocator + Copy>(
    alloc: A,
    rows: &Rows<A>,
    command: &Command,
) -> Result<Edit<A>, Refusal>
    ensures fits { IfOk result (λ edit. fits rows.now edit ≡ true) }
    ensures carries_out { IfOk result (λ edit. after rows.now edit ≡ desk_after rows.now command.now) }
    ensures accepted { OnOk result (refused rows.now command.now ≡ None) }
    ensures first { IfErr result (λ why. why ≢ Refusal.OutOfMemory → refused rows.now command.now ≡ Some why) }
    ensures memory { result ≡ Err Refusal.OutOfMemory → refused rows.now command.now ≡ None }
{
    if let Some(why) = reason_against(rows, command) {
        return Err(why.refusal());
    }
    match edit_for(alloc, rows, &command.form()) {
        Ok(edit) => Ok(edit),
        Err(_) => Err(Refusal::OutOfMemory),
    }
}
