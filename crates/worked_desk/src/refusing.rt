//! What stands against commands: the cases of `specs/RefusalCases.antt`.

ghost use Rattle.std.specs.Prelude.{◌≡◌};
ghost use Rattle.desk_edit.specs.Refusals.{refused};
ghost use Rattle.worked_desk.specs.Cases.{Answers};
ghost use Rattle.worked_desk.specs.TwoRooms.{two_rooms};
ghost use Rattle.worked_desk.specs.DeskCases.{other_source};
ghost use Rattle.worked_desk.specs.RefusalCases.{adding_rooms, adding_members, adding_sources, adding_slots};
ghost use Rattle.worked_desk.specs.RefusalCases.{removing_slots, subscribing, subscribing_anew};

use desk_edit::{Command, Refusal, plan};
use desk_rows::Rows;
use std::alloc::Global;

/// The first refusal of a command, out of memory apart. A contract leaves no choice here: out of memory is told only
/// where no other refusal holds.
pub fn refusal(alloc: Global, rows: &Rows, command: &Command) -> Option<Refusal>
    ensures { result ≡ refused rows.now command.now }
{
    match plan(alloc, rows, command) {
        Ok(_) | Err(Refusal::OutOfMemory) => None,
        Err(why) => Some(why),
    }
}

/// Each command is refused by the first case that holds, and accepted at its edges.
pub fn refuses(alloc: Global, rows: &Rows, command: &Command) -> Option<Refusal>
    requires { rows.now ≡ two_rooms }
    ensures adding_rooms { Answers adding_rooms command.now result }
    ensures adding_members { Answers adding_members command.now result }
    ensures adding_sources { Answers adding_sources command.now result }
    ensures adding_slots { Answers adding_slots command.now result }
    ensures removing_slots { Answers removing_slots command.now result }
    ensures subscribing { Answers subscribing command.now result }
{
    refusal(alloc, rows, command)
}

/// A slot that has a source is given another one in its stead.
pub fn refuses_anew(alloc: Global, rows: &Rows, command: &Command) -> Option<Refusal>
    requires { rows.now ≡ other_source }
    ensures { Answers subscribing_anew command.now result }
{
    refusal(alloc, rows, command)
}
