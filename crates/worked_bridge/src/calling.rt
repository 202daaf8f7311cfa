//! Calls of operators.

ghost use Rattle.std.specs.Prelude.{◌≡◌, [], ◌∷◌, length};
ghost use Rattle.worked_bridge.specs.Small.{small};

use bridge_core::Core;
use desk_calls::Reply;
use desk_edit::{Call, Command, Reason, Refusal};
use desk_rows::Room;
use std::alloc::Global;

/// An undo has to name the last accepted call.
pub fn undoes_the_last_call_alone(alloc: Global, core: &mut Core) -> Reply
    requires { core.old.version ≡ 2 }
    ensures answer { result ≡ Reply.Refused 2 (Refusal.NewerCommand 2) }
    ensures same { core.new ≡ core.old }
{
    core.desk(alloc, 0, Call::Undo { last: 1 })
}

/// An undo of a full log.
pub fn undoes_no_more(alloc: Global, core: &mut Core) -> Reply
    requires version { core.old.version ≡ 1048576 }
    requires done { length core.old.done ≡ 1 }
    ensures answer { result ≡ Reply.Refused 1048576 Refusal.LogFull }
    ensures same { core.new ≡ core.old }
{
    core.desk(alloc, 0, Call::Undo { last: 1_048_576 })
}

/// A full log is told where nothing else stands against a room.
#[tactic(auto, unfolding(desk_edit::specs::Refusals::refused))]
pub fn adds_no_room_to_a_full_log(alloc: Global, core: &mut Core) -> Reply
    requires version { core.old.version ≡ 1048576 }
    requires desk { core.old.desk ≡ small }
    ensures answer { result ≡ Reply.Refused 1048576 Refusal.LogFull }
    ensures same { core.new ≡ core.old }
{
    core.desk(
        alloc,
        0,
        Call::Apply(Command::AddRoom(Room {
            room: 2,
            rate: 8_000,
        })),
    )
}

/// A group of no command is told so before a full log.
pub fn carries_out_no_empty_group(alloc: Global, core: &mut Core, commands: Vec<Command>) -> Reply
    requires version { core.old.version ≡ 1048576 }
    requires commands { commands.items ≡ [] }
    ensures answer { result ≡ Reply.Refused 1048576 Refusal.EmptyGroup }
    ensures same { core.new ≡ core.old }
{
    core.desk(alloc, 0, Call::Group(commands))
}

/// What stands against a group's first command is told with its part: room 1 is there at version 6.
#[tactic(auto, unfolding(desk_edit::specs::Refusals::reason_against, desk_edit::specs::Commands::desk_after))]
pub fn carries_out_no_group_with_a_refused_part(
    alloc: Global,
    core: &mut Core,
    commands: Vec<Command>,
) -> Reply
    requires version { core.old.version ≡ 6 }
    requires desk { core.old.desk ≡ small }
    requires commands { commands.items
        ≡ Command.AddRoom (record { room = 1; rate = 8000 }) ∷ Command.AddRoom (record { room = 2; rate = 8000 }) ∷ [] }
    ensures answer { result ≡ Reply.Refused 6 (Refusal.PartRefused 0 Reason.Exists) }
    ensures same { core.new ≡ core.old }
{
    core.desk(alloc, 0, Call::Group(commands))
}

/// The last number before the log is full.
pub fn undoes_as_the_last_call(alloc: Global, core: &mut Core) -> Reply
    requires version { core.old.version ≡ 1048575 }
    requires done { length core.old.done ≡ 1 }
    ensures { result ≡ Reply.Accepted 1048576 }
{
    core.desk(alloc, 0, Call::Undo { last: 1_048_575 })
}

/// An undo that is accepted takes the next number.
pub fn undoes(alloc: Global, core: &mut Core) -> Reply
    requires version { core.old.version ≡ 6 }
    requires done { length core.old.done ≡ 6 }
    ensures answer { result ≡ Reply.Accepted 7 }
    ensures done { length core.new.done ≡ 5 }
{
    core.desk(alloc, 0, Call::Undo { last: 6 })
}

/// A redo to a full log.
pub fn redoes_no_more(alloc: Global, core: &mut Core) -> Reply
    requires version { core.old.version ≡ 1048576 }
    requires undone { length core.old.undone ≡ 1 }
    ensures answer { result ≡ Reply.Refused 1048576 Refusal.LogFull }
    ensures same { core.new ≡ core.old }
{
    core.desk(alloc, 0, Call::Redo { last: 1_048_576 })
}

/// A redo that is accepted takes the next number.
pub fn redoes(alloc: Global, core: &mut Core) -> Reply
    requires version { core.old.version ≡ 8 }
    requires done { length core.old.done ≡ 4 }
    requires undone { length core.old.undone ≡ 2 }
    ensures answer { result ≡ Reply.Accepted 9 }
    ensures done { length core.new.done ≡ 5 }
    ensures undone { length core.new.undone ≡ 1 }
{
    core.desk(alloc, 0, Call::Redo { last: 8 })
}

/// A revert of a call that nobody made.
pub fn reverts_nothing_of_a_new_bridge(alloc: Global, core: &mut Core) -> Reply
    requires version { core.old.version ≡ 0 }
    requires done { core.old.history.done ≡ [] }
    ensures answer { result ≡ Reply.Refused 0 Refusal.NotInForce }
    ensures same { core.new ≡ core.old }
{
    core.desk(alloc, 0, Call::Revert { number: 1 })
}
