//! Commands that are taken back and done again, by the laws of calls in a row.

ghost use Rattle.std.specs.Prelude.{◌≡◌, ◌+◌, ◌≤◌, true, fold, length, reverse, IfSome};
ghost use Rattle.undo_log.specs.Timeline.{rewound};
ghost use Rattle.desk_calls.specs.Edits.{after, inverse};
ghost use Rattle.desk_edit.specs.Calls.{call_limit, CallHistory};
ghost use Rattle.bridge_core.specs.Following.{HasCalled};

use bridge_core::{
    Core, commands_come_back, edits_lead_back, undos_and_redos_are_accepted, undos_are_redone,
};
use desk_calls::Reply;
use desk_edit::{Call, Command};
use std::alloc::Global;

/// How an undo behind an accepted command is answered. Where the log isn't full it is accepted, and the desk is the one
/// before.
pub fn a_command_comes_back(alloc: Global, core: &mut Core, command: Command) -> Option<Reply>
    ensures { IfSome result (λ reply. core.old.version + 2 ≤ call_limit
        → (reply ≡ Reply.Accepted (core.old.version + 2))
        × (core.new.desk ≡ core.old.desk) × (core.new.done ≡ core.old.done)) }
{
    commands_come_back();
    match core.desk(alloc, 0, Call::Apply(command)) {
        Reply::Accepted { no } => Some(core.desk(alloc, 0, Call::Undo { last: no })),
        Reply::Refused { at: _, why: _ } => None,
    }
}

/// How an undo behind an accepted group is answered. Where the log isn't full it is accepted, and the desk is the one
/// before the group.
pub fn the_group_comes_back(alloc: Global, core: &mut Core, commands: Vec<Command>) -> Option<Reply>
    ensures { IfSome result (λ reply. core.old.version + 2 ≤ call_limit
        → (reply ≡ Reply.Accepted (core.old.version + 2))
        × (core.new.desk ≡ core.old.desk) × (core.new.done ≡ core.old.done)) }
{
    commands_come_back();
    match core.desk(alloc, 0, Call::Group(commands)) {
        Reply::Accepted { no } => Some(core.desk(alloc, 0, Call::Undo { last: no })),
        Reply::Refused { at: _, why: _ } => None,
    }
}

/// How an undo behind an accepted revert is answered. Where the log isn't full it is accepted, and the desk is the one
/// before the revert.
pub fn the_revert_comes_back(alloc: Global, core: &mut Core, number: u64) -> Option<Reply>
    ensures { IfSome result (λ reply. core.old.version + 2 ≤ call_limit
        → (reply ≡ Reply.Accepted (core.old.version + 2))
        × (core.new.desk ≡ core.old.desk) × (core.new.done ≡ core.old.done)) }
{
    commands_come_back();
    match core.desk(alloc, 0, Call::Revert { number }) {
        Reply::Accepted { no } => Some(core.desk(alloc, 0, Call::Undo { last: no })),
        Reply::Refused { at: _, why: _ } => None,
    }
}

/// An undo that names the last call, where something is done and the log isn't full.
pub fn an_undo_is_accepted(alloc: Global, core: &mut Core) -> Reply
    ensures { 1 ≤ length core.old.done → core.old.version + 1 ≤ call_limit
        → result ≡ Reply.Accepted (core.old.version + 1) }
{
    undos_and_redos_are_accepted();
    let last = core.version();
    core.desk(alloc, 0, Call::Undo { last })
}

/// A redo behind it: all is as it was.
pub fn an_undo_is_redone(alloc: Global, core: &mut Core) -> Reply
    ensures { 1 ≤ length core.old.done → core.old.version + 2 ≤ call_limit
        → (result ≡ Reply.Accepted (core.old.version + 2))
        × (core.new.desk ≡ core.old.desk) × (core.new.done ≡ core.old.done) × (core.new.undone ≡ core.old.undone) }
{
    undos_and_redos_are_accepted();
    undos_are_redone();
    let last = core.version();
    core.desk(alloc, 0, Call::Undo { last });
    let last = core.version();
    core.desk(alloc, 0, Call::Redo { last })
}

/// Whatever is called, the edits that are kept lead from the first desk to the one at hand, and back.
pub fn edits_lead_there_and_back(alloc: Global, core: &mut Core, call: Call) -> bool
    ensures leads { result ≡ true → (h : CallHistory) → HasCalled core.old h
        → fold after h.start core.new.done ≡ core.new.desk }
    ensures back { result ≡ true → (h : CallHistory) → HasCalled core.old h
        → rewound after inverse core.new.desk (reverse core.new.done) ≡ h.start }
{
    edits_lead_back();
    match core.desk(alloc, 0, call) {
        Reply::Accepted { no: _ } => true,
        Reply::Refused { at: _, why: _ } => false,
    }
}
