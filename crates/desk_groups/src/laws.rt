//! A law of groups: a function that does nothing when it runs.

ghost use Rattle.std.specs.Prelude.{◌≡◌, ◌+◌, ◌≤◌, List, length, map};
ghost use Rattle.desk_edit.specs.declared.command.Command.{Command};
ghost use Rattle.desk_edit.specs.Asked.{CallOf};
ghost use Rattle.desk_edit.specs.Calls.{CallHistory, desk_now, call_limit};
ghost use Rattle.desk_calls.specs.Accepted.{after_calls, AreAccepted};
ghost use Rattle.desk_groups.specs.Making.{AcceptsGroups, desk_after_groups};

/// A law: groups that a desk accepts are a legal list of calls behind any history that leads to it, as long as the log
/// isn't full. They lead to the desk after the groups.
pub fn groups_are_legal_calls()
    ensures legal { (h : CallHistory) (groups : List (List Command)) → AcceptsGroups (desk_now h) groups
        → h.accepted + length groups ≤ call_limit → AreAccepted h (map CallOf.Group groups) }
    ensures leads { (h : CallHistory) (groups : List (List Command))
        → desk_now (after_calls h (map CallOf.Group groups)) ≡ desk_after_groups (desk_now h) groups }
{}
