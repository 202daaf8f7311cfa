//! Groups of commands on a desk: the cases of `specs/GroupCases.antt`.

ghost use Rattle.std.specs.Prelude.{◌≡◌, ◌≢◌, ◌+◌, ◌∷◌, [], true, false, length, Some, Err, option_map};
ghost use Rattle.desk_rows.specs.Desk.{blank};
ghost use Rattle.desk_edit.specs.Groups.{desk_after_all, group_refused};
ghost use Rattle.desk_edit.specs.Reasons.{refusal_of_group};
ghost use Rattle.worked_desk.specs.Cases.{Answers};
ghost use Rattle.worked_desk.specs.Rows.{room, sub};
ghost use Rattle.worked_desk.specs.TwoRooms.{two_rooms};
ghost use Rattle.worked_desk.specs.Edits.{takes, puts};
ghost use Rattle.worked_desk.specs.Commands.{add_room};
ghost use Rattle.worked_desk.specs.FullDesks.{of_rooms};
ghost use Rattle.worked_desk.specs.GroupCases.{handing_over, handed_over, absorbing_lists};
ghost use Rattle.worked_desk.specs.GroupCases.{grouping, grouping_at_once, grouping_at_63_rooms};

use desk_edit::{Command, GroupRefusal, Reason, Refusal, plan_group, size_refused};
use desk_rows::{Edit, Rows};
use reversible_rows::ReversibleRows;
use std::alloc::Global;
use undo_log::{Edits, History, Listed, Reversible, push_then_undo};

/// Carries a group out as one entry of a history, and tells whether it did.
pub fn carry_out_all(
    alloc: Global,
    history: &mut History<Listed<ReversibleRows>>,
    commands: &[Command],
) -> bool
    ensures state { result ≡ true → history.new.state ≡ desk_after_all history.old.state commands.now }
    ensures done { result ≡ true → length history.new.done ≡ length history.old.done + 1 }
    ensures refused { result ≡ false → history.new.state ≡ history.old.state }
{
    match plan_group(alloc, history.state().inner().rows(), commands) {
        Ok(edits) => history.push(Edits::new(edits)).is_ok(),
        Err(_) => false,
    }
}

/// A member goes and another comes in its stead: one call, one entry of the history.
pub fn hands_over(
    alloc: Global,
    history: &mut History<Listed<ReversibleRows>>,
    commands: &[Command],
) -> bool
    requires desk { history.old.state ≡ two_rooms }
    requires commands { commands.now ≡ handing_over }
    ensures desk { result ≡ true → history.new.state ≡ handed_over }
    ensures done { result ≡ true → length history.new.done ≡ length history.old.done + 1 }
{
    carry_out_all(alloc, history, commands)
}

/// One undo takes the whole group back, whatever its commands.
pub fn comes_back_as_one(
    alloc: Global,
    history: &mut History<Listed<ReversibleRows>>,
    commands: &[Command],
) -> bool
    requires desk { history.old.state ≡ two_rooms }
    ensures desk { history.new.state ≡ two_rooms }
    ensures done { history.new.done ≡ history.old.done }
{
    match plan_group(alloc, history.state().inner().rows(), commands) {
        Ok(edits) => push_then_undo(history, Edits::new(edits)).is_ok(),
        Err(_) => false,
    }
}

/// What stands against a group first. Memory may run out before it is found.
pub fn group_refusal(alloc: Global, rows: &Rows, commands: &[Command]) -> Option<Refusal>
    ensures { result ≢ Some Refusal.OutOfMemory
        → result ≡ option_map refusal_of_group (group_refused rows.now commands.now) }
{
    match plan_group(alloc, rows, commands) {
        Ok(_) => None,
        Err(why) => Some(why.refusal()),
    }
}

/// Each group is refused by its size or by its first part that is refused.
pub fn refuses_groups(alloc: Global, rows: &Rows, commands: &[Command]) -> Option<Refusal>
    ensures two_rooms { rows.now ≡ two_rooms → result ≢ Some Refusal.OutOfMemory
        → Answers grouping commands.now result }
    ensures empty { rows.now ≡ blank 1 → result ≢ Some Refusal.OutOfMemory
        → Answers grouping_at_once commands.now result }
    ensures rooms { rows.now ≡ of_rooms 63 → result ≢ Some Refusal.OutOfMemory
        → Answers grouping_at_63_rooms commands.now result }
{
    group_refusal(alloc, rows, commands)
}

/// What stands against the first command of a group is told, however little memory there is.
pub fn refuses_its_first_part(
    alloc: Global,
    rows: &Rows,
    commands: &[Command],
) -> Result<Vec<Edit>, GroupRefusal>
    requires desk { rows.now ≡ two_rooms }
    requires commands { commands.now ≡ add_room 1 ∷ add_room 3 ∷ [] }
    ensures { result ≡ Err (GroupRefusal.Part 0 Reason.Exists) }
{
    plan_group(alloc, rows, commands)
}

/// A group has 1 to 64 commands.
pub fn has_a_good_size(count: usize) -> bool
    ensures none { count ≡ 0 → result ≡ false }
    ensures one { count ≡ 1 → result ≡ true }
    ensures most { count ≡ 64 → result ≡ true }
    ensures more { count ≡ 65 → result ≡ false }
{
    size_refused(count).is_none()
}

/// A list of edits is absorbed as a whole or not at all.
pub fn absorbs_a_list(state: &mut Listed<ReversibleRows>, edits: &Edits<Edit>)
    requires { state.old ≡ two_rooms }
    ensures { Answers absorbing_lists edits.now state.new }
{
    state.absorb(edits)
}

/// Whether a list fits is asked without a trace.
pub fn asks_a_list(state: &mut Listed<ReversibleRows>, edits: &Edits<Edit>) -> bool
    requires { state.old ≡ two_rooms }
    ensures twice { edits.now ≡ puts [] (room 3 ∷ []) ∷ puts [] (room 3 ∷ []) ∷ [] → result ≡ false }
    ensures once { edits.now ≡ puts [] (room 3 ∷ []) ∷ [] → result ≡ true }
    ensures same { state.new ≡ two_rooms }
{
    state.fits(edits)
}

/// The inverse of a list is the list of inverses, the last one first.
pub fn turns_a_list(edits: Edits<Edit>) -> Edits<Edit>
    requires { edits ≡ puts [] (room 3 ∷ []) ∷ takes [] (sub 501 101 ∷ []) ∷ [] }
    ensures { result ≡ puts [] (sub 501 101 ∷ []) ∷ takes [] (room 3 ∷ []) ∷ [] }
{
    <Listed<ReversibleRows> as Reversible>::invert(edits)
}
