//! Laws of the lists. Each is a function that does nothing, and whose contract is the law.

ghost use Rattle.std.specs.Prelude.{◌≡◌, List, [], length, map, reverse};
ghost use Rattle.desk_rows.specs.Desk.{Desk};
ghost use Rattle.desk_edit.specs.InForce.{in_force as entries_in_force};
ghost use Rattle.desk_edit.specs.Calls.{no_calls};
ghost use Rattle.desk_calls.specs.Accepted.{after_calls};
ghost use Rattle.desk_calls.specs.Desk.{DeskOf};
ghost use Rattle.desk_calls.specs.Following.{HasCalled, Follows};
ghost use Rattle.call_history.specs.AcceptedCall.{AcceptedOf, AreNumbered, calls_of};
ghost use Rattle.call_history.specs.Lists.{lists_of, entry_of, in_force};

/// The lists are those of the desk. The calls stand for the entries that are done and undone in the history of all
/// calls, and those that are in force for the entries in force. A desk that carried these calls out keeps edits for
/// each entry: those of the entries that are done lead to its rows one after another, and those that can be redone lead
/// on from there, the one undone last first.
pub fn lists_are_the_desks()
    ensures done { (start : Desk) (made : List AcceptedOf) → AreNumbered 1 made
        → map entry_of (lists_of made).done ≡ (after_calls (no_calls start) (calls_of made)).done }
    ensures undone { (start : Desk) (made : List AcceptedOf) → AreNumbered 1 made
        → map entry_of (lists_of made).undone ≡ (after_calls (no_calls start) (calls_of made)).undone }
    ensures force { (start : Desk) (made : List AcceptedOf) → AreNumbered 1 made
        → map entry_of (in_force (lists_of made).done)
        ≡ entries_in_force (after_calls (no_calls start) (calls_of made)).done }
    ensures edits { (start : Desk) (made : List AcceptedOf) (d : DeskOf) → AreNumbered 1 made
        → HasCalled d (after_calls (no_calls start) (calls_of made))
        → Follows start [] (map entry_of (lists_of made).done) d.done
        × Follows start (map entry_of (lists_of made).done) (reverse (map entry_of (lists_of made).undone))
        (reverse d.undone) }
    ensures many { (start : Desk) (made : List AcceptedOf) (d : DeskOf) → AreNumbered 1 made
        → HasCalled d (after_calls (no_calls start) (calls_of made))
        → (length (lists_of made).done ≡ length d.done) × (length (lists_of made).undone ≡ length d.undone) }
{}
