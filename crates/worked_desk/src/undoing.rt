//! Edits that are done, taken back and done again: a history of desks.

ghost use Rattle.std.specs.Prelude.{◌≡◌, ◌≢◌, [], ◌∷◌, ◌<◌, true, length, Ok, Err, OnOk, IfOk, IsOk};
ghost use Rattle.desk_rows.specs.Exchange.{fits};
ghost use Rattle.worked_desk.specs.Rows.{room, slot, sub};
ghost use Rattle.worked_desk.specs.TwoRooms.{two_rooms};
ghost use Rattle.worked_desk.specs.DeskCases.{three_rooms};
ghost use Rattle.worked_desk.specs.Edits.{takes, puts, replaces};

use desk_rows::Edit;
use reversible_rows::ReversibleRows;
use std::alloc::Global;
use undo_log::{
    History, HistoryFault, push_then_undo, redo_all, undo_all, undo_all_then_redo_all,
    undo_then_redo,
};

/// A history begins with nothing done and nothing undone.
pub fn new(alloc: Global, rows: ReversibleRows) -> History<ReversibleRows>
    requires { rows ≡ two_rooms }
    ensures start { result.start ≡ two_rooms }
    ensures state { result.state ≡ two_rooms }
    ensures done { result.done ≡ [] }
    ensures undone { result.undone ≡ [] }
{
    History::new(alloc, rows)
}

pub fn state(history: &History<ReversibleRows>) -> &ReversibleRows
    requires { history.now.state ≡ two_rooms }
    ensures { result.now ≡ two_rooms }
{
    history.state()
}

pub fn done_len(history: &History<ReversibleRows>) -> usize
    ensures none { history.now.done ≡ [] → result ≡ 0 }
    ensures two { history.now.done ≡ puts [] (room 3 ∷ []) ∷ puts [] (room 4 ∷ []) ∷ [] → result ≡ 2 }
    ensures all { length history.now.done ≡ 1048576 → result ≡ 1048576 }
{
    history.done_len()
}

pub fn undone_len(history: &History<ReversibleRows>) -> usize
    requires { history.now.done ≡ [] }
    ensures none { history.now.undone ≡ [] → result ≡ 0 }
    ensures one { history.now.undone ≡ puts [] (room 3 ∷ []) ∷ [] → result ≡ 1 }
{
    history.undone_len()
}

/// Makes capacity for one more edit, as long as fewer than 1,048,576 are done.
pub fn reserve(history: &mut History<ReversibleRows>) -> Result<(), HistoryFault>
    ensures capacity { OnOk result (0 < history.new.spare) }
    ensures same { history.new.done ≡ history.old.done }
    ensures full { length history.old.done ≡ 1048576 → result ≡ Err HistoryFault.LogFull }
    ensures last { length history.old.done ≡ 1048575 → result ≢ Err HistoryFault.LogFull }
    ensures again { history.old.done ≡ [] → history.old.spare ≡ 1 → IsOk result }
{
    history.reserve()
}

/// An edit is done over those before it, and those that were undone are forgotten.
pub fn push(history: &mut History<ReversibleRows>, edit: Edit) -> Result<(), HistoryFault>
    requires state { history.old.state ≡ two_rooms }
    requires done { history.old.done ≡ takes [] (sub 502 103 ∷ []) ∷ [] }
    requires undone { history.old.undone ≡ puts [] (room 4 ∷ []) ∷ [] }
    requires edit { edit ≡ puts [] (room 3 ∷ []) }
    ensures state { OnOk result (history.new.state ≡ three_rooms) }
    ensures done { OnOk result (history.new.done ≡ takes [] (sub 502 103 ∷ []) ∷ puts [] (room 3 ∷ []) ∷ []) }
    ensures undone { OnOk result (history.new.undone ≡ []) }
    ensures reserved { history.old.spare ≡ 1 → IsOk result }
{
    history.push(edit)
}

/// The edit of number 1,048,576 is the last that can be done.
pub fn push_to_a_full_log(
    history: &mut History<ReversibleRows>,
    edit: Edit,
) -> Result<(), HistoryFault>
    requires { fits history.old.state edit ≡ true }
    ensures full { length history.old.done ≡ 1048576 → result ≡ Err HistoryFault.LogFull }
    ensures last { length history.old.done ≡ 1048575 → result ≢ Err HistoryFault.LogFull }
{
    history.push(edit)
}

pub fn undo_of_nothing(history: &mut History<ReversibleRows>) -> Result<(), HistoryFault>
    requires { history.old.done ≡ [] }
    ensures answer { result ≡ Err HistoryFault.NothingToUndo }
    ensures same { history.new ≡ history.old }
{
    history.undo()
}

/// The last edit is taken back, and it is the next to be done again.
pub fn undo(history: &mut History<ReversibleRows>) -> Result<(), HistoryFault>
    requires done { history.old.done ≡ puts [] (sub 501 101 ∷ []) ∷ [] }
    requires undone { history.old.undone ≡ puts [] (room 3 ∷ []) ∷ [] }
    ensures accepted { IsOk result }
    ensures done { history.new.done ≡ [] }
    ensures undone { history.new.undone ≡ puts [] (room 3 ∷ []) ∷ puts [] (sub 501 101 ∷ []) ∷ [] }
{
    history.undo()
}

pub fn undo_edit_of_nothing(
    alloc: Global,
    history: &History<ReversibleRows>,
) -> Result<Edit, HistoryFault>
    requires { history.now.done ≡ [] }
    ensures { result ≡ Err HistoryFault.NothingToUndo }
{
    history.undo_edit(alloc)
}

/// What an undo would absorb: the last edit turned round.
pub fn undo_edit(alloc: Global, history: &History<ReversibleRows>) -> Result<Edit, HistoryFault>
    requires { history.now.done ≡ puts [] (room 3 ∷ []) ∷ replaces (slot 502 12 0 ∷ []) (slot 502 12 3 ∷ []) ∷ [] }
    ensures back { IfOk result (λ edit. edit ≡ replaces (slot 502 12 3 ∷ []) (slot 502 12 0 ∷ [])) }
    ensures some { result ≢ Err HistoryFault.NothingToUndo }
{
    history.undo_edit(alloc)
}

pub fn redo_of_nothing(history: &mut History<ReversibleRows>) -> Result<(), HistoryFault>
    requires { history.old.undone ≡ [] }
    ensures answer { result ≡ Err HistoryFault.NothingToRedo }
    ensures same { history.new ≡ history.old }
{
    history.redo()
}

/// The edit that was undone last is done again, and no other one.
pub fn redo(history: &mut History<ReversibleRows>) -> Result<(), HistoryFault>
    requires state { history.old.state ≡ two_rooms }
    requires done { history.old.done ≡ takes [] (sub 502 103 ∷ []) ∷ [] }
    requires undone { history.old.undone ≡ puts [] (room 4 ∷ []) ∷ puts [] (room 3 ∷ []) ∷ [] }
    ensures accepted { IsOk result }
    ensures state { OnOk result (history.new.state ≡ three_rooms) }
    ensures done { OnOk result (history.new.done ≡ takes [] (sub 502 103 ∷ []) ∷ puts [] (room 3 ∷ []) ∷ []) }
    ensures undone { OnOk result (history.new.undone ≡ puts [] (room 4 ∷ []) ∷ []) }
{
    history.redo()
}

pub fn redo_edit_of_nothing(
    alloc: Global,
    history: &History<ReversibleRows>,
) -> Result<Edit, HistoryFault>
    requires { history.now.undone ≡ [] }
    ensures { result ≡ Err HistoryFault.NothingToRedo }
{
    history.redo_edit(alloc)
}

/// What a redo would absorb: the edit that was undone last, as it is.
pub fn redo_edit(alloc: Global, history: &History<ReversibleRows>) -> Result<Edit, HistoryFault>
    requires { history.now.undone ≡ puts [] (room 3 ∷ []) ∷ replaces (slot 502 12 0 ∷ []) (slot 502 12 3 ∷ []) ∷ [] }
    ensures again { IfOk result (λ edit. edit ≡ replaces (slot 502 12 0 ∷ []) (slot 502 12 3 ∷ [])) }
    ensures some { result ≢ Err HistoryFault.NothingToRedo }
{
    history.redo_edit(alloc)
}

/// A desk is as it was once its edit is taken back, whatever the edit.
pub fn comes_back(history: &mut History<ReversibleRows>, edit: Edit) -> Result<(), HistoryFault>
    requires desk { history.old.state ≡ two_rooms }
    requires fits { fits two_rooms edit ≡ true }
    ensures desk { history.new.state ≡ two_rooms }
    ensures undone { OnOk result (history.new.undone ≡ edit ∷ []) }
{
    push_then_undo(history, edit)
}

/// All that was done on a desk is taken back, the last edit first.
pub fn all_comes_back(history: &mut History<ReversibleRows>)
    requires start { history.old.start ≡ two_rooms }
    requires done { history.old.done ≡ puts [] (room 3 ∷ []) ∷ puts [] (room 4 ∷ []) ∷ [] }
    requires undone { history.old.undone ≡ [] }
    ensures desk { history.new.state ≡ two_rooms }
    ensures done { history.new.done ≡ [] }
    ensures undone { history.new.undone ≡ puts [] (room 4 ∷ []) ∷ puts [] (room 3 ∷ []) ∷ [] }
{
    undo_all(history)
}

/// A history is as it was once its last edit is taken back and done again.
pub fn comes_again(history: &mut History<ReversibleRows>) -> Result<(), HistoryFault>
    requires { history.old.done ≡ puts [] (room 3 ∷ []) ∷ [] }
    ensures accepted { IsOk result }
    ensures same { history.new ≡ history.old }
{
    undo_then_redo(history)
}

/// All that was undone is done again, what was undone last first.
pub fn all_is_done_again(history: &mut History<ReversibleRows>)
    requires done { history.old.done ≡ puts [] (room 3 ∷ []) ∷ [] }
    requires undone { history.old.undone ≡ puts [] (room 5 ∷ []) ∷ puts [] (room 4 ∷ []) ∷ [] }
    ensures done { history.new.done ≡ puts [] (room 3 ∷ []) ∷ puts [] (room 4 ∷ []) ∷ puts [] (room 5 ∷ []) ∷ [] }
    ensures undone { history.new.undone ≡ [] }
{
    redo_all(history)
}

/// A desk is as it was once all is taken back and done again.
pub fn all_comes_again(history: &mut History<ReversibleRows>)
    requires desk { history.old.state ≡ three_rooms }
    requires undone { history.old.undone ≡ [] }
    ensures desk { history.new.state ≡ three_rooms }
    ensures undone { history.new.undone ≡ [] }
{
    undo_all_then_redo_all(history)
}
