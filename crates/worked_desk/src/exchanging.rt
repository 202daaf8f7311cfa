//! What edits make of a desk: the cases of `specs/DeskCases.antt`.

ghost use Rattle.std.specs.Prelude.{◌≡◌, [], ◌∷◌, IfOk};
ghost use Rattle.worked_desk.specs.Cases.{Answers};
ghost use Rattle.worked_desk.specs.Rows.{member, room, video, slot, sub};
ghost use Rattle.worked_desk.specs.TwoRooms.{two_rooms, twelve};
ghost use Rattle.worked_desk.specs.Edits.{at, six_lists};
ghost use Rattle.worked_desk.specs.DeskCases.{changing_nothing, exchanging_members, exchanging_others};

use desk_rows::{Edit, Part, Placed, Replaced, Row};
use reversible_rows::ReversibleRows;
use std::alloc::{AllocError, Global};
use undo_log::Reversible;

pub fn absorb(rows: &mut ReversibleRows, edit: &Edit)
    requires { rows.old ≡ two_rooms }
    ensures changing_nothing { Answers changing_nothing edit.now rows.new }
    ensures exchanging_members { Answers exchanging_members edit.now rows.new }
    ensures exchanging_others { Answers exchanging_others edit.now rows.new }
{
    rows.absorb(edit)
}

/// What is taken comes back to its place, what is put goes, and what is replaced comes back.
pub fn there_and_back(rows: &mut ReversibleRows, edit: Edit)
    requires rows { rows.old ≡ two_rooms }
    requires edit { edit ≡ six_lists }
    ensures { rows.new ≡ two_rooms }
{
    rows.absorb(&edit);
    rows.absorb(&ReversibleRows::invert(edit));
}

/// Turned round, an edit puts what it took and takes what it put, and old and new change sides.
pub fn invert(edit: Edit) -> Edit
    requires { edit ≡ six_lists }
    ensures taken { result.taken ≡ record { members = at 0 (member 13 3 5003 9004) ∷ []; others = room 3 ∷ [] } }
    ensures put { result.put ≡ record { members = at 2 twelve ∷ []; others = video 103 12 ∷ slot 502 12 0 ∷ [] } }
    ensures replaced { result.replaced ≡ record { old = slot 501 11 3 ∷ []; new = slot 501 11 0 ∷ [] } }
{
    ReversibleRows::invert(edit)
}

/// A copy has all six lists.
pub fn copy(alloc: Global, edit: &Edit) -> Result<Edit, AllocError>
    requires { edit.now ≡ six_lists }
    ensures { IfOk result (λ copied. copied ≡ six_lists) }
{
    <ReversibleRows as Reversible>::copy(alloc, edit)
}

/// An edit is put together of its parts.
pub fn edit(taken: Part, put: Part, replaced: Replaced) -> Edit
    requires taken { taken ≡ six_lists.taken }
    requires put { put ≡ six_lists.put }
    requires replaced { replaced ≡ six_lists.replaced }
    ensures { result ≡ six_lists }
{
    Edit {
        taken,
        put,
        replaced,
    }
}

pub fn part(members: Vec<Placed>, others: Vec<Row>) -> Part
    requires members { members.items ≡ at 2 twelve ∷ [] }
    requires others { others.items ≡ slot 502 12 0 ∷ [] }
    ensures { result ≡ record { members = at 2 twelve ∷ []; others = slot 502 12 0 ∷ [] } }
{
    Part::new(members, others)
}

pub fn no_part(alloc: Global) -> Part
    ensures { result ≡ record { members = []; others = [] } }
{
    Part::none(alloc)
}

/// The rows that stood before come first.
pub fn replaced(old: Vec<Row>, new: Vec<Row>) -> Replaced
    requires old { old.items ≡ sub 501 101 ∷ [] }
    requires new { new.items ≡ sub 501 104 ∷ [] }
    ensures { result ≡ record { old = sub 501 101 ∷ []; new = sub 501 104 ∷ [] } }
{
    Replaced::new(old, new)
}

pub fn none_replaced(alloc: Global) -> Replaced
    ensures { result ≡ record { old = []; new = [] } }
{
    Replaced::none(alloc)
}
