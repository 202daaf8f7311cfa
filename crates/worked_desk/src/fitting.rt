//! Edits that fit a desk, and edits that do not: the cases of `specs/FitCases.antt`.

ghost use Rattle.std.specs.Prelude.{◌≡◌};
ghost use Rattle.worked_desk.specs.Cases.{Answers};
ghost use Rattle.worked_desk.specs.TwoRooms.{two_rooms};
ghost use Rattle.worked_desk.specs.FullDesks.{of_rooms, of_audio};
ghost use Rattle.worked_desk.specs.FitCases.{taking, taking_members, putting_members, putting};
ghost use Rattle.worked_desk.specs.FitCases.{putting_subs, replacing, moving};
ghost use Rattle.worked_desk.specs.FitCases.{putting_a_65th_room, putting_a_65th_source};

use desk_rows::Edit;
use reversible_rows::ReversibleRows;
use undo_log::Reversible;

pub fn fits(rows: &mut ReversibleRows, edit: &Edit) -> bool
    requires { rows.old ≡ two_rooms }
    ensures taking { Answers taking edit.now result }
    ensures taking_members { Answers taking_members edit.now result }
    ensures putting_members { Answers putting_members edit.now result }
    ensures putting { Answers putting edit.now result }
    ensures putting_subs { Answers putting_subs edit.now result }
    ensures replacing { Answers replacing edit.now result }
    ensures moving { Answers moving edit.now result }
    ensures same { rows.new ≡ two_rooms }
{
    rows.fits(edit)
}

pub fn fits_among_64_rooms(rows: &mut ReversibleRows, edit: &Edit) -> bool
    requires { rows.old ≡ of_rooms 64 }
    ensures { Answers putting_a_65th_room edit.now result }
{
    rows.fits(edit)
}

pub fn fits_beside_64_audio_sources(rows: &mut ReversibleRows, edit: &Edit) -> bool
    requires { rows.old ≡ of_audio 64 }
    ensures { Answers putting_a_65th_source edit.now result }
{
    rows.fits(edit)
}
