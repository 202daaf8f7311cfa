//! Whether what stays in the desk that an edit would lead to is sound.

ghost use Rattle.std.specs.Prelude.{◌≡◌, ◌+◌, ◌&&◌, not, count_by, nat_eq};
ghost use Rattle.std.specs.List.{list_any};
ghost use Rattle.desk_rows.specs.declared.row.Row.TheVariants.{Member as MemberRow};
ghost use Rattle.desk_rows.specs.Few.{listed};
ghost use Rattle.desk_rows.specs.Desk.{row_at, is_audio_in};
ghost use Rattle.desk_rows.specs.Edit.{ins};
ghost use Rattle.desk_rows.specs.Exchange.{exchanged};
ghost use Rattle.desk_rows.specs.inner.judging.Found.{finds, is_elsewhere};
ghost use Rattle.desk_rows.specs.inner.judging.Judged.{takes, puts, keeps_names, moves, gains_audio, takes_any};
ghost use Rattle.desk_rows.specs.inner.judging.Judged.{is_room, is_pair, is_shaken, stays_sound, all_stay};

use crate::judging::overlay::Overlay;
use desk_rows::{Few, Key, Member, Placed, Row, has_audio};
use std::alloc::Allocator;

impl<A: Allocator + Copy> Overlay<'_, A> {
    /// Whether a row with this key is there afterwards, if one was before.
    fn keeps(&self, key: Key) -> bool
        ensures { result ≡ not (takes self.now.of.edit.now key && not (puts self.now.of.edit.now key)) }
    {
        !self.of.takes(key) || self.of.puts(key)
    }

    fn keeps_names(&self, row: &Row) -> bool
        ensures { result ≡ keeps_names self.now.of.edit.now row.now }
    {
        match row.names() {
            Few::Nothing => true,
            Few::One(key) => self.keeps(key),
            Few::Two(key, other) => self.keeps(key) && self.keeps(other),
        }
    }

    /// Whether the member was in another room.
    fn is_moved(&self, placed: &Placed) -> bool
        ensures { result
            ≡ finds (is_elsewhere placed.now.row.room)
            (row_at self.now.of.rows.now (Key.Member placed.now.row.member)) }
    {
        let found = self.of.rows.find(&Key::Member(placed.row.member));
        is_elsewhere(found, placed.row.room)
    }

    /// Whether a member comes into another room than it was in.
    pub(crate) fn moves(&self) -> bool
        ensures { result ≡ moves self.now.of.rows.now self.now.of.edit.now }
    {
        self.of
            .edit
            .put_members()
            .iter()
            .any(|one| self.is_moved(one))
    }

    /// Whether an audio source comes into the room.
    #[tactic(auto, using(desk_rows::proofs::Counts::any_of_both))]
    fn audio_comes(&self, room: u32) -> bool
        ensures { result
            ≡ list_any (is_audio_in (exchanged self.now.of.rows.now self.now.of.edit.now) room)
            (ins self.now.of.edit.now) }
    {
        has_audio(self, self.of.edit.new(), room)
            || has_audio(self, self.of.edit.put_others(), room)
    }

    fn gains_audio(&self, row: &Row) -> bool
        ensures { result ≡ gains_audio self.now.of.rows.now self.now.of.edit.now row.now }
    {
        match row {
            Row::Room(room) => self.audio_comes(room.room),
            _ => false,
        }
    }

    /// Whether a row of these keys is taken.
    fn takes_any(&self, names: Few<Key>) -> bool
        ensures { result ≡ takes_any self.now.of.edit.now (listed names) }
    {
        match names {
            Few::Nothing => false,
            Few::One(key) => self.of.takes(key),
            Few::Two(key, other) => self.of.takes(key) || self.of.takes(other),
        }
    }

    /// Whether what the row's rule looks at may have changed.
    fn is_shaken(&self, row: &Row, moved: bool) -> bool
        ensures { result ≡ is_shaken moved self.now.of.rows.now self.now.of.edit.now row.now }
    {
        let minds_moves = moved && (is_room(row) || is_pair(row.names()));
        minds_moves || (self.gains_audio(row) || self.takes_any(row.names()))
    }

    /// Whether a row that stays is sound.
    #[tactic(auto, unfolding(desk_rows::specs::inner::judging::Judged::stays_sound))]
    fn stays_sound(&self, row: &Row, moved: bool) -> bool
        ensures { result ≡ stays_sound moved self.now.of.rows.now self.now.of.edit.now row.now }
    {
        self.keeps_names(row) && (!self.is_shaken(row, moved) || self.obeys(row))
    }

    fn count_unsound(&self, rows: &[Row], moved: bool) -> usize
        ensures { result
            ≡ count_by (λ r. not (stays_sound moved self.now.of.rows.now self.now.of.edit.now r)) rows.now }
    {
        rows.iter()
            .filter(|row| !self.stays_sound(row, moved))
            .count()
    }

    fn count_unsound_members(&self, members: &[Member], moved: bool) -> usize
        ensures { result
            ≡ count_by
            (λ m. not (stays_sound moved self.now.of.rows.now self.now.of.edit.now (MemberRow m))) members.now }
    {
        members
            .iter()
            .filter(|member| !self.stays_sound(&Row::Member(**member), moved))
            .count()
    }

    fn count_unsound_placed(&self, placed: &[Placed], moved: bool) -> usize
        ensures { result
            ≡ count_by
            (λ p. not (stays_sound moved self.now.of.rows.now self.now.of.edit.now (MemberRow p.row))) placed.now }
    {
        placed
            .iter()
            .filter(|one| !self.stays_sound(&Row::Member(one.row), moved))
            .count()
    }

    fn members_stay(&self, moved: bool) -> bool
        ensures { result
            ≡ nat_eq (count_by
            (λ m. not
            (stays_sound moved self.now.of.rows.now self.now.of.edit.now (MemberRow m))) self.now.of.rows.now.members)
            (count_by
            (λ p. not
            (stays_sound moved self.now.of.rows.now self.now.of.edit.now
            (MemberRow p.row))) self.now.of.edit.now.taken.members) }
    {
        self.count_unsound_members(self.of.rows.members(), moved)
            == self.count_unsound_placed(self.of.edit.taken_members(), moved)
    }

    fn others_stay(&self, moved: bool) -> bool
        ensures { result
            ≡ nat_eq (count_by
            (λ r. not (stays_sound moved self.now.of.rows.now self.now.of.edit.now r)) self.now.of.rows.now.others)
            (count_by
            (λ r. not (stays_sound moved self.now.of.rows.now self.now.of.edit.now r)) self.now.of.edit.now.taken.others
            + count_by
            (λ r. not
            (stays_sound moved self.now.of.rows.now self.now.of.edit.now r)) self.now.of.edit.now.replaced.old) }
    {
        let going = self.count_unsound(self.of.edit.taken_others(), moved)
            + self.count_unsound(self.of.edit.old(), moved);
        self.count_unsound(self.of.rows.others(), moved) == going
    }

    /// Whether each row that stays is sound.
    #[tactic(auto, using(crate::proofs::OverlayLemmas::stay_test))]
    pub(crate) fn all_stay(&self, moved: bool) -> bool
        ensures { result
            ≡ all_stay
            (stays_sound moved self.now.of.rows.now self.now.of.edit.now) self.now.of.rows.now self.now.of.edit.now }
    {
        self.members_stay(moved) && self.others_stay(moved)
    }
}

fn is_room(row: &Row) -> bool
    ensures { result ≡ is_room row.now }
{
    match row {
        Row::Room(_) => true,
        _ => false,
    }
}

fn is_pair(names: Few<Key>) -> bool
    ensures { result ≡ is_pair (listed names) }
{
    match names {
        Few::Two(_, _) => true,
        _ => false,
    }
}

/// Whether a member of another room is found.
fn is_elsewhere(found: Option<Row>, room: u32) -> bool
    ensures { result ≡ finds (is_elsewhere room) found }
{
    match found {
        Some(Row::Member(row)) => row.room != room,
        _ => false,
    }
}
