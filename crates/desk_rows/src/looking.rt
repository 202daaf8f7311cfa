//! Questions to a desk by look-ups: to the present one, or to one that an edit would lead to.

ghost use Rattle.std.specs.Prelude.{◌≡◌, count_by};
ghost use Rattle.std.specs.List.{list_any, list_all};
ghost use Rattle.desk_rows.specs.Desk.{Desk, row_at, room_of_member, room_of, room_of_found, room_at, same_room};
ghost use Rattle.desk_rows.specs.Desk.{rate_of_room, are_together, all_suit, is_audio_in};
ghost use Rattle.desk_rows.specs.Few.{listed};
ghost use Rattle.desk_rows.specs.Keyed.{IsKeyed};
ghost use Rattle.desk_rows.specs.Row.{names, suits, wants};

use crate::few::Few;
use crate::key::Key;
use crate::row::{Media, Row};

/// A desk that can be asked for the row of a key.
pub trait Look {
    /// The desk that is asked.
    ghost desk: { Self → Desk };

    /// The row of this key, if any. No two rows have one key.
    fn look(&self, key: Key) -> Option<Row>
        ensures found { result ≡ row_at (desk self.now) key }
        ensures keyed { IsKeyed (desk self.now) };
}

/// The room of a member row that was found.
fn room_of_member(found: Option<Row>) -> Option<u32>
    ensures { result ≡ room_of_member found }
{
    match found {
        Some(Row::Member(member)) => Some(member.room),
        _ => None,
    }
}

/// The room of a row. A source and a slot are in their member's room. Subscriptions, mutes, gains, pins and floors
/// have none.
pub fn room_of<D: Look>(rows: &D, row: &Row) -> Option<u32>
    ensures { result ≡ room_of (D.desk rows.now) row.now }
{
    match row {
        Row::Room(room) => Some(room.room),
        Row::Member(member) => Some(member.room),
        Row::Source(source) => room_of_member(rows.look(Key::Member(source.member))),
        Row::Slot(slot) => room_of_member(rows.look(Key::Member(slot.member))),
        Row::Sub(_) | Row::Mute(_) | Row::Gain(_) | Row::Pin(_) | Row::Floor(_) => None,
    }
}

/// The room of a row that was found.
fn room_of_found<D: Look>(rows: &D, found: Option<Row>) -> Option<u32>
    ensures { result ≡ room_of_found (D.desk rows.now) found }
{
    match found {
        None => None,
        Some(row) => room_of(rows, &row),
    }
}

/// The clock rate of a room row that was found, in Hz.
pub fn rate_of_room(found: Option<Row>) -> Option<u32>
    ensures { result ≡ rate_of_room found }
{
    match found {
        Some(Row::Room(room)) => Some(room.rate),
        _ => None,
    }
}

/// The room of the row of this key, if there is one.
pub fn room_at<D: Look>(rows: &D, key: Key) -> Option<u32>
    ensures { result ≡ room_at (D.desk rows.now) key }
{
    room_of_found(rows, rows.look(key))
}

/// Whether both are in one room.
fn same_room(a: Option<u32>, b: Option<u32>) -> bool
    ensures { result ≡ same_room a b }
{
    match (a, b) {
        (Some(a), Some(b)) => a == b,
        _ => false,
    }
}

/// Whether the two rows that a row names are in one room. A row that names fewer passes.
pub fn are_together<D: Look>(rows: &D, row: &Row) -> bool
    ensures { result ≡ are_together (D.desk rows.now) (names row.now) }
{
    match row.names() {
        Few::Two(a, b) => same_room(room_at(rows, a), room_at(rows, b)),
        _ => true,
    }
}

/// Whether the row of this key suits the row that names it.
fn one_suits<D: Look>(rows: &D, row: &Row, key: Key) -> bool
    ensures { result ≡ suits (wants row.now) (row_at (D.desk rows.now) key) }
{
    row.suits(rows.look(key))
}

/// Whether each row that the row names is what it wants: video for a subscription or a pin, audio for a gain, and a
/// room that carries a member's codec.
pub fn all_suit<D: Look>(rows: &D, row: &Row) -> bool
    ensures { result ≡ all_suit (D.desk rows.now) row.now }
{
    match row.names() {
        Few::Nothing => true,
        Few::One(key) => one_suits(rows, row, key),
        Few::Two(a, b) => one_suits(rows, row, a) && one_suits(rows, row, b),
    }
}

/// Whether the row is an audio source of a member of the room.
fn is_audio_in<D: Look>(rows: &D, room: u32, row: &Row) -> bool
    ensures { result ≡ is_audio_in (D.desk rows.now) room row.now }
{
    match row {
        Row::Source(source) => {
            source.media.is_same(Media::Audio) && same_room(room_of(rows, row), Some(room))
        }
        _ => false,
    }
}

/// Whether any of these is an audio source of the room.
pub fn has_audio<D: Look>(rows: &D, these: &[Row], room: u32) -> bool
    ensures { result ≡ list_any (is_audio_in (D.desk rows.now) room) these.now }
{
    these.iter().any(|row| is_audio_in(rows, room, row))
}

/// The number of audio sources of the room among these.
pub fn count_audio<D: Look>(rows: &D, these: &[Row], room: u32) -> usize
    ensures { result ≡ count_by (is_audio_in (D.desk rows.now) room) these.now }
{
    these
        .iter()
        .filter(|row| is_audio_in(rows, room, row))
        .count()
}
