//! The commands that words spell.

ghost use Rattle.std.specs.Prelude.{◌≡◌, ◌≢◌, ◌≤◌, ◌^◌, length, map};
ghost use Rattle.desk_rows.specs.Values.{row_with};
ghost use Rattle.desk_text.specs.Words.{Gives, words_in};
ghost use Rattle.desk_text.specs.Values.{field_of, in_row};
ghost use Rattle.desk_text.specs.Calls.{shape_of, putting, command_with, command_of};

use crate::fault::{Fault, ParseFault};
use crate::name::{Name, parse_name};
use crate::reading::read_fields;
use crate::shaping::shape;
use crate::value::{Value, in_rows, u32_at};
use crate::words::{end_of_words, next_word};
use desk_edit::Command;
use desk_rows::{Kind, MOST_VALUES, Row};

/// The command that puts this row.
fn putting(row: Row) -> Command
    ensures { result ≡ putting row }
{
    match row {
        Row::Room(room) => Command::AddRoom(room),
        Row::Member(member) => Command::AddMember(member),
        Row::Source(source) => Command::AddSource(source),
        Row::Slot(slot) => Command::AddSlot(slot),
        Row::Sub(sub) => Command::Subscribe(sub),
        Row::Mute(mute) => Command::Mute(mute),
        Row::Gain(gain) => Command::SetGain(gain),
        Row::Pin(pin) => Command::Pin(pin),
        Row::Floor(floor) => Command::GiveFloor(floor),
    }
}

/// The command that puts a row of this kind with these values.
fn put(kind: Kind, values: &[Value]) -> Command
    requires { length values.now ≤ MOST_VALUES }
    ensures { result ≡ putting (row_with kind (map in_row values.now)) }
{
    putting(Row::with_values(kind, in_rows(values).as_slice()))
}

/// The command of a `move-member`.
fn move_member(values: &[Value]) -> Command
    requires { map field_of values.now ≡ shape_of Name.MoveMember }
    ensures { result ≡ command_with Name.MoveMember values.now }
{
    Command::MoveMember {
        member: u32_at(values, 0),
        room: u32_at(values, 1),
    }
}

/// The command of this name with these values, of which the first is always a number of 32 bits.
fn build(name: Name, values: &[Value]) -> Command
    requires few { length values.now ≤ MOST_VALUES }
    requires shape { map field_of values.now ≡ shape_of name }
    ensures { result ≡ command_with name values.now }
{
    let first = u32_at(values, 0);
    match name {
        Name::AddRoom => put(Kind::Room, values),
        Name::RemoveRoom => Command::RemoveRoom { room: first },
        Name::AddMember => put(Kind::Member, values),
        Name::RemoveMember => Command::RemoveMember { member: first },
        Name::MoveMember => move_member(values),
        Name::AddSource => put(Kind::Source, values),
        Name::RemoveSource => Command::RemoveSource { ssrc: first },
        Name::AddSlot => put(Kind::Slot, values),
        Name::RemoveSlot => Command::RemoveSlot { out_ssrc: first },
        Name::Subscribe => put(Kind::Sub, values),
        Name::Unsubscribe => Command::Unsubscribe { out_ssrc: first },
        Name::SetGain => put(Kind::Gain, values),
        Name::Mute => put(Kind::Mute, values),
        Name::Unmute => Command::Unmute { source: first },
        Name::Pin => put(Kind::Pin, values),
        Name::Unpin => Command::Unpin { room: first },
        Name::GiveFloor => put(Kind::Floor, values),
        Name::TakeFloor => Command::TakeFloor { room: first },
    }
}

/// The command that words spell, of which the first stands at this place on the line.
#[tactic(auto, unfolding(crate::specs::Calls::command_of))]
pub(crate) fn command(place: u32, words: Option<&[u8]>) -> Result<Command, ParseFault>
    requires { place ≤ 2 ^ 17 }
    ensures command { Gives (λ x. x) result (command_of place (words_in words.entry)) }
    ensures memory { result ≢ Err ParseFault.OutOfMemory }
{
    let (word, rest) = next_word(words, place)?;
    let Some(name) = parse_name(word) else {
        return Err(Fault::UnknownWord.at(place));
    };
    let (values, rest) = read_fields(place + 1, name, rest)?;
    end_of_words(rest, place + 1 + shape(name).len() as u32)?;
    Ok(build(name, values.as_slice()))
}
