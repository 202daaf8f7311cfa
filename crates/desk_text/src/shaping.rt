//! The fields behind the names of commands.

ghost use Rattle.std.specs.Prelude.{◌≡◌, ◌≤◌, [], length, map};
ghost use Rattle.desk_rows.specs.Values.{row_with};
ghost use Rattle.desk_text.specs.Values.{field_of, of_row};
ghost use Rattle.desk_text.specs.Calls.{row_fields, shape_of};

use crate::name::Name;
use crate::value::{Field, Value};
use arrayvec::ArrayVec;
use desk_rows::{Kind, MOST_VALUES, Row, RowValue};

/// Fields, one after another.
pub(crate) type Shape = ArrayVec<Field, MOST_VALUES>;

/// The fields of a row's values.
fn fields(values: &[RowValue]) -> Shape
    requires { length values.now ≤ MOST_VALUES }
    ensures { result.items ≡ map field_of (map of_row values.now) }
{
    let mut fields = ArrayVec::new();
    for value in values {
        fields.push(Value::of_row(*value).field());
    }
    fields
}

/// The fields of the command that puts a row of this kind: those of the values of any such row.
fn row_shape(kind: Kind) -> Shape
    ensures { result.items ≡ map field_of (row_fields (row_with kind [])) }
{
    fields(Row::with_values(kind, &[]).values().as_slice())
}

/// These fields.
fn list(fields: &[Field]) -> Shape
    requires { length fields.now ≤ MOST_VALUES }
    ensures { result.items ≡ fields.now }
{
    let mut list = ArrayVec::new();
    let _ = list.try_extend_from_slice(fields);
    list
}

/// The fields behind a name.
pub(crate) fn shape(name: Name) -> Shape
    ensures { result.items ≡ shape_of name }
{
    match name {
        Name::AddRoom => row_shape(Kind::Room),
        Name::AddMember => row_shape(Kind::Member),
        Name::AddSource => row_shape(Kind::Source),
        Name::AddSlot => row_shape(Kind::Slot),
        Name::Subscribe => row_shape(Kind::Sub),
        Name::SetGain => row_shape(Kind::Gain),
        Name::Mute => row_shape(Kind::Mute),
        Name::Pin => row_shape(Kind::Pin),
        Name::GiveFloor => row_shape(Kind::Floor),
        Name::MoveMember => list(&[Field::U32, Field::U32]),
        Name::RemoveRoom
        | Name::RemoveMember
        | Name::RemoveSource
        | Name::RemoveSlot
        | Name::Unsubscribe
        | Name::Unmute
        | Name::Unpin
        | Name::TakeFloor => list(&[Field::U32]),
    }
}
