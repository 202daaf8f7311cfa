//! What is printed for the rows of a desk.

ghost use Rattle.std.specs.Prelude.{◌≡◌, ◌<◌, ◌≤◌, ◌+◌, ◌++◌, length, map, OnOk, OnErr, vec_len, vec_capacity};
ghost use Rattle.std.specs.List.{flat_map};
ghost use Rattle.desk_text.specs.Text.{line_text};
ghost use Rattle.desk_text.specs.Shown.{said};
ghost use Rattle.desk_text.specs.inner.Growing.{buffer_of, Grows};
ghost use Rattle.desk_text.specs.RowLines.{kind_word, shown_values, place_words, row_word, row_words};
ghost use Rattle.desk_text.specs.RowLines.{kind_lines, all_kinds, show_text};

use crate::appending::{Word, append_line};
use crate::value::Value;
use arrayvec::ArrayVec;
use desk_rows::{DEFAULT_RATE, Kind, MOST_VALUES, Row, RowValue, RowValues, Rows};
use std::alloc::{AllocError, Allocator};

/// How many words stand behind the kind of a row at most: the place of a member, and its values.
const MOST_WORDS: usize = MOST_VALUES + 1;

/// The word of a kind of row.
fn kind_word(kind: Kind) -> &'static [u8]
    ensures { result.now ≡ kind_word kind }
{
    match kind {
        Kind::Room => b"room",
        Kind::Member => b"member",
        Kind::Source => b"source",
        Kind::Slot => b"slot",
        Kind::Sub => b"sub",
        Kind::Mute => b"mute",
        Kind::Gain => b"gain",
        Kind::Pin => b"pin",
        Kind::Floor => b"floor",
    }
}

/// The values that are shown of a row. A room's rate of 8000 Hz is left out.
fn shown(row: &Row) -> RowValues
    ensures { result.items ≡ shown_values row.now }
{
    let mut values = row.values();
    match row {
        Row::Room(room) if room.rate == DEFAULT_RATE => values.truncate(1),
        _ => (),
    }
    values
}

/// The place of a member, in a list of words. Other rows have none.
fn front<'a>(place: usize, row: &Row) -> ArrayVec<Word<'a>, MOST_WORDS>
    ensures words { map said result.items ≡ place_words place row.now }
    ensures few { length result.items ≤ 1 }
{
    let mut words = ArrayVec::new();
    if let Row::Member(_) = row {
        words.push(Word::Value(Value::U64(place as u64)));
    }
    words
}

/// Appends the words of a row's values.
fn push_values(values: &[RowValue], words: &mut ArrayVec<Word<'_>, MOST_WORDS>)
    requires { length words.old.items + length values.now ≤ MOST_WORDS }
    ensures { map said words.new.items ≡ map said words.old.items ++ map row_word values.now }
{
    for value in values {
        words.push(Word::Value(Value::of_row(*value)));
    }
}

/// Appends the line of a row that stands at this place among those of its kind.
fn print_row<A: Allocator>(place: usize, row: &Row, out: &mut Vec<u8, A>) -> Result<(), AllocError>
    ensures { Grows (buffer_of out.old) (buffer_of out.new) (line_text (row_words place row.now)) result }
{
    let mut words = front(place, row);
    push_values(shown(row).as_slice(), &mut words);
    append_line(kind_word(row.key().kind()), words.as_slice(), out)
}

/// Appends the lines of the rows of a kind.
fn print_kind<A: Allocator + Copy>(
    rows: &Rows<A>,
    kind: Kind,
    out: &mut Vec<u8, A>,
) -> Result<(), AllocError>
    ensures { Grows (buffer_of out.old) (buffer_of out.new) (kind_lines rows.now kind) result }
{
    for place in 0..rows.count(kind) {
        if let Some(row) = rows.at(kind, place) {
            print_row(place, &row, out)?;
        }
    }
    Ok(())
}

/// All kinds, in the order in which they are shown.
const KINDS: [Kind; 9] = [
    Kind::Room,
    Kind::Member,
    Kind::Source,
    Kind::Slot,
    Kind::Sub,
    Kind::Mute,
    Kind::Gain,
    Kind::Pin,
    Kind::Floor,
];

/// Appends the lines of the rows of all kinds.
fn print_kinds<A: Allocator + Copy>(rows: &Rows<A>, out: &mut Vec<u8, A>) -> Result<(), AllocError>
    ensures { Grows (buffer_of out.old) (buffer_of out.new) (flat_map (kind_lines rows.now) all_kinds) result }
{
    for kind in &KINDS {
        print_kind(rows, *kind, out)?;
    }
    Ok(())
}

/// Appends a line for each row, and the version. Out of memory leaves what was appended before.
fn print_shown<A: Allocator + Copy>(
    rows: &Rows<A>,
    version: u64,
    out: &mut Vec<u8, A>,
) -> Result<(), AllocError>
    ensures { Grows (buffer_of out.old) (buffer_of out.new) (show_text rows.now version) result }
{
    print_kinds(rows, out)?;
    append_line(b"end", &[Word::Value(Value::U64(version))], out)
}

/// Appends a line for each row, and the version. On out of memory, the only error, nothing changes.
pub fn print_rows<A: Allocator + Copy>(
    rows: &Rows<A>,
    version: u64,
    out: &mut Vec<u8, A>,
) -> Result<(), AllocError>
    ensures ok { OnOk result (out.new.items ≡ out.old.items ++ show_text rows.now version) }
    ensures err { OnErr result (out.new.items ≡ out.old.items) }
    ensures full { OnErr result (vec_capacity out.old < vec_len out.old + length (show_text rows.now version)) }
{
    let before = out.len();
    let answer = print_shown(rows, version, out);
    if answer.is_err() {
        out.truncate(before);
    }
    answer
}
