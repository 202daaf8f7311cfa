//! The bridge's answers to queries as JSON.

ghost use Rattle.std.specs.Prelude.{◌≡◌, ◌≤◌, ◌∷◌, [], length, map, OnOk, IfOk, option_map};
ghost use Rattle.std.specs.List.{flat_map};
ghost use Rattle.desk_http.specs.Readings.{words_of, leading_word, word_place, found};
ghost use Rattle.desk_http.specs.Rows.{
  text_token,
  value_token,
  field_tokens,
  object_tokens,
  begins_row,
  row_tokens,
  first_tokens,
  list_tokens,
  undone_at,
  lines_in_part,
  shape_tokens,
  json_text,
  Appends,
};

use crate::metrics::is_number;
use crate::reading::{WordPlace, leading_word, text_at, word_place, words_of};
use crate::zero_lines::whole_lines;
use json::Writer;
use std::alloc::{AllocError, Global};

/// A field of an object.
#[derive(Clone, Copy)]
pub struct RowField {
    /// Its name.
    pub name: &'static str,
    /// Where its value stands in a line.
    pub place: WordPlace,
}

/// Which lines of an answer are looked at.
#[derive(Clone, Copy)]
pub enum HistoryPart {
    /// All.
    All,
    /// Those before the line `undone`.
    Done,
    /// Those from the line `undone` on.
    Undone,
}

/// Which lines are rows of a shape.
#[derive(Clone, Copy)]
pub enum RowKind {
    /// Those with this first word.
    Named(&'static str),
    /// Those whose first word is a number.
    Numbered,
}

/// What stands under a key: the lines of a kind, as objects.
#[derive(Clone, Copy)]
pub struct RowShape {
    /// The key.
    pub key: &'static str,
    /// Where the lines stand.
    pub part: HistoryPart,
    /// Which lines they are.
    pub kind: RowKind,
    /// Whether all of them are there, in an array. Else the first one is, or `null`.
    pub is_list: bool,
    /// The fields of each object.
    pub fields: &'static [RowField],
}

/// Writes a text: a number, `null` for `-`, or else a string.
fn write_text(writer: &mut Writer, text: &str) -> Result<(), AllocError>
    ensures { OnOk result (Appends writer.old writer.new (text_token text.now ∷ [])) }
{
    if text == "-" {
        writer.null()
    } else if is_number(text) {
        writer.number(text)
    } else {
        writer.string(text)
    }
}

/// Writes a text, or `null`.
fn write_value(writer: &mut Writer, text: Option<&str>) -> Result<(), AllocError>
    ensures { OnOk result (Appends writer.old writer.new (value_token (option_map (λ x. x.now) text.entry) ∷ [])) }
{
    match text {
        Some(text) => write_text(writer, text),
        None => writer.null(),
    }
}

/// Writes a field of a line with these words.
fn write_field(
    writer: &mut Writer,
    line: &str,
    words: &[&str],
    field: &RowField,
) -> Result<(), AllocError>
    ensures { OnOk result
        (Appends writer.old writer.new (field_tokens line.now (map (λ x. x.now) words.now) field.now)) }
{
    writer.key(field.name)?;
    write_value(writer, text_at(line, words, field.place))
}

/// Writes fields of a line with these words.
fn write_fields(
    writer: &mut Writer,
    line: &str,
    words: &[&str],
    fields: &[RowField],
) -> Result<(), AllocError>
    ensures { OnOk result
        (Appends writer.old writer.new (flat_map (field_tokens line.now (map (λ x. x.now) words.now)) fields.now)) }
{
    for field in fields {
        write_field(writer, line, words, field)?;
    }
    Ok(())
}

/// Writes a line with these words as an object.
fn write_object(
    writer: &mut Writer,
    line: &str,
    words: &[&str],
    fields: &[RowField],
) -> Result<(), AllocError>
    ensures { OnOk result
        (Appends writer.old writer.new (object_tokens fields.now line.now (map (λ x. x.now) words.now))) }
{
    writer.begin_object()?;
    write_fields(writer, line, words, fields)?;
    writer.end_object()
}

/// Whether a line with this first word is of the kind.
fn begins_row(kind: RowKind, first: &str) -> bool
    ensures { result ≡ begins_row kind first.now }
{
    match kind {
        RowKind::Named(word) => first == word,
        RowKind::Numbered => is_number(first),
    }
}

/// Writes a line as an object, if it is of the kind. Returns whether it is.
fn write_row(
    alloc: Global,
    writer: &mut Writer,
    shape: &RowShape,
    line: &str,
) -> Result<bool, AllocError>
    ensures row { OnOk result (Appends writer.old writer.new (row_tokens shape.now line.now)) }
    ensures is { IfOk result (λ is. is ≡ begins_row shape.now.kind (leading_word line.now)) }
{
    if !begins_row(shape.kind, leading_word(line)) {
        return Ok(false);
    }
    let words = words_of(alloc, line)?;
    write_object(writer, line, &words, shape.fields)?;
    Ok(true)
}

/// Writes the lines that are of the kind.
fn write_rows(
    alloc: Global,
    writer: &mut Writer,
    shape: &RowShape,
    lines: &[&str],
) -> Result<(), AllocError>
    ensures { OnOk result
        (Appends writer.old writer.new (flat_map (row_tokens shape.now) (map (λ x. x.now) lines.now))) }
{
    for line in lines {
        write_row(alloc, writer, shape, line)?;
    }
    Ok(())
}

/// Writes the lines that are of the kind, as an array.
fn write_list(
    alloc: Global,
    writer: &mut Writer,
    shape: &RowShape,
    lines: &[&str],
) -> Result<(), AllocError>
    ensures { OnOk result (Appends writer.old writer.new (list_tokens shape.now (map (λ x. x.now) lines.now))) }
{
    writer.begin_array()?;
    write_rows(alloc, writer, shape, lines)?;
    writer.end_array()
}

/// Writes the first line that is of the kind, or `null`.
fn write_first(
    alloc: Global,
    writer: &mut Writer,
    shape: &RowShape,
    lines: &[&str],
) -> Result<(), AllocError>
    ensures { OnOk result (Appends writer.old writer.new (first_tokens shape.now (map (λ x. x.now) lines.now))) }
{
    for line in lines {
        if write_row(alloc, writer, shape, line)? {
            return Ok(());
        }
    }
    writer.null()
}

/// Where the line `undone` stands, or else how many lines there are.
fn undone_at(lines: &[&str]) -> usize
    ensures value { result ≡ undone_at (map (λ x. x.now) lines.now) }
    ensures within { result ≤ length lines.now }
{
    match word_place(lines, "undone") {
        Some(at) => at,
        None => lines.len(),
    }
}

/// A part of the lines.
fn lines_in_part<'a, 'b>(part: HistoryPart, lines: &'b [&'a str]) -> &'b [&'a str]
    ensures { map (λ x. x.now) result.now ≡ lines_in_part part (map (λ x. x.now) lines.now) }
{
    match part {
        HistoryPart::All => lines,
        HistoryPart::Done => &lines[..undone_at(lines)],
        HistoryPart::Undone => &lines[undone_at(lines)..],
    }
}

/// Writes the lines of a shape, under its key.
fn write_shape(
    alloc: Global,
    writer: &mut Writer,
    shape: &RowShape,
    lines: &[&str],
) -> Result<(), AllocError>
    ensures { OnOk result (Appends writer.old writer.new (shape_tokens (map (λ x. x.now) lines.now) shape.now)) }
{
    writer.key(shape.key)?;
    let part = lines_in_part(shape.part, lines);
    if shape.is_list {
        write_list(alloc, writer, shape, part)
    } else {
        write_first(alloc, writer, shape, part)
    }
}

/// Writes the lines of shapes, one after another.
fn write_shapes(
    alloc: Global,
    writer: &mut Writer,
    shapes: &[RowShape],
    lines: &[&str],
) -> Result<(), AllocError>
    ensures { OnOk result
        (Appends writer.old writer.new (flat_map (shape_tokens (map (λ x. x.now) lines.now)) shapes.now)) }
{
    for shape in shapes {
        write_shape(alloc, writer, shape, lines)?;
    }
    Ok(())
}

/// An answer of the bridge as JSON.
pub(crate) fn json_text(
    alloc: Global,
    shapes: &[RowShape],
    text: &str,
) -> Result<Vec<u8>, AllocError>
    ensures { IfOk result (λ told. told.items ≡ json_text shapes.now text.now) }
{
    let lines = whole_lines(alloc, text)?;
    let mut writer = Writer::new(Vec::new(alloc));
    writer.begin_object()?;
    write_shapes(alloc, &mut writer, shapes, &lines)?;
    writer.end_object()?;
    Ok(writer.into_inner())
}
