//! Appending lines to a text.

ghost use Rattle.std.specs.Prelude.{◌≡◌, ◌∷◌, ◌++◌, [], codes, decimal, map};
ghost use Rattle.std.specs.List.{flat_map};
ghost use Rattle.std.specs.Fmt.{signed_decimal};
ghost use Rattle.rtp_codec.specs.Address.{address_text};
ghost use Rattle.bridge_stats.specs.Text.{part_text, next_text, line_text};
ghost use Rattle.bridge_stats.specs.inner.Said.{said, next_said};
ghost use Rattle.bridge_stats.specs.inner.Growing.{buffer_of, Grows};

use itoa::Buffer;
use rtp_codec::Address;
use std::alloc::{AllocError, Allocator};

/// A part of a line.
#[derive(Clone, Copy)]
pub(crate) enum LineField<'a> {
    /// Words as they stand.
    Words(&'a [u8]),
    Number(u64),
    /// A number with its sign.
    Signed(i64),
    Place(Address),
}

/// What stands where there is no word.
pub(crate) const NO_WORD: &[u8] = b"-";

/// Appends a text.
pub(crate) fn append<A: Allocator>(text: &[u8], out: &mut Vec<u8, A>) -> Result<(), AllocError>
    ensures { Grows (buffer_of out.old) (buffer_of out.new) text.now result }
{
    out.extend_from_slice(text)
}

/// Appends a number.
fn append_number<A: Allocator>(number: u64, out: &mut Vec<u8, A>) -> Result<(), AllocError>
    ensures { Grows (buffer_of out.old) (buffer_of out.new) (decimal number) result }
{
    let mut buffer = Buffer::new();
    append(buffer.format(number).as_bytes(), out)
}

/// Appends a number with a `-` in front where it is below 0.
fn append_signed<A: Allocator>(number: i64, out: &mut Vec<u8, A>) -> Result<(), AllocError>
    ensures { Grows (buffer_of out.old) (buffer_of out.new) (signed_decimal number) result }
{
    let mut buffer = Buffer::new();
    append(buffer.format(number).as_bytes(), out)
}

/// Appends an address.
fn append_address<A: Allocator>(address: Address, out: &mut Vec<u8, A>) -> Result<(), AllocError>
    ensures { Grows (buffer_of out.old) (buffer_of out.new) (address_text address) result }
{
    let text = address.text();
    append(text.as_str().as_bytes(), out)
}

/// Appends a part.
fn append_field<A: Allocator>(field: LineField<'_>, out: &mut Vec<u8, A>) -> Result<(), AllocError>
    ensures { Grows (buffer_of out.old) (buffer_of out.new) (part_text (said field.entry)) result }
{
    match field {
        LineField::Words(text) => append(text, out),
        LineField::Number(n) => append_number(n, out),
        LineField::Signed(n) => append_signed(n, out),
        LineField::Place(address) => append_address(address, out),
    }
}

/// Appends a space and a part.
fn append_next<A: Allocator>(field: LineField<'_>, out: &mut Vec<u8, A>) -> Result<(), AllocError>
    ensures { Grows (buffer_of out.old) (buffer_of out.new) (next_said field.entry) result }
{
    append(b" ", out)?;
    append_field(field, out)
}

/// Appends parts, each with a space before it.
fn append_fields<A: Allocator>(
    fields: &[LineField<'_>],
    out: &mut Vec<u8, A>,
) -> Result<(), AllocError>
    ensures { Grows (buffer_of out.old) (buffer_of out.new) (flat_map next_said fields.now) result }
{
    for field in fields {
        append_next(*field, out)?;
    }
    Ok(())
}

/// Appends parts, each with a space before it, and the end of their line.
fn append_rest<A: Allocator>(
    fields: &[LineField<'_>],
    out: &mut Vec<u8, A>,
) -> Result<(), AllocError>
    ensures { Grows (buffer_of out.old) (buffer_of out.new) (flat_map next_said fields.now ++ 10 ∷ []) result }
{
    append_fields(fields, out)?;
    append(b"\n", out)
}

/// Appends a line: its first word and its parts.
pub(crate) fn append_line<A: Allocator>(
    first: &[u8],
    fields: &[LineField<'_>],
    out: &mut Vec<u8, A>,
) -> Result<(), AllocError>
    ensures { Grows (buffer_of out.old) (buffer_of out.new)
        (first.now ++ (flat_map next_said fields.now ++ 10 ∷ [])) result }
{
    append(first, out)?;
    append_rest(fields, out)
}

/// Appends the last parts of a line, each with a space before it, and its end.
fn append_tail<A: Allocator>(
    fields: &[LineField<'_>],
    out: &mut Vec<u8, A>,
) -> Result<(), AllocError>
    ensures { Grows (buffer_of out.old) (buffer_of out.new)
        (flat_map next_text (map said fields.now) ++ 10 ∷ []) result }
{
    append_rest(fields, out)
}

/// Appends parts of a line and its last parts, each with a space before it, and its end.
fn append_parts<A: Allocator>(
    fields: &[LineField<'_>],
    last: &[LineField<'_>],
    out: &mut Vec<u8, A>,
) -> Result<(), AllocError>
    ensures { Grows (buffer_of out.old) (buffer_of out.new)
        (flat_map next_said fields.now ++ (flat_map next_text (map said last.now) ++ 10 ∷ [])) result }
{
    append_fields(fields, out)?;
    append_tail(last, out)
}

/// Appends a long line: its first word, its parts and its last parts.
pub(crate) fn append_long_line<A: Allocator>(
    first: &[u8],
    fields: &[LineField<'_>],
    last: &[LineField<'_>],
    out: &mut Vec<u8, A>,
) -> Result<(), AllocError>
    ensures { Grows (buffer_of out.old) (buffer_of out.new)
        (first.now ++ (flat_map next_said fields.now ++ (flat_map next_text (map said last.now) ++ 10 ∷ []))) result }
{
    append(first, out)?;
    append_parts(fields, last, out)
}

/// Appends parts of a line, each with a space before it.
fn append_more<A: Allocator>(
    fields: &[LineField<'_>],
    out: &mut Vec<u8, A>,
) -> Result<(), AllocError>
    ensures { Grows (buffer_of out.old) (buffer_of out.new) (flat_map next_text (map said fields.now)) result }
{
    append_fields(fields, out)
}

/// Appends parts of a line, its last parts, and its end.
fn append_runs<A: Allocator>(
    more: &[LineField<'_>],
    last: &[LineField<'_>],
    out: &mut Vec<u8, A>,
) -> Result<(), AllocError>
    ensures { Grows (buffer_of out.old) (buffer_of out.new)
        (flat_map next_text (map said more.now) ++ (flat_map next_text (map said last.now) ++ 10 ∷ [])) result }
{
    append_more(more, out)?;
    append_tail(last, out)
}

/// Appends parts of a line, more of them, its last parts, and its end.
fn append_three<A: Allocator>(
    fields: &[LineField<'_>],
    more: &[LineField<'_>],
    last: &[LineField<'_>],
    out: &mut Vec<u8, A>,
) -> Result<(), AllocError>
    ensures { Grows (buffer_of out.old) (buffer_of out.new)
        (flat_map next_said fields.now
        ++ (flat_map next_text (map said more.now) ++ (flat_map next_text (map said last.now) ++ 10 ∷ []))) result }
{
    append_fields(fields, out)?;
    append_runs(more, last, out)
}

/// Appends the longest line: its first word, its parts, more of them, and its last parts.
pub(crate) fn append_longest_line<A: Allocator>(
    first: &[u8],
    fields: &[LineField<'_>],
    more: &[LineField<'_>],
    last: &[LineField<'_>],
    out: &mut Vec<u8, A>,
) -> Result<(), AllocError>
    ensures { Grows (buffer_of out.old) (buffer_of out.new)
        (first.now ++ (flat_map next_said fields.now
        ++ (flat_map next_text (map said more.now) ++ (flat_map next_text (map said last.now) ++ 10 ∷ [])))) result }
{
    append(first, out)?;
    append_three(fields, more, last, out)
}
