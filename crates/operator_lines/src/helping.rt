//! What `help` tells.

ghost use Rattle.std.specs.Prelude.{◌≡◌, ◌++◌, OnOk, OnErr, IfOk};
ghost use Rattle.std.specs.List.{flat_map};
ghost use Rattle.operator_lines.specs.Forms.{all_topics};
ghost use Rattle.operator_lines.specs.Help.{form_line, place_line, refusal_line, blame_line, help_text};

use crate::advice::refusal_advice;
use crate::form_word::FormWord;
use crate::topic::Topic;
use desk_edit::Refusal;
use desk_text::{Value, Word, print_line};
use std::alloc::{AllocError, Global};

/// Appends the line of a form.
fn append_form(topic: &Topic, out: &mut Vec<u8>) -> Result<(), AllocError>
    ensures { OnOk result (out.new.items ≡ out.old.items ++ form_line topic.now) }
{
    print_line(topic.form(), &[], out)
}

/// Appends the form of each line.
fn append_forms(topics: &[Topic], out: &mut Vec<u8>) -> Result<(), AllocError>
    ensures { OnOk result (out.new.items ≡ out.old.items ++ flat_map form_line topics.now) }
{
    for topic in topics {
        append_form(topic, out)?;
    }
    Ok(())
}

/// Appends the line of what a word is.
fn append_place(place: &FormWord, out: &mut Vec<u8>) -> Result<(), AllocError>
    ensures { OnOk result (out.new.items ≡ out.old.items ++ place_line place.now) }
{
    print_line(place.text(), &[], out)
}

/// Appends a line for each of these words.
fn append_places(places: &[FormWord], out: &mut Vec<u8>) -> Result<(), AllocError>
    ensures { OnOk result (out.new.items ≡ out.old.items ++ flat_map place_line places.now) }
{
    for place in places {
        append_place(place, out)?;
    }
    Ok(())
}

/// Appends the line of a refusal, with what to do.
pub(crate) fn append_refusal(refusal: Refusal, out: &mut Vec<u8>) -> Result<(), AllocError>
    ensures { OnOk result (out.new.items ≡ out.old.items ++ refusal_line refusal) }
{
    let row = refusal.told();
    let number = Word::Value(Value::U16(row.number));
    let advice = Word::Fixed(refusal_advice(refusal));
    print_line(b"refused", &[number, Word::Fixed(row.name), advice], out)
}

/// Appends the line of a refusal of a call.
fn append_blame(blame: &(Refusal, u32), out: &mut Vec<u8>) -> Result<(), AllocError>
    ensures { OnOk result (out.new.items ≡ out.old.items ++ blame_line blame.now) }
{
    append_refusal(blame.0, out)
}

/// Appends a line for each of these refusals.
fn append_blames(blames: &[(Refusal, u32)], out: &mut Vec<u8>) -> Result<(), AllocError>
    ensures { OnOk result (out.new.items ≡ out.old.items ++ flat_map blame_line blames.now) }
{
    for blame in blames {
        append_blame(blame, out)?;
    }
    Ok(())
}

/// The form of each line.
fn forms(alloc: Global) -> Result<Vec<u8>, AllocError>
    ensures { IfOk result (λ text. text.items ≡ flat_map form_line all_topics) }
{
    let mut text = Vec::new(alloc);
    append_forms(Topic::all(), &mut text)?;
    Ok(text)
}

/// The text of `help`, of all lines or of one.
fn help(alloc: Global, topic: Option<Topic>) -> Result<Vec<u8>, AllocError>
    ensures { IfOk result (λ text. text.items ≡ help_text topic) }
{
    let Some(topic) = topic else {
        let mut text = forms(alloc)?;
        text.extend_from_slice(b"end\n")?;
        return Ok(text);
    };
    let mut text = Vec::new(alloc);
    append_form(&topic, &mut text)?;
    append_places(topic.places(), &mut text)?;
    append_blames(topic.blames(), &mut text)?;
    print_line(b"example", &[Word::Fixed(topic.example())], &mut text)?;
    text.extend_from_slice(b"end\n")?;
    Ok(text)
}

/// Appends the form of each line; or of one line its form, what its words are, what it is refused by, and an example.
/// An `Err` appends nothing.
pub(crate) fn print_help(
    alloc: Global,
    topic: Option<Topic>,
    out: &mut Vec<u8>,
) -> Result<(), AllocError>
    ensures ok { OnOk result (out.new.items ≡ out.old.items ++ help_text topic) }
    ensures err { OnErr result (out.new.items ≡ out.old.items) }
{
    let text = help(alloc, topic)?;
    out.extend_from_slice(&text)
}
