//! The labels of a metric's samples.

ghost use Rattle.std.specs.Prelude.{◌≡◌, ◌++◌, map, OnOk, option_map};
ghost use Rattle.std.specs.List.{flat_map};
ghost use Rattle.desk_http.specs.Metrics.{escape_octet, escaped, text_or_empty, label_text, labels_text};

use crate::reading::{WordPlace, text_at};
use std::alloc::AllocError;

/// A label of samples.
#[derive(Clone, Copy)]
pub struct Label {
    /// Its name.
    pub name: &'static str,
    /// Where its value stands in a line.
    pub place: WordPlace,
}

/// The labels of samples.
#[derive(Clone, Copy)]
pub enum Labels {
    /// There are none.
    Nothing,
    /// One.
    One(Label),
    /// Two.
    Two(Label, Label),
}

/// Appends texts, one behind another.
pub(crate) fn append_texts(out: &mut Vec<u8>, texts: &[&str]) -> Result<(), AllocError>
    ensures { OnOk result (out.new.items ≡ out.old.items ++ flat_map (λ text. text.now) texts.now) }
{
    for text in texts {
        out.extend_from_slice(text.as_bytes())?;
    }
    Ok(())
}

/// Appends what stands in a label's value for an octet.
fn append_escaped_octet(out: &mut Vec<u8>, octet: u8) -> Result<(), AllocError>
    ensures { OnOk result (out.new.items ≡ out.old.items ++ escape_octet octet) }
{
    if octet == b'\\' {
        out.extend_from_slice(b"\\\\")
    } else if octet == b'"' {
        out.extend_from_slice(b"\\\"")
    } else if octet == b'\n' {
        out.extend_from_slice(b"\\n")
    } else {
        out.extend_from_slice(&[octet])
    }
}

/// Appends a text as the value of a label.
fn append_escaped(out: &mut Vec<u8>, text: &[u8]) -> Result<(), AllocError>
    ensures { OnOk result (out.new.items ≡ out.old.items ++ escaped text.now) }
{
    for octet in text {
        append_escaped_octet(out, *octet)?;
    }
    Ok(())
}

/// A text, or the empty one.
fn text_or_empty(text: Option<&str>) -> &str
    ensures { result.now ≡ text_or_empty (option_map (λ x. x.now) text.entry) }
{
    match text {
        Some(text) => text,
        None => "",
    }
}

/// Appends a label with its value.
fn append_label(
    out: &mut Vec<u8>,
    line: &str,
    words: &[&str],
    label: Label,
) -> Result<(), AllocError>
    ensures { OnOk result
        (out.new.items ≡ out.old.items ++ label_text line.now (map (λ x. x.now) words.now) label) }
{
    append_texts(out, &[label.name, "=\""])?;
    append_escaped(
        out,
        text_or_empty(text_at(line, words, label.place)).as_bytes(),
    )?;
    append_texts(out, &["\""])
}

/// Appends the labels of a sample.
pub(crate) fn append_labels(
    out: &mut Vec<u8>,
    line: &str,
    words: &[&str],
    labels: Labels,
) -> Result<(), AllocError>
    ensures { OnOk result
        (out.new.items ≡ out.old.items ++ labels_text line.now (map (λ x. x.now) words.now) labels) }
{
    match labels {
        Labels::Nothing => Ok(()),
        Labels::One(label) => {
            append_texts(out, &["{"])?;
            append_label(out, line, words, label)?;
            append_texts(out, &["}"])
        }
        Labels::Two(first, second) => {
            append_texts(out, &["{"])?;
            append_label(out, line, words, first)?;
            append_texts(out, &[","])?;
            append_label(out, line, words, second)?;
            append_texts(out, &["}"])
        }
    }
}
