//! What a bridge counts, in the text format of Prometheus.

ghost use Rattle.std.specs.Prelude.{◌≡◌, ◌++◌, map, OnOk, IfOk, IsTrue, option_map};
ghost use Rattle.std.specs.List.{flat_map};
ghost use Rattle.json.specs.Print.{IsNumber};
ghost use Rattle.desk_http.specs.Metrics.{
  is_number,
  heading,
  labels_text,
  exponent,
  sample_of,
  sample,
  family_text,
  families_text,
  metrics_text,
};
ghost use Rattle.desk_http.specs.Readings.{found};

use crate::labelling::{Labels, append_labels, append_texts};
use crate::reading::{WordPlace, leading_word, text_at, words_of};
use crate::zero_lines::whole_lines;
use std::alloc::{AllocError, Global};

/// What a number of a line counts.
#[derive(Clone, Copy)]
pub enum Unit {
    /// It counts ones.
    One,
    /// It counts thousandths, as milliseconds do of a second.
    Thousandth,
}

/// A family of samples: one for each line of a kind.
#[derive(Clone, Copy)]
pub struct Family {
    /// Its name.
    pub name: &'static str,
    /// What it is. Where this is empty, its samples go on with the family before it.
    pub help: &'static str,
    /// `counter` or `gauge`.
    pub kind: &'static str,
    /// The first word of its lines.
    pub line: &'static str,
    /// The labels of each sample.
    pub labels: Labels,
    /// Where a sample's value stands in a line. A line without a number there has no sample.
    pub value: WordPlace,
    /// What the value counts.
    pub unit: Unit,
}

/// Whether a word is a number as JSON has it.
pub(crate) fn is_number(word: &str) -> bool
    ensures value { result ≡ is_number word.now }
    ensures number { IsTrue result → IsNumber word.now }
{
    json::is_number(word)
}

/// Appends the lines before the samples of a family.
fn append_heading(out: &mut Vec<u8>, family: &Family) -> Result<(), AllocError>
    ensures { OnOk result (out.new.items ≡ out.old.items ++ heading family.now) }
{
    let (name, help, kind) = (family.name, family.help, family.kind);
    if help.len() == 0 {
        return Ok(());
    }
    append_texts(
        out,
        &[
            "# HELP ",
            name,
            " ",
            help,
            "\n# TYPE ",
            name,
            " ",
            kind,
            "\n",
        ],
    )
}

/// What stands behind a number.
fn exponent(unit: Unit) -> &'static str
    ensures { result.now ≡ exponent unit }
{
    match unit {
        Unit::One => "",
        Unit::Thousandth => "e-3",
    }
}

/// Appends the sample of a line with this value, if that is a number.
fn append_value(
    out: &mut Vec<u8>,
    family: &Family,
    line: &str,
    words: &[&str],
    value: Option<&str>,
) -> Result<(), AllocError>
    ensures { OnOk result
        (out.new.items ≡ out.old.items
        ++ sample_of family.now line.now (map (λ x. x.now) words.now) (option_map (λ x. x.now) value.entry)) }
{
    match value {
        Some(value) if is_number(value) => {
            append_texts(out, &[family.name])?;
            append_labels(out, line, words, family.labels)?;
            append_texts(out, &[" "])?;
            out.extend_from_slice(value.as_bytes())?;
            append_texts(out, &[exponent(family.unit), "\n"])
        }
        Some(_) | None => Ok(()),
    }
}

/// Appends the sample of a line, if it is of the family and has its value.
fn append_sample(
    alloc: Global,
    out: &mut Vec<u8>,
    family: &Family,
    line: &str,
) -> Result<(), AllocError>
    ensures { OnOk result (out.new.items ≡ out.old.items ++ sample family.now line.now) }
{
    if leading_word(line) != family.line {
        return Ok(());
    }
    let words = words_of(alloc, line)?;
    let value = text_at(line, &words, family.value);
    append_value(out, family, line, &words, value)
}

/// Appends a family: its heading, and a sample of each line that has one.
fn append_family(
    alloc: Global,
    out: &mut Vec<u8>,
    family: &Family,
    lines: &[&str],
) -> Result<(), AllocError>
    ensures { OnOk result
        (out.new.items ≡ out.old.items ++ family_text (map (λ x. x.now) lines.now) family.now) }
{
    append_heading(out, family)?;
    for line in lines {
        append_sample(alloc, out, family, line)?;
    }
    Ok(())
}

/// Appends families, one after another.
fn append_families(
    alloc: Global,
    out: &mut Vec<u8>,
    families: &[Family],
    lines: &[&str],
) -> Result<(), AllocError>
    ensures { OnOk result
        (out.new.items ≡ out.old.items ++ families_text (map (λ x. x.now) lines.now) families.now) }
{
    for family in families {
        append_family(alloc, out, family, lines)?;
    }
    Ok(())
}

/// Appends the families of tables, one after another.
fn append_tables(
    alloc: Global,
    out: &mut Vec<u8>,
    tables: &[&[Family]],
    lines: &[&str],
) -> Result<(), AllocError>
    ensures { OnOk result
        (out.new.items ≡ out.old.items
        ++ flat_map (λ families. families_text (map (λ x. x.now) lines.now) families.now) tables.now) }
{
    for families in tables {
        append_families(alloc, out, families, lines)?;
    }
    Ok(())
}

/// What a bridge counts, by the lines of `stats`.
pub(crate) fn metrics_text(
    alloc: Global,
    tables: &[&[Family]],
    text: &str,
) -> Result<Vec<u8>, AllocError>
    ensures { IfOk result (λ told. told.items ≡ metrics_text tables.now text.now) }
{
    let lines = whole_lines(alloc, text)?;
    let mut out = Vec::new(alloc);
    append_tables(alloc, &mut out, tables, &lines)?;
    Ok(out)
}
