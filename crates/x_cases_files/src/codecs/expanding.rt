//! Repeats, which keep the lines of cases short.

use crate::codecs::untried::Untried;
use std::alloc::{AllocError, Global};

/// How often a text stands, and the number of each.
#[derive(Drop)]
struct Repeat {
    count: u32,
    first: u16,
    step: u16,
}

/// A repeat as it is written: `COUNT`, or `COUNT FIRST STEP`.
fn repeat_of(text: &str) -> Result<Repeat, Untried> {
    let mut words = text.split(' ');
    let (Some(count), first, step) = (words.next(), words.next(), words.next()) else {
        return Err(Untried::Malformed);
    };
    Ok(Repeat {
        count: count.parse()?,
        first: first.unwrap_or("0").parse()?,
        step: step.unwrap_or("1").parse()?,
    })
}

/// Appends a text with its number in place of each `#`, and in four hexadecimal digits of each `$`.
fn push_numbered(
    alloc: Global,
    out: &mut String,
    text: &str,
    number: u16,
) -> Result<(), AllocError> {
    for c in text.chars() {
        match c {
            '#' => out.push_str(format!(in alloc; "{number}")?.as_str())?,
            '$' => out.push_str(format!(in alloc; "{number:04x}")?.as_str())?,
            _ => out.push(c)?,
        }
    }
    Ok(())
}

/// Appends what a repeat stands for.
fn push_repeated(
    alloc: Global,
    out: &mut String,
    text: &str,
    repeat: &Repeat,
) -> Result<(), AllocError> {
    let mut number = repeat.first;
    for _ in 0..repeat.count {
        push_numbered(alloc, out, text, number)?;
        number = number.wrapping_add(repeat.step);
    }
    Ok(())
}

/// A case with its repeats written out. `[COUNT:TEXT]` is the text so often, and in
/// `[COUNT FIRST STEP:TEXT]` the `#` and `$` of the text stand for FIRST, FIRST + STEP and so on,
/// modulo 65536, in decimal and in four hexadecimal digits.
pub fn expanded(alloc: Global, case: &str) -> Result<String, Untried> {
    let mut out = String::new(alloc);
    let mut pieces = case.split('[');
    if let Some(before) = pieces.next() {
        out.push_str(before)?;
    }
    for piece in pieces {
        let Some((inner, behind)) = piece.split_once(']') else {
            return Err(Untried::Malformed);
        };
        let Some((repeat, text)) = inner.split_once(':') else {
            return Err(Untried::Malformed);
        };
        push_repeated(alloc, &mut out, text, &repeat_of(repeat)?)?;
        out.push_str(behind)?;
    }
    Ok(out)
}
