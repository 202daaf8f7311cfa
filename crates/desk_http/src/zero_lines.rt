//! The lines that a bridge leaves out of `stats` where all their numbers are 0.

ghost use Rattle.std.specs.Prelude.{◌≡◌, map, OnOk, IfOk};
ghost use Rattle.desk_http.specs.ZeroLines.{has_line, with_line, whole_lines};

use crate::reading::{answer_lines, leading_word};
use std::alloc::{AllocError, Global};

/// Whether a line has this first word.
fn has_line(lines: &[&str], word: &str) -> bool
    ensures { result ≡ has_line word.now (map (λ x. x.now) lines.now) }
{
    for line in lines {
        if leading_word(line) == word {
            return true;
        }
    }
    false
}

/// Adds a line, if no other one has its first word.
fn add_line<'a>(lines: &mut Vec<&'a str>, line: &'a str) -> Result<(), AllocError>
    ensures { OnOk result
        (map (λ x. x.now) lines.new.items ≡ with_line line.now (map (λ x. x.now) lines.old.items)) }
{
    if has_line(lines, leading_word(line)) {
        return Ok(());
    }
    lines.push(line)?;
    Ok(())
}

/// The lines of an answer, and behind them each of these lines that it lacks.
pub(crate) fn whole_lines<'a>(alloc: Global, text: &'a str) -> Result<Vec<&'a str>, AllocError>
    ensures { IfOk result (λ lines. map (λ x. x.now) lines.items ≡ whole_lines text.now) }
{
    let mut lines = answer_lines(alloc, text)?;
    add_line(
        &mut lines,
        "left-out sources 0 strangers 0 streams 0 reports 0",
    )?;
    add_line(&mut lines, "limited nacks 0 blocks 0 plis 0")?;
    Ok(lines)
}
