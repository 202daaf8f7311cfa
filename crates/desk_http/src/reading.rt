//! The words of the bridge's lines, and what stands where among them.

ghost use Rattle.std.specs.Prelude.{◌≡◌, length, map, IfOk, option_map, option_and_then, ◌+◌};
ghost use Rattle.std.specs.List.{slice_get};
ghost use Rattle.desk_http.specs.Readings.{answer_lines, words_of, leading_word};
ghost use Rattle.desk_http.specs.Readings.{behind_first, behind, word_place, found};

use std::alloc::{AllocError, Global};

/// Where a text stands in a line.
#[derive(Clone, Copy)]
pub enum WordPlace {
    /// It is this word. The first one is 0.
    Word(usize),
    /// It is so many words behind this one.
    Behind(&'static str, usize),
    /// It is the line behind so many words.
    Rest(usize),
    /// It is this text, whatever the line is.
    Fixed(&'static str),
}

/// The lines of a text: what stands between LFs.
pub fn answer_lines<'a>(alloc: Global, text: &'a str) -> Result<Vec<&'a str>, AllocError>
    ensures { IfOk result (λ lines. map (λ x. x.now) lines.items ≡ answer_lines text.now) }
{
    text.split('\n').collect(alloc)
}

/// The words of a line: what stands between single spaces.
pub(crate) fn words_of<'a>(alloc: Global, line: &'a str) -> Result<Vec<&'a str>, AllocError>
    ensures { IfOk result (λ words. map (λ x. x.now) words.items ≡ words_of line.now) }
{
    line.split(' ').collect(alloc)
}

/// The first word of a line.
pub(crate) fn leading_word(line: &str) -> &str
    ensures { result.now ≡ leading_word line.now }
{
    match line.split_once(' ') {
        Some((word, _)) => word,
        None => line,
    }
}

/// The line behind its first word, if it has another one.
pub(crate) fn behind_first(line: &str) -> Option<&str>
    ensures { option_map (λ x. x.now) result ≡ behind_first line.now }
{
    match line.split_once(' ') {
        Some((_, rest)) => Some(rest),
        None => None,
    }
}

/// The line behind so many words.
#[tactic(auto, using(crate::proofs::ReadingLemmas::behind_step))]
pub(crate) fn behind(line: &str, count: usize) -> Option<&str>
    ensures { option_map (λ x. x.now) result ≡ behind count line.now }
{
    let mut rest = line;
    for at in 0..count {
        match behind_first(rest) {
            Some(next) => rest = next,
            None => return None,
        }
    }
    Some(rest)
}

/// A word by its number.
fn word_at<'a>(words: &[&'a str], at: usize) -> Option<&'a str>
    ensures { option_map (λ x. x.now) result ≡ slice_get (map (λ x. x.now) words.now) at }
{
    words.get(at).copied()
}

/// Where a word stands among others.
pub(crate) fn word_place(words: &[&str], word: &str) -> Option<usize>
    ensures { result ≡ word_place word.now (map (λ x. x.now) words.now) }
{
    words.iter().position(|other| *other == word)
}

/// The word so many words behind another one.
fn word_behind<'a>(words: &[&'a str], word: &str, count: usize) -> Option<&'a str>
    ensures { option_map (λ x. x.now) result
        ≡ option_and_then (λ at. slice_get (map (λ x. x.now) words.now) (at + count))
        (word_place word.now (map (λ x. x.now) words.now)) }
{
    match word_place(words, word) {
        Some(at) => word_at(words, at.saturating_add(count)),
        None => None,
    }
}

/// What stands at a place of a line with these words.
pub(crate) fn text_at<'a>(line: &'a str, words: &[&'a str], place: WordPlace) -> Option<&'a str>
    ensures { option_map (λ x. x.now) result ≡ found place line.now (map (λ x. x.now) words.now) }
{
    match place {
        WordPlace::Word(at) => word_at(words, at),
        WordPlace::Behind(word, count) => word_behind(words, word, count),
        WordPlace::Rest(count) => behind(line, count),
        WordPlace::Fixed(text) => Some(text),
    }
}
