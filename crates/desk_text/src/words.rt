//! The words of a line, one after another.

ghost use Rattle.std.specs.Prelude.{◌≡◌, ◌≢◌, ◌==◌, ◌≤◌, ◌∷◌, length, position, IfOk};
ghost use Rattle.std.specs.List.{list_all};
ghost use Rattle.std.specs.Option.{option_map};
ghost use Rattle.desk_text.specs.Words.{Gives, cut_of, words_of, word_at, none_left, words_in, size_of};
ghost use Rattle.desk_text.specs.Lines.{is_printable};

use crate::fault::{Fault, ParseFault};

/// How many octets a line may have that hands the lane no item, its CR and LF not counted.
pub const LINE_LIMIT: usize = 65_536;

/// The place of the first such octet.
fn place_of(text: &[u8], octet: u8) -> Option<usize>
    ensures { result ≡ position (λ b. b == octet) text.now }
{
    text.iter().position(|b| *b == octet)
}

/// What stands before and behind the first such octet.
pub fn cut(text: &[u8], octet: u8) -> Option<(&[u8], &[u8])>
    ensures { option_map (λ x. (x.0.now, x.1.now)) result ≡ cut_of octet text.now }
{
    match place_of(text, octet) {
        None => None,
        Some(end) => Some((&text[..end], &text[end + 1..])),
    }
}

/// The first word of a text, and the text behind it, which is `None` behind the last word.
// Each space makes a word, if an empty one, so that the words joined by spaces are the line. That is a law.
pub fn first_word(text: &[u8]) -> (&[u8], Option<&[u8]>)
    ensures words { words_of text.now ≡ result.0.now ∷ words_in result.1 }
    ensures shorter { size_of result.1 ≤ length text.now }
{
    match cut(text, b' ') {
        None => (text, None),
        Some((word, rest)) => (word, Some(rest)),
    }
}

/// The next word, and the text behind it. The word's place is this, from 1.
pub fn next_word(words: Option<&[u8]>, place: u32) -> Result<(&[u8], Option<&[u8]>), ParseFault>
    ensures word { Gives (λ x. (x.0.now, words_in x.1)) result (word_at place (words_in words.entry)) }
    ensures shorter { IfOk result (λ x. size_of x.1 ≤ size_of words.entry) }
    ensures memory { result ≢ Err ParseFault.OutOfMemory }
{
    match words {
        None => Err(Fault::MissingWord.at(place)),
        Some(text) => Ok(first_word(text)),
    }
}

/// Whether one word is left, and no other.
pub(crate) fn is_one_word(words: Option<&[u8]>) -> bool
    ensures { result ≡ (length (words_in words.entry) == 1) }
{
    match words {
        None => false,
        Some(text) => {
            let (_, behind) = first_word(text);
            behind.is_none()
        }
    }
}

/// The end of the line. The place is that of the first word too many.
pub fn end_of_words(words: Option<&[u8]>, place: u32) -> Result<(), ParseFault>
    ensures end { Gives (λ x. x) result (none_left place (words_in words.entry)) }
    ensures memory { result ≢ Err ParseFault.OutOfMemory }
{
    match words {
        None => Ok(()),
        Some(_) => Err(Fault::ExtraWord.at(place)),
    }
}

/// Whether each octet is one that a line may hold.
pub fn is_printable(line: &[u8]) -> bool
    ensures { result ≡ list_all is_printable line.now }
{
    line.iter().all(|b| 32 <= *b && *b <= 126)
}
