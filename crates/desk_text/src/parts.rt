//! The parts of a group: its words, cut at each word `/`.

ghost use Rattle.std.specs.Prelude.{◌≡◌, ◌+◌, ◌≤◌, ◌∷◌, length, take, drop};
ghost use Rattle.std.specs.List.{slice_split};
ghost use Rattle.desk_text.specs.Words.{words_of, words_in, size_of};
ghost use Rattle.desk_text.specs.Calls.{is_slash};
ghost use Rattle.desk_text.specs.inner.Parts.{parts_in, size_of_parts};

use crate::words::{LINE_LIMIT, first_word};

/// One part of a group.
#[derive(Clone, Copy)]
pub(crate) struct GroupPart<'a> {
    /// The text of its words, if it has any.
    pub words: Option<&'a [u8]>,
    /// How many words it has.
    pub count: u32,
    /// The words behind the `/` that ends it. `None` is the last part.
    pub later: Option<Option<&'a [u8]>>,
}

/// The first words of a text: how many they are, and the octet at which the next one begins.
fn front(text: &[u8], count: u32, at: usize) -> Option<&[u8]>
    requires next { drop count (words_of text.now) ≡ words_of (drop at text.now) }
    requires count { count ≤ at }
    requires inside { at ≤ length text.now }
    ensures { words_in result ≡ take count (words_of text.now) }
{
    if count == 0 {
        None
    } else {
        Some(&text[..at - 1])
    }
}

/// The first part of a text's words.
fn text_part(text: &[u8]) -> GroupPart<'_>
    requires { length text.now ≤ LINE_LIMIT }
    ensures parts { slice_split is_slash (words_of text.now) ≡ words_in result.words ∷ parts_in result.later }
    ensures count { result.count ≡ length (words_in result.words) }
    ensures shorter { result.count + size_of_parts result.later ≤ length text.now + 1 }
{
    let mut at = 0;
    let mut count = 0;
    loop {
        let (word, rest) = first_word(&text[at..]);
        if word == b"/".as_slice() {
            return GroupPart {
                words: front(text, count, at),
                count,
                later: Some(rest),
            };
        }
        count += 1;
        match rest {
            None => {
                return GroupPart {
                    words: Some(text),
                    count,
                    later: None,
                };
            }
            Some(_) => at += word.len() + 1,
        }
    }
}

/// The first part of a group's words.
pub(crate) fn first_part(words: Option<&[u8]>) -> GroupPart<'_>
    requires { size_of words ≤ LINE_LIMIT + 1 }
    ensures parts { slice_split is_slash (words_in words.entry) ≡ words_in result.words ∷ parts_in result.later }
    ensures count { result.count ≡ length (words_in result.words) }
    ensures shorter { result.count + size_of_parts result.later ≤ size_of words.entry }
{
    match words {
        None => GroupPart {
            words: None,
            count: 0,
            later: None,
        },
        Some(text) => text_part(text),
    }
}
