//! The first line of a script, which may say who the bridge is.

ghost use Rattle.std.specs.Prelude.{◌≡◌, true, IfOk};
ghost use Rattle.ingress.specs.Names.{is_name};
ghost use Rattle.desk_text.specs.Words.{Gives, words_in};
ghost use Rattle.script_text.specs.FirstLine.{asker_of, renews_of, bridge_of};
ghost use Rattle.script_text.specs.inner.Cursor.{asker_in, begin_of};

use crate::bridge_line::BridgeLine;
use bridge_core::Settings;
use bytes::Bytes;
use desk_text::{Fault, ParseFault, end_of_words, first_word, next_word, parse_number};
use std::alloc::Allocator;

/// The settings of this SSRC and of the name that the word at place 3 is.
fn settings<A: Allocator + Copy>(
    alloc: A,
    ssrc: u32,
    word: &[u8],
) -> Result<Settings<A>, ParseFault>
    ensures asker { Gives asker_in result (asker_of ssrc word.now) }
    ensures named { IfOk result (λ s. is_name s.cname ≡ true) }
{
    let settings = Settings {
        bridge_ssrc: ssrc,
        cname: Bytes::copy_from_slice(alloc, word)?,
    };
    if !settings.is_good() {
        return Err(Fault::UnknownWord.at(3));
    }
    Ok(settings)
}

/// Whether jitter buffers begin anew, by the words from place 4 on.
fn renews(words: Option<&[u8]>) -> Result<bool, ParseFault>
    ensures { Gives (λ x. x) result (renews_of (words_in words.entry)) }
{
    let Some(text) = words else {
        return Ok(false);
    };
    let (word, rest) = first_word(text);
    if word != b"renew".as_slice() {
        return Err(Fault::UnknownWord.at(4));
    }
    end_of_words(rest, 5)?;
    Ok(true)
}

/// Who the bridge is, and how it begins, by the words from place 2 on.
#[tactic(auto, unfolding(crate::specs::FirstLine::bridge_of))]
pub(crate) fn read_bridge_line<A: Allocator + Copy>(
    alloc: A,
    words: Option<&[u8]>,
) -> Result<BridgeLine<A>, ParseFault>
    ensures { Gives begin_of result (bridge_of (words_in words.entry)) }
{
    let (word, rest) = next_word(words, 2)?;
    let Some(ssrc) = parse_number(word, 4_294_967_295) else {
        return Err(Fault::BadNumber.at(2));
    };
    let (word, rest) = next_word(rest, 3)?;
    let settings = settings(alloc, ssrc as u32, word)?;
    let renews = renews(rest)?;
    Ok(BridgeLine { settings, renews })
}
