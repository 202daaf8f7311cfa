//! What an operator's line asks for.

ghost use Rattle.std.specs.Prelude.{◌≡◌, ◌≢◌, Err};
ghost use Rattle.desk_text.specs.Words.{Gives, words_in};
ghost use Rattle.desk_text.specs.Calls.{spoken_call, spoken_words};
ghost use Rattle.operator_lines.specs.Operators.{
  alone_in,
  asked_call,
  asked_in,
  asked_of,
  asked_own,
  asks,
  begins_group,
  is_operator_name,
  is_printed,
  lease_in,
  lease_of,
  most_in,
  name_in,
  named_in,
  topic_in,
};

use crate::line_desk::{LeaseAsk, View};
use crate::own::{Own, parse_own};
use crate::topic::{Topic, parse_topic};
use desk_edit::Call;
use desk_text::{Fault, ParseFault, end_of_words, first_word, next_word, parse_desk, parse_number};
use std::alloc::{Allocator, Global};

/// The most octets of a name.
const NAME_LIMIT: usize = 64;

/// The most milliseconds of a lease: 49 days.
const LEASE_LIMIT: u64 = 4_294_967_295;

/// What a line of an operator asks for.
#[derive(Drop)]
pub(crate) enum LineAsk<'l, A: Allocator + Copy = Global> {
    Call(Call<A>),
    /// This name for the connection.
    Name(&'l [u8]),
    Verb(Verb),
}

/// What a line asks for without octets of its own.
#[derive(Clone, Copy)]
pub(crate) enum Verb {
    /// This, to be shown.
    Show(View),
    /// The last accepted calls.
    Calls {
        /// How many at most.
        most: u64,
    },
    /// A watch.
    Watch {
        /// Whether it tells moments and names.
        is_named: bool,
    },
    /// The lease.
    Lease {
        /// What of it.
        ask: LeaseAsk,
    },
    /// The forms of lines, or one of them.
    Help {
        /// Which.
        topic: Option<Topic>,
    },
    /// The end of the connection.
    Quit,
    /// The end of the bridge.
    Stop,
}

/// Whether each octet is one that a line may hold.
pub(crate) fn is_printed(line: &[u8]) -> bool
    ensures { result ≡ is_printed line.now }
{
    line.iter().all(|octet| 32 <= *octet && *octet <= 126)
}

/// How many calls at most these words ask for, which stand behind a line's first.
#[tactic(auto, unfolding(crate::specs::Operators::most_in))]
fn most(words: Option<&[u8]>) -> Result<u64, ParseFault>
    ensures read { Gives (λ most. most) result (most_in (words_in words.entry)) }
    ensures memory { result ≢ Err ParseFault.OutOfMemory }
{
    let Some(text) = words else {
        return Ok(u64::MAX);
    };
    let (word, behind) = first_word(text);
    let Some(most) = parse_number(word, u64::MAX) else {
        return Err(Fault::BadNumber.at(2));
    };
    end_of_words(behind, 3)?;
    Ok(most)
}

/// Whether these words ask for moments and names.
#[tactic(auto, unfolding(crate::specs::Operators::named_in))]
fn named(words: Option<&[u8]>) -> Result<bool, ParseFault>
    ensures read { Gives (λ is_named. is_named) result (named_in (words_in words.entry)) }
    ensures memory { result ≢ Err ParseFault.OutOfMemory }
{
    let Some(text) = words else {
        return Ok(false);
    };
    let (word, behind) = first_word(text);
    if word != b"names".as_slice() {
        return Err(Fault::ExtraWord.at(2));
    }
    end_of_words(behind, 3)?;
    Ok(true)
}

/// Whether a word can be a name.
fn is_operator_name(word: &[u8]) -> bool
    ensures { result ≡ is_operator_name word.now }
{
    !word.is_empty() && word.len() <= NAME_LIMIT
}

/// The name that these words are.
#[tactic(auto, unfolding(crate::specs::Operators::name_in))]
fn name(words: Option<&[u8]>) -> Result<&[u8], ParseFault>
    ensures read { Gives (λ name. name.now) result (name_in (words_in words.entry)) }
    ensures memory { result ≢ Err ParseFault.OutOfMemory }
{
    let (word, behind) = next_word(words, 2)?;
    if !is_operator_name(word) {
        return Err(Fault::UnknownWord.at(2));
    }
    end_of_words(behind, 3)?;
    Ok(word)
}

/// What of the lease a word asks for.
fn lease_of(word: &[u8]) -> Option<LeaseAsk>
    ensures { result ≡ lease_of word.now }
{
    if word == b"off".as_slice() {
        return Some(LeaseAsk::Off);
    }
    match parse_number(word, LEASE_LIMIT) {
        Some(milliseconds) => Some(LeaseAsk::Lasts { milliseconds }),
        None => None,
    }
}

/// What of the lease these words ask for.
#[tactic(auto, unfolding(crate::specs::Operators::lease_in))]
fn lease(words: Option<&[u8]>) -> Result<LeaseAsk, ParseFault>
    ensures read { Gives (λ ask. ask) result (lease_in (words_in words.entry)) }
    ensures memory { result ≢ Err ParseFault.OutOfMemory }
{
    let Some(text) = words else {
        return Ok(LeaseAsk::Tell);
    };
    let (word, behind) = first_word(text);
    match lease_of(word) {
        Some(ask) => {
            end_of_words(behind, 3)?;
            Ok(ask)
        }
        None => Err(Fault::BadNumber.at(2)),
    }
}

/// Which line these words ask about.
#[tactic(auto, unfolding(crate::specs::Operators::topic_in))]
fn topic(words: Option<&[u8]>) -> Result<Option<Topic>, ParseFault>
    ensures read { Gives (λ topic. topic) result (topic_in (words_in words.entry)) }
    ensures memory { result ≢ Err ParseFault.OutOfMemory }
{
    let Some(text) = words else {
        return Ok(None);
    };
    let (word, behind) = first_word(text);
    let Some(topic) = parse_topic(word) else {
        return Err(Fault::UnknownWord.at(2));
    };
    end_of_words(behind, 3)?;
    Ok(Some(topic))
}

/// This, where no word stands behind the first.
#[tactic(auto, unfolding(crate::specs::Operators::alone_in))]
fn alone<'l, A: Allocator + Copy>(
    verb: Verb,
    words: Option<&[u8]>,
) -> Result<LineAsk<'l, A>, ParseFault>
    ensures asked { Gives asks result (alone_in verb (words_in words.entry)) }
    ensures memory { result ≢ Err ParseFault.OutOfMemory }
{
    end_of_words(words, 2)?;
    Ok(LineAsk::Verb(verb))
}

/// What a line asks that begins so, with these words behind its first.
#[tactic(auto, unfolding(crate::specs::Operators::asked_own))]
fn asked_own<'l, A: Allocator + Copy>(
    own: Own,
    words: Option<&'l [u8]>,
) -> Result<LineAsk<'l, A>, ParseFault>
    ensures asked { Gives asks result (asked_own own (words_in words.entry)) }
    ensures memory { result ≢ Err ParseFault.OutOfMemory }
{
    match own {
        Own::Show => alone(Verb::Show(View::Rows), words),
        Own::Groups => alone(Verb::Show(View::Groups), words),
        Own::History => {
            let most = most(words)?;
            Ok(LineAsk::Verb(Verb::Show(View::History { most })))
        }
        Own::Calls => {
            let most = most(words)?;
            Ok(LineAsk::Verb(Verb::Calls { most }))
        }
        Own::Stats => alone(Verb::Show(View::Stats), words),
        Own::Levels => alone(Verb::Show(View::Levels), words),
        Own::Watch => {
            let is_named = named(words)?;
            Ok(LineAsk::Verb(Verb::Watch { is_named }))
        }
        Own::As => {
            let name = name(words)?;
            Ok(LineAsk::Name(name))
        }
        Own::Lease => Ok(LineAsk::Verb(Verb::Lease { ask: lease(words)? })),
        Own::Why => alone(Verb::Show(View::Why), words),
        Own::Help => {
            let topic = topic(words)?;
            Ok(LineAsk::Verb(Verb::Help { topic }))
        }
        Own::Quit => alone(Verb::Quit, words),
        Own::Stop => alone(Verb::Stop, words),
    }
}

/// The call that a line is. Only a group takes memory.
fn call<'l, A: Allocator + Copy>(alloc: A, line: &[u8]) -> Result<LineAsk<'l, A>, ParseFault>
    ensures call { Gives asks result (asked_call (spoken_call line.now)) }
    ensures memory { result ≡ Err ParseFault.OutOfMemory → begins_group line.now }
{
    match parse_desk(alloc, line) {
        Ok(call) => Ok(LineAsk::Call(call)),
        Err(fault) => Err(fault),
    }
}

/// What the words of a line ask for. Only a group takes memory.
fn words<'l, A: Allocator + Copy>(alloc: A, line: &'l [u8]) -> Result<LineAsk<'l, A>, ParseFault>
    ensures asked { Gives asks result (asked_in (spoken_words line.now) (asked_call (spoken_call line.now))) }
    ensures memory { result ≡ Err ParseFault.OutOfMemory → begins_group line.now }
{
    if line.is_empty() {
        return call(alloc, line);
    }
    let (word, behind) = first_word(line);
    match parse_own(word) {
        Some(own) => asked_own(own, behind),
        None => call(alloc, line),
    }
}

/// What a line asks for, or its first fault. Only a group takes memory.
#[tactic(auto, unfolding(crate::specs::Operators::asked_of))]
pub(crate) fn parse_line<'l, A: Allocator + Copy>(
    alloc: A,
    line: &'l [u8],
) -> Result<LineAsk<'l, A>, ParseFault>
    ensures asked { Gives asks result (asked_of line.now) }
    ensures memory { result ≡ Err ParseFault.OutOfMemory → begins_group line.now }
{
    if !is_printed(line) {
        return Err(ParseFault::Line {
            word: 0,
            fault: Fault::BadByte,
        });
    }
    words(alloc, line)
}
