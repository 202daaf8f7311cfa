//! The calls that words spell.

ghost use Rattle.std.specs.Prelude.{◌≡◌, ◌≢◌, ◌+◌, ◌≤◌, ◌^◌, ◌∷◌, [], Some, take, codes};
ghost use Rattle.desk_edit.specs.Asked.{asked_by};
ghost use Rattle.desk_text.specs.Words.{Gives, words_in, size_of};
ghost use Rattle.desk_text.specs.inner.Parts.{parts_in, size_of_parts, TakesCommand};
ghost use Rattle.desk_text.specs.Calls.{command_of, commands_of, last_of, headed};
ghost use Rattle.desk_text.specs.Calls.{single, call_of, spoken_words, spoken_call};

use crate::building::command;
use crate::fault::{Fault, ParseFault};
use crate::name::{Head, parse_head};
use crate::parts::first_part;
use crate::reading::read_values;
use crate::value::{Field, u64_at};
use crate::words::{LINE_LIMIT, end_of_words, next_word};
use desk_edit::{Call, Command};
use std::alloc::Allocator;

/// The number of a call, which stands at this place and is the last word.
#[tactic(auto, unfolding(crate::specs::Calls::last_of))]
fn last(place: u32, words: Option<&[u8]>) -> Result<u64, ParseFault>
    requires { place ≤ 4 }
    ensures last { Gives (λ x. x) result (last_of place (words_in words.entry)) }
    ensures memory { result ≢ Err ParseFault.OutOfMemory }
{
    let (values, rest) = read_values(place, &[Field::U64], words)?;
    end_of_words(rest, place + 1)?;
    Ok(u64_at(values.as_slice(), 0))
}

/// Reads the command at this place behind the others.
fn take_command<A: Allocator + Copy>(
    place: u32,
    words: Option<&[u8]>,
    commands: &mut Vec<Command, A>,
) -> Result<(), ParseFault>
    requires { place ≤ 2 ^ 17 }
    ensures { TakesCommand place (words_in words.entry) commands.old.items commands.new.items result }
{
    let command = command(place, words)?;
    match commands.push(command) {
        Ok(()) => Ok(()),
        Err(_) => Err(ParseFault::OutOfMemory),
    }
}

/// The commands of a group, of which the first begins at this place.
// Each part is read as a single command, so one law covers how both are spelled. A whole line is read before the group
// is judged, also where it has more parts than a group may have.
fn commands<A: Allocator + Copy>(
    alloc: A,
    place: u32,
    words: Option<&[u8]>,
) -> Result<Vec<Command, A>, ParseFault>
    requires place { place ≤ 4 }
    requires short { size_of words ≤ LINE_LIMIT + 1 }
    ensures { Gives (λ v. v.items) result (commands_of place (parts_in (Some words.entry))) }
{
    let mut commands = Vec::new(alloc);
    let mut left = Some(words);
    let mut at = place;
    while let Some(rest) = left {
        let part = first_part(rest);
        if let Err(fault) = take_command(at, part.words, &mut commands) {
            return Err(fault);
        }
        at += part.count + 1;
        left = part.later;
    }
    Ok(commands)
}

/// The call of a head with these words behind it. The head stands at this place.
#[tactic(auto, unfolding(crate::specs::Calls::headed))]
fn headed<A: Allocator + Copy>(
    alloc: A,
    head: Head,
    place: u32,
    behind: Option<&[u8]>,
) -> Result<Call<A>, ParseFault>
    requires place { place ≤ 3 }
    requires short { size_of behind ≤ LINE_LIMIT + 1 }
    ensures call { Gives asked_by result (headed head place (words_in behind.entry)) }
    ensures memory { result ≡ Err ParseFault.OutOfMemory → head ≡ Head.Group }
{
    match head {
        Head::Undo => {
            let last = last(place + 1, behind)?;
            Ok(Call::Undo { last })
        }
        Head::Redo => {
            let last = last(place + 1, behind)?;
            Ok(Call::Redo { last })
        }
        Head::Revert => {
            let number = last(place + 1, behind)?;
            Ok(Call::Revert { number })
        }
        Head::Group => {
            let commands = commands(alloc, place + 1, behind)?;
            Ok(Call::Group(commands))
        }
    }
}

/// The call of words that are one command.
#[tactic(auto, unfolding(crate::specs::Calls::single))]
fn single<A: Allocator + Copy>(place: u32, words: Option<&[u8]>) -> Result<Call<A>, ParseFault>
    requires { place ≤ 3 }
    ensures call { Gives asked_by result (single place (words_in words.entry)) }
    ensures memory { result ≢ Err ParseFault.OutOfMemory }
{
    let command = command(place, words)?;
    Ok(Call::Apply(command))
}

/// The call that words spell, of which `base` stand before them on the line.
#[tactic(auto, unfolding(crate::specs::Calls::call_of))]
pub fn read_call<A: Allocator + Copy>(
    alloc: A,
    base: u32,
    words: Option<&[u8]>,
) -> Result<Call<A>, ParseFault>
    requires base { base ≤ 2 }
    requires short { size_of words ≤ LINE_LIMIT + 1 }
    ensures call { Gives asked_by result (call_of base (words_in words.entry)) }
    ensures memory { result ≡ Err ParseFault.OutOfMemory → take 1 (words_in words.entry) ≡ codes "group" ∷ [] }
{
    let (word, behind) = next_word(words, base + 1)?;
    match parse_head(word) {
        None => single(base + 1, words),
        Some(head) => headed(alloc, head, base + 1, behind),
    }
}

/// The call that a text spells: the words behind `desk OP` on a script's line, counted from 1.
///
/// The empty text has no word. A text may be as long as a line. Only a group takes memory.
// Places of words have 32 bits, which a longer text could pass. It is too long a line, so that no caller has to show a
// bound.
pub fn parse_desk<A: Allocator + Copy>(alloc: A, text: &[u8]) -> Result<Call<A>, ParseFault>
    ensures call { Gives asked_by result (spoken_call text.now) }
    ensures memory { result ≡ Err ParseFault.OutOfMemory → take 1 (spoken_words text.now) ≡ codes "group" ∷ [] }
{
    if text.len() > LINE_LIMIT {
        Err(Fault::LineTooLong.at(0))
    } else if text.is_empty() {
        read_call(alloc, 0, None)
    } else {
        read_call(alloc, 0, Some(text))
    }
}
