//! Which word of a line is wrong, and what may stand there.

ghost use Rattle.std.specs.Prelude.{◌≡◌, codes, drop, IfOk};
ghost use Rattle.std.specs.List.{find};
ghost use Rattle.std.specs.Option.{option_map};
ghost use Rattle.desk_text.specs.Calls.{spoken_call};
ghost use Rattle.desk_text.specs.Words.{words_in};
ghost use Rattle.operator_lines.specs.Why.{first_or, word_behind, topic_at, command_from, is_free, is_exists};
ghost use Rattle.operator_lines.specs.Why.{has_number, blame_in, blamed_by, wrong_word, place_at, stands_at, meant_at};

use crate::form_word::FormWord;
use crate::topic::{Topic, parse_topic};
use crate::trouble::Wrong;
use desk_edit::{Call, Command, Refusal};
use desk_rows::Rows;
use desk_text::{Head, ParseFault, first_word, parse_desk};
use std::alloc::{AllocError, Global};

/// The place of the word that is an address or an index.
const OTHER_WORD: u32 = 4;

/// What is left of a line behind its next word.
fn behind_next(left: Option<&[u8]>) -> Option<&[u8]>
    ensures { words_in result ≡ drop 1 (words_in left.entry) }
{
    match left {
        None => None,
        Some(text) => first_word(text).1,
    }
}

/// The next word of what is left of a line, or a `-`.
fn next_or_none(left: Option<&[u8]>) -> &[u8]
    ensures { result.now ≡ first_or (codes "-") (words_in left.entry) }
{
    match left {
        None => b"-",
        Some(text) => first_word(text).0,
    }
}

/// The word behind so many others, or a `-`.
pub(crate) fn word_behind(line: &[u8], count: u32) -> &[u8]
    ensures { result.now ≡ word_behind count line.now }
{
    let mut left = Some(line);
    for _ in 0..count {
        left = behind_next(left);
    }
    next_or_none(left)
}

/// What a line is, by its first word.
pub(crate) fn topic_at(line: &[u8]) -> Option<Topic>
    ensures { result ≡ topic_at line.now }
{
    parse_topic(word_behind(line, 0))
}

/// The command that a line is, if it is one alone. Only a group takes memory.
pub(crate) fn command_in(alloc: Global, line: &[u8]) -> Result<Option<Command>, AllocError>
    ensures { IfOk result (λ command. command ≡ command_from (spoken_call line.now)) }
{
    match parse_desk(alloc, line) {
        Ok(Call::Apply(command)) => Ok(Some(command)),
        Ok(Call::Group(_) | Call::Undo { .. } | Call::Redo { .. } | Call::Revert { .. }) => Ok(
            None,
        ),
        Err(ParseFault::Line { .. }) => Ok(None),
        Err(ParseFault::OutOfMemory) => Err(AllocError),
    }
}

/// Whether the number that a command adds is free.
pub(crate) fn is_free(rows: &Rows, command: Option<Command>) -> bool
    ensures { result ≡ is_free rows.now command }
{
    match command {
        Some(Command::AddMember(member)) => rows.member(member.member).is_none(),
        Some(Command::AddSlot(slot)) => rows.slot(slot.out_ssrc).is_none(),
        _ => false,
    }
}

/// Whether a refusal says that something exists.
fn is_exists(refusal: Refusal) -> bool
    ensures { result ≡ is_exists refusal }
{
    match refusal {
        Refusal::Exists => true,
        _ => false,
    }
}

/// Whether a refusal of a line has this number.
fn has_number(blame: &(Refusal, u32), number: u16) -> bool
    ensures { result ≡ has_number number blame.now }
{
    blame.0.told().number == number
}

/// The first of these refusals that has a number.
fn first_of(blames: &[(Refusal, u32)], number: u16) -> Option<&(Refusal, u32)>
    ensures { option_map (λ b. b.now) result ≡ find (has_number number) blames.now }
{
    blames.iter().find(|blame| has_number(blame, number))
}

/// A refusal among those that `help` tells of a line.
fn blame_in(topic: Option<Topic>, refusal: Refusal) -> Option<&'static (Refusal, u32)>
    ensures { option_map (λ b. b.now) result ≡ blame_in topic refusal }
{
    match topic {
        None => None,
        Some(topic) => first_of(topic.blames(), refusal.told().number),
    }
}

/// The place of the word that a refusal of a line is about, or 0.
fn blamed_word(line: &[u8], refusal: Refusal) -> u32
    ensures { result ≡ blamed_by (blame_in (topic_at line.now) refusal) }
{
    match blame_in(topic_at(line), refusal) {
        None => 0,
        Some(blame) => blame.1,
    }
}

/// The place of the word that is wrong, from 1; 0 is none.
pub(crate) fn wrong_word(is_free: bool, line: &[u8], wrong: Wrong) -> u32
    ensures { result ≡ wrong_word is_free line.now wrong }
{
    match wrong {
        Wrong::Faulty { word, .. } => word,
        Wrong::Refused { refusal } => {
            if is_free && is_exists(refusal) {
                OTHER_WORD
            } else {
                blamed_word(line, refusal)
            }
        }
        Wrong::Taken | Wrong::Closed => 0,
    }
}

/// What the word behind so many others is, the first one not counted.
fn place_at(topic: Topic, behind: usize) -> Option<FormWord>
    ensures { result ≡ place_at topic behind }
{
    match topic {
        Topic::Head(Head::Group) => Some(FormWord::Commands),
        _ => topic.places().get(behind).copied(),
    }
}

/// What may stand at a place.
fn stands_at(place: Option<FormWord>) -> &'static [u8]
    ensures { result.now ≡ stands_at place }
{
    match place {
        Some(place) => place.text(),
        None => b"nothing: the line ends before it",
    }
}

/// What may stand at a place of such a line, from 1.
pub(crate) fn meant_at(topic: Option<Topic>, place: u32) -> &'static [u8]
    ensures { result.now ≡ meant_at topic place }
{
    match topic {
        None => b"the first word of a line: `help` tells all of them",
        Some(topic) => {
            if place < 2 {
                b"the first word of a line: `help` tells all of them"
            } else {
                stands_at(place_at(topic, (place - 2) as usize))
            }
        }
    }
}
