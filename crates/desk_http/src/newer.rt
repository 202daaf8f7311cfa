//! Which call of another person came first, by the rows that two calls are about.

ghost use Rattle.std.specs.Prelude.{◌≡◌, IfOk, map, option_map};
ghost use Rattle.desk_http.specs.Newer.{
  is_turn,
  is_of_source,
  is_of_member,
  is_of_slot,
  room_subject,
  subject_of,
  holder_of,
  named_word,
  names_same,
  is_same_row,
  is_brought_to,
  is_touched,
  parts_of,
  command_of,
  is_touched_by,
  are_touched_by,
  meets,
  is_after,
  meets_logged,
  is_others_since,
  is_newer,
  newer_call,
};

use crate::reading::{behind, behind_first, leading_word};
use crate::version::version_of;
use std::alloc::{AllocError, Global};

/// A call whose person says which desk it is for.
#[derive(Clone, Copy)]
pub struct SeenCall<'a> {
    /// Its line.
    pub line: &'a str,
    /// Who gives it.
    pub person: &'a [u8],
    /// The version of the desk that the person saw.
    pub seen: u64,
}

/// Whether a word takes calls back, or does them again.
fn is_turn(word: &str) -> bool
    ensures { result ≡ is_turn word.now }
{
    word == "undo" || word == "redo" || word == "revert"
}

fn is_of_source(word: &str) -> bool
    ensures { result ≡ is_of_source word.now }
{
    word == "add-source" || word == "remove-source" || word == "mute" || word == "unmute"
}

fn is_of_member(word: &str) -> bool
    ensures { result ≡ is_of_member word.now }
{
    word == "add-member" || word == "move-member" || word == "remove-member"
}

fn is_of_slot(word: &str) -> bool
    ensures { result ≡ is_of_slot word.now }
{
    word == "add-slot" || word == "remove-slot" || word == "subscribe" || word == "unsubscribe"
}

/// What a command with this first word is about of a room, or nothing.
fn room_subject(word: &str) -> &'static str
    ensures { result.now ≡ room_subject word.now }
{
    if word == "add-room" || word == "remove-room" {
        "room"
    } else if word == "pin" || word == "unpin" {
        "pin"
    } else if word == "give-floor" || word == "take-floor" {
        "floor"
    } else {
        ""
    }
}

/// What kind of row a command with this first word is about, or nothing.
fn subject_of(word: &str) -> &'static str
    ensures { result.now ≡ subject_of word.now }
{
    if is_of_source(word) {
        "source"
    } else if is_of_member(word) {
        "member"
    } else if is_of_slot(word) {
        "slot"
    } else if word == "set-gain" {
        "gain"
    } else {
        room_subject(word)
    }
}

/// What kind of row the second word names of a command that brings something there, or nothing.
fn holder_of(word: &str) -> &'static str
    ensures { result.now ≡ holder_of word.now }
{
    if word == "add-member" || word == "move-member" {
        "room"
    } else if word == "add-source" || word == "add-slot" {
        "member"
    } else {
        ""
    }
}

/// A word of a command by its number, or nothing.
fn named_word(command: &str, at: usize) -> &str
    ensures { result.now ≡ named_word at command.now }
{
    match behind(command, at) {
        Some(rest) => leading_word(rest),
        None => "",
    }
}

/// Whether two commands about this kind of row name the same one.
fn names_same(subject: &str, command: &str, other: &str) -> bool
    ensures { result ≡ names_same subject.now command.now other.now }
{
    named_word(command, 1) == named_word(other, 1)
        && (subject != "gain" || named_word(command, 2) == named_word(other, 2))
}

/// Whether another command is about the row that this one is about.
fn is_same_row(command: &str, other: &str) -> bool
    ensures { result ≡ is_same_row command.now other.now }
{
    let subject = subject_of(leading_word(command));
    subject != ""
        && subject == subject_of(leading_word(other))
        && names_same(subject, command, other)
}

/// Whether another command brings something to the row that this one is about.
fn is_brought_to(command: &str, other: &str) -> bool
    ensures { result ≡ is_brought_to command.now other.now }
{
    let holder = holder_of(leading_word(other));
    holder != ""
        && subject_of(leading_word(command)) == holder
        && named_word(command, 1) == named_word(other, 2)
}

fn is_touched(command: &str, other: &str) -> bool
    ensures { result ≡ is_touched command.now other.now }
{
    is_same_row(command, other) || is_brought_to(command, other)
}

/// The parts of a call: what stands between slashes.
fn parts_of<'a>(alloc: Global, call: &'a str) -> Result<Vec<&'a str>, AllocError>
    ensures { IfOk result (λ parts. map (λ x. x.now) parts.items ≡ parts_of call.now) }
{
    call.split('/').collect(alloc)
}

/// The command of a part, behind the word or the space that stands in front of it.
fn command_of(part: &str) -> &str
    ensures { result.now ≡ command_of part.now }
{
    let word = leading_word(part);
    if word == "group" || word == "" {
        match behind_first(part) {
            Some(rest) => rest,
            None => part,
        }
    } else {
        part
    }
}

/// Whether one of these parts touches the row that a command is about.
fn is_touched_by(parts: &[&str], command: &str) -> bool
    ensures { result ≡ is_touched_by (map (λ x. x.now) parts.now) command.now }
{
    for part in parts {
        if is_touched(command, command_of(part)) {
            return true;
        }
    }
    false
}

/// Whether one of those parts touches a row that one of these is about.
fn are_touched_by(others: &[&str], parts: &[&str]) -> bool
    ensures { result ≡ are_touched_by (map (λ x. x.now) others.now) (map (λ x. x.now) parts.now) }
{
    for part in parts {
        if is_touched_by(others, command_of(part)) {
            return true;
        }
    }
    false
}

/// Whether another call touches a row that this line is about.
fn meets(alloc: Global, line: &str, call: &str) -> Result<bool, AllocError>
    ensures { IfOk result (λ met. met ≡ meets line.now call.now) }
{
    if is_turn(leading_word(line)) {
        return Ok(false);
    }
    if is_turn(leading_word(call)) {
        return Ok(true);
    }
    let others = parts_of(alloc, call)?;
    let parts = parts_of(alloc, line)?;
    Ok(are_touched_by(&others, &parts))
}

fn is_after(seen: u64, number: Option<u64>) -> bool
    ensures { result ≡ is_after seen number }
{
    match number {
        Some(number) => seen < number,
        None => false,
    }
}

/// Whether the call of a line of the log touches a row of this line.
fn meets_logged(alloc: Global, line: &str, call: Option<&str>) -> Result<bool, AllocError>
    ensures { IfOk result (λ met. met ≡ meets_logged line.now (option_map (λ x. x.now) call.entry)) }
{
    match call {
        Some(call) => meets(alloc, line, call),
        None => Ok(false),
    }
}

/// Whether a line of the log was given after this version by somebody else.
fn is_others_since(seen: u64, person: &[u8], logged: &str) -> bool
    ensures { result ≡ is_others_since seen person.now logged.now }
{
    leading_word(logged) == "call"
        && is_after(seen, version_of(named_word(logged, 1).as_bytes()))
        && named_word(logged, 4).as_bytes() != person
}

/// Whether a line of the log is a newer call that touches a row which this one is about.
fn is_newer(alloc: Global, call: SeenCall<'_>, logged: &str) -> Result<bool, AllocError>
    ensures { IfOk result (λ newer. newer ≡ is_newer call.entry logged.now) }
{
    if is_others_since(call.seen, call.person, logged) {
        meets_logged(alloc, call.line, behind(logged, 5))
    } else {
        Ok(false)
    }
}

/// The first call in the lines of the log by another person, after the version that this call's person saw, that
/// touches a row which this call is about. One that takes calls back touches any row.
pub fn newer_call<'a>(
    alloc: Global,
    call: SeenCall<'_>,
    log: &[&'a str],
) -> Result<Option<&'a str>, AllocError>
    ensures { IfOk result
        (λ found. option_map (λ x. x.now) found ≡ newer_call call.entry (map (λ x. x.now) log.now)) }
{
    for logged in log {
        if is_newer(alloc, call, logged)? {
            return Ok(Some(logged));
        }
    }
    Ok(None)
}
