//! The refusals of commands, in the order of their numbers.

ghost use Rattle.std.specs.Prelude.{◌≡◌, None, Some, ◌<◌, ◌^◌, ◌∷◌, []};
ghost use Rattle.std.specs.Option.{option_or};
ghost use Rattle.desk_rows.specs.Few.{listed};
ghost use Rattle.desk_rows.specs.Row.{names};
ghost use Rattle.desk_edit.specs.Refusals.{missing, table_of, has, is_full, first_case, lacking, rule_cases};
ghost use Rattle.desk_edit.specs.Refusals.{full_cases, audio_cases, rate_cases};
ghost use Rattle.desk_edit.specs.Refusals.{put_cases, remove_cases, move_cases, cases_of};
ghost use Rattle.desk_edit.specs.Refusals.{reason_against};

use crate::asking::{
    count_audio_in, count_audio_of, has, is_mismatch, is_there, is_wrong_kind, keeps_rate,
    room_is_full, room_of_member, ssrc_is_taken,
};
use crate::command::{Command, Form};
use crate::refusal::{Reason, Table};
use desk_rows::{
    Few, Key, Kind, MAX_GAINS, MAX_MEMBERS, MAX_ROOM_AUDIO, MAX_ROOMS, MAX_SLOTS, MAX_SOURCES,
    Media, Row, Rows, are_together, room_of,
};
use std::alloc::Allocator;

/// The reason if a row of this kind is missing.
fn missing(kind: Kind) -> Reason
    ensures { result ≡ missing kind }
{
    match kind {
        Kind::Room => Reason::NoRoom,
        Kind::Member => Reason::NoMember,
        Kind::Source => Reason::NoSource,
        Kind::Slot => Reason::NoSlot,
        Kind::Sub | Kind::Mute | Kind::Gain | Kind::Pin | Kind::Floor => Reason::NotThere,
    }
}

/// The first of two.
fn or_next(first: Option<Reason>, next: Option<Reason>) -> Option<Reason>
    ensures { result ≡ option_or first next }
{
    match first {
        Some(why) => Some(why),
        None => next,
    }
}

fn lacks<A: Allocator + Copy>(rows: &Rows<A>, key: Key) -> Option<Reason>
    ensures { result ≡ first_case (lacking rows.now (key ∷ [])) }
{
    if has(rows, key) {
        None
    } else {
        Some(missing(key.kind()))
    }
}

/// The reason against the first of these rows that is missing.
fn lacks_any<A: Allocator + Copy>(rows: &Rows<A>, names: Few<Key>) -> Option<Reason>
    ensures { result ≡ first_case (lacking rows.now (listed names)) }
{
    match names {
        Few::Nothing => None,
        Few::One(key) => lacks(rows, key),
        Few::Two(key, other) => or_next(lacks(rows, key), lacks(rows, other)),
    }
}

/// The reason against a row if all rows that it names exist.
// A slot may be subscribed to a source of its own member: no rule of the desk is broken, and the slot shows nothing.
#[tactic(auto, unfolding(crate::specs::Refusals::rule_cases))]
fn breaks_rules<A: Allocator + Copy>(rows: &Rows<A>, row: &Row) -> Option<Reason>
    ensures { result ≡ first_case (rule_cases rows.now row.now) }
{
    if is_wrong_kind(rows, row) {
        return Some(Reason::WrongKind);
    }
    if !are_together(rows, row) {
        return Some(Reason::OtherRoom);
    }
    if ssrc_is_taken(rows, row) {
        return Some(Reason::SsrcTaken);
    }
    if !row.is_in_range() {
        return Some(Reason::BadValue);
    }
    if rows.holds(row) {
        return Some(Reason::Already);
    }
    None
}

/// Whether a new row would exceed the limit of its kind.
fn is_full<A: Allocator + Copy>(rows: &Rows<A>, row: &Row, kind: Kind, limit: usize) -> bool
    ensures { result ≡ is_full rows.now row.now (kind, limit) }
{
    row.is_of(kind) && (!has(rows, row.key()) && rows.count(kind) >= limit)
}

fn full(table: Table, limit: usize) -> Option<Reason>
    requires { limit < 2 ^ 32 }
    ensures { result ≡ Some (Reason.Full table limit) }
{
    Some(Reason::Full {
        table,
        limit: limit as u32,
    })
}

/// The reason against a row whose table is full.
fn fills_table<A: Allocator + Copy>(rows: &Rows<A>, row: &Row) -> Option<Reason>
    ensures { result ≡ first_case (full_cases rows.now row.now) }
{
    if is_full(rows, row, Kind::Room, MAX_ROOMS) {
        return full(Table::Rooms, MAX_ROOMS);
    }
    if is_full(rows, row, Kind::Member, MAX_MEMBERS) {
        return full(Table::Members, MAX_MEMBERS);
    }
    if is_full(rows, row, Kind::Source, MAX_SOURCES) {
        return full(Table::Sources, MAX_SOURCES);
    }
    if is_full(rows, row, Kind::Slot, MAX_SLOTS) {
        return full(Table::Slots, MAX_SLOTS);
    }
    if is_full(rows, row, Kind::Gain, MAX_GAINS) {
        return full(Table::Gains, MAX_GAINS);
    }
    None
}

/// The reason against an audio source whose room has as many as it may have.
fn fills_room<A: Allocator + Copy>(rows: &Rows<A>, row: &Row) -> Option<Reason>
    ensures { result ≡ first_case (audio_cases rows.now row.now) }
{
    match row {
        Row::Source(source) => {
            if source.media.is_same(Media::Audio) && room_is_full(rows, room_of(rows, row)) {
                full(Table::RoomAudio, MAX_ROOM_AUDIO)
            } else {
                None
            }
        }
        _ => None,
    }
}

/// The reason against a member whose room doesn't carry its codec.
fn mismatches<A: Allocator + Copy>(rows: &Rows<A>, row: &Row) -> Option<Reason>
    ensures { result ≡ first_case (rate_cases rows.now row.now) }
{
    if is_mismatch(rows, row) {
        Some(Reason::RateMismatch)
    } else {
        None
    }
}

/// The first reason against putting a row.
fn against_put<A: Allocator + Copy>(rows: &Rows<A>, row: &Row) -> Option<Reason>
    ensures { result ≡ first_case (put_cases rows.now row.now) }
{
    if is_there(rows, row) {
        return Some(Reason::Exists);
    }
    let last = or_next(fills_room(rows, row), mismatches(rows, row));
    let full = or_next(fills_table(rows, row), last);
    or_next(
        lacks_any(rows, row.names()),
        or_next(breaks_rules(rows, row), full),
    )
}

/// The first reason against removing the row of this key.
fn against_removal<A: Allocator + Copy>(rows: &Rows<A>, key: Key) -> Option<Reason>
    ensures { result ≡ first_case (remove_cases rows.now key) }
{
    let owner = key.owner();
    if !has(rows, owner) {
        return Some(missing(owner.kind()));
    }
    if !has(rows, key) {
        return Some(Reason::NotThere);
    }
    None
}

/// The first reason against moving a member to a room.
fn against_move<A: Allocator + Copy>(rows: &Rows<A>, member: u32, room: u32) -> Option<Reason>
    ensures { result ≡ first_case (move_cases rows.now member room) }
{
    if !has(rows, Key::Room(room)) {
        return Some(Reason::NoRoom);
    }
    if !has(rows, Key::Member(member)) {
        return Some(Reason::NoMember);
    }
    if room_of_member(rows, member) == Some(room) {
        return Some(Reason::Already);
    }
    if count_audio_in(rows, room) + count_audio_of(rows, member) > MAX_ROOM_AUDIO {
        return full(Table::RoomAudio, MAX_ROOM_AUDIO);
    }
    if !keeps_rate(rows, member, room) {
        return Some(Reason::RateMismatch);
    }
    None
}

/// The first reason against a command. Out of memory is none of them.
#[tactic(auto, unfolding(crate::specs::Refusals::reason_against))]
pub(crate) fn reason_against<A: Allocator + Copy>(
    rows: &Rows<A>,
    command: &Command,
) -> Option<Reason>
    ensures { result ≡ reason_against rows.now command.now }
{
    match command.form() {
        Form::Put(row) => against_put(rows, &row),
        Form::Remove(key) => against_removal(rows, key),
        Form::Move { member, room } => against_move(rows, member, room),
    }
}
