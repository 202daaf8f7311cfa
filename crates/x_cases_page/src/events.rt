//! The stream of events: its head, its events, and what browsers are told of a desk that has changed.

use crate::request::{octets_of, spoken};
use desk_http::{
    TextEdit, admits_stream, append_event, edit_between, keeps_up, known_lines, stream_head,
};
use std::alloc::Global;

/// Whether the head of a stream has this text.
pub fn head_has(wanted: &str) -> Option<bool> {
    Some(str::from_utf8(stream_head()).ok()?.contains(wanted))
}

/// Whether an event is these octets: `NAME ; TEXT`.
pub fn event_is(alloc: Global, text: &str, wanted: &str) -> Option<bool> {
    let (name, told) = text.split_once(" ; ")?;
    let mut out = Vec::new(alloc);
    append_event(&mut out, name.as_bytes(), &spoken(alloc, told)?).ok()?;
    Some(out == spoken(alloc, wanted)?)
}

fn is_edit(edit: TextEdit, wanted: &str) -> Option<bool> {
    let (start, rest) = wanted.split_once(" ")?;
    let (removed, inserted) = rest.split_once(" ")?;
    Some(
        edit.start == start.parse::<usize>().ok()?
            && edit.removed == removed.parse::<usize>().ok()?
            && edit.inserted == inserted.parse::<usize>().ok()?,
    )
}

/// Whether this turns a text into another one: `TEXT ; TEXT`, and `START REMOVED INSERTED`.
pub fn edit_is(alloc: Global, text: &str, wanted: &str) -> Option<bool> {
    let (before, after) = text.split_once(" ; ")?;
    let (before, after) = (octets_of(alloc, before)?, octets_of(alloc, after)?);
    is_edit(edit_between(&before, &after), wanted)
}

/// Whether so many lines are known by the one that is named first: `LINE ; LINE ; LINE ..`.
pub fn are_known(alloc: Global, text: &str, wanted: &str) -> Option<bool> {
    let (line, rest) = text.split_once(" ; ")?;
    let lines: Vec<&str> = rest.split(" ; ").collect(alloc).ok()?;
    let count = known_lines(line, &lines);
    Some(count == wanted.parse::<usize>().ok()?)
}

/// Whether one more browser may have the stream where so many have it.
pub fn may_stream(text: &str, wanted: &str) -> Option<bool> {
    Some(admits_stream(text.parse::<usize>().ok()?) == (wanted == "yes"))
}

/// Whether a browser with so many unread octets keeps its stream.
pub fn may_lag(text: &str, wanted: &str) -> Option<bool> {
    Some(keeps_up(text.parse::<usize>().ok()?) == (wanted == "yes"))
}
