//! Calls that another person's call comes before, whether the desk is closed, and which files a folder has.

use crate::request::spoken;
use desk_http::{SeenCall, closed_by, folder_name, newer_call};
use std::alloc::Global;

/// Whether a line of the log comes before a call: `SEEN ; PERSON ; LINE ; LOGGED ; LOGGED ..`, and the line or `none`.
pub fn newer_is(alloc: Global, text: &str, wanted: &str) -> Option<bool> {
    let (seen, rest) = text.split_once(" ; ")?;
    let (person, rest) = rest.split_once(" ; ")?;
    let (line, log) = rest.split_once(" ; ")?;
    let lines: Vec<&str> = log.split(" ; ").collect(alloc).ok()?;
    let call = SeenCall {
        line,
        person: person.as_bytes(),
        seen: seen.parse().ok()?,
    };
    match newer_call(alloc, call, &lines).ok()? {
        Some(found) => Some(found == wanted),
        None => Some(wanted == "none"),
    }
}

/// Whether an answer says that the desk is closed, and who held its lease: a name, or `none`.
pub fn closed_is(alloc: Global, text: &str, wanted: &str) -> Option<bool> {
    let answer = spoken(alloc, text)?;
    match closed_by(&answer) {
        Some(name) => Some(name == wanted.as_bytes()),
        None => Some(wanted == "none"),
    }
}

/// Whether this file of a folder is served at a path: a name, or `none`.
pub fn folder_is(path: &str, wanted: &str) -> Option<bool> {
    match folder_name(path.as_bytes()) {
        Some(name) => Some(name == wanted.as_bytes()),
        None => Some(wanted == "none"),
    }
}
