//! A request and its reply over a connection to the bridge.

use crate::request::spoken;
use desk_http::{BridgeConnection, BridgeReply};
use std::alloc::Global;
use std::str::Split;

/// Takes a step: `sent N`, `received TEXT` or `ended`.
fn step(alloc: Global, connection: &mut BridgeConnection, text: &str) -> Option<()> {
    if let Some(count) = text.strip_prefix("sent ") {
        connection.mark_sent(count.parse().ok()?);
        return Some(());
    }
    if let Some(octets) = text.strip_prefix("received ") {
        return connection.receive(&spoken(alloc, octets)?).ok();
    }
    if text == "ended" {
        connection.receive(b"").ok()
    } else {
        None
    }
}

/// Takes steps, one after another.
fn steps(alloc: Global, connection: &mut BridgeConnection, texts: Split<'_, &str>) -> Option<()> {
    for text in texts {
        step(alloc, connection, text)?;
    }
    Some(())
}

/// Whether a request has ended by this reply: `busy`, `gone`, `lost` or `text TEXT`. One that hasn't ended has `none`.
fn is_reply(alloc: Global, reply: &Option<(Vec<u8>, BridgeReply)>, wanted: &str) -> Option<bool> {
    match reply {
        None => Some(wanted == "none"),
        Some((_, BridgeReply::Busy)) => Some(wanted == "busy"),
        Some((_, BridgeReply::Gone)) => Some(wanted == "gone"),
        Some((_, BridgeReply::Lost)) => Some(wanted == "lost"),
        Some((_, BridgeReply::Full)) => Some(wanted == "full"),
        Some((_, BridgeReply::Newer(_))) => Some(wanted == "newer"),
        Some((_, BridgeReply::Missing)) => Some(wanted == "missing"),
        Some((_, BridgeReply::Text(text))) => match wanted.strip_prefix("text ") {
            Some(wanted) => Some(*text == spoken(alloc, wanted)?),
            None => Some(false),
        },
    }
}

/// Begins a request, and takes steps: `MS ; LINE ; STEP ; STEP ..`. The moment to poll at.
fn started(alloc: Global, connection: &mut BridgeConnection, text: &str) -> Option<u64> {
    let mut words = text.split(" ; ");
    let now: u64 = words.next()?.parse().ok()?;
    connection.is_open = true;
    connection
        .begin(alloc, spoken(alloc, words.next()?)?, 0)
        .ok()?;
    steps(alloc, connection, words)?;
    Some(now)
}

/// Whether the connection is `open` or `closed` after these steps, and the request has this reply.
pub fn reply_is(alloc: Global, text: &str, wanted: &str) -> Option<bool> {
    let (state, wanted) = wanted.split_once(" ")?;
    let mut connection = BridgeConnection::new(alloc);
    let now = started(alloc, &mut connection, text)?;
    let reply = connection.poll_reply(now);
    let is_reply = is_reply(alloc, &reply, wanted)?;
    Some(is_reply && connection.is_open == (state == "open"))
}

/// Whether the bridge knows the connection by a name, after it was asked for one: `NAME ; ASKED ; STEP ; STEP ..`.
pub fn is_named(alloc: Global, text: &str, wanted: &str) -> Option<bool> {
    let mut words = text.split(" ; ");
    let name = words.next()?;
    let mut connection = BridgeConnection::new(alloc);
    connection.open();
    connection
        .begin_naming(alloc, words.next()?.as_bytes(), 0)
        .ok()?;
    steps(alloc, &mut connection, words)?;
    let reply = connection.poll_reply(0);
    let has_name = connection.has_name(name.as_bytes());
    drop(reply);
    Some(has_name == (wanted == "yes"))
}
