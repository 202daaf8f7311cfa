//! A case, by its first word.

use crate::admissions::placement_is;
use crate::calls::{closed_is, folder_is, newer_is};
use crate::connections::{is_named, reply_is};
use crate::events::{are_known, edit_is, event_is, head_has, may_lag, may_stream};
use crate::pages::{folder_router, router_at};
use crate::request::{octets_of, request_of, spoken};
use crate::states::state_is;
use desk_http::{
    BridgeReply, BridgeRequest, ReplyProgress, Responder, Router, Tables, loopback_addresses,
    page_tables, request_limits,
};
use http_server::{Config, Connection, Service};
use std::alloc::{AllocError, Global};
use std::hash::RandomState;
use std::net::SocketAddrV4;
use std::str::Split;

/// Two pages, and what connections to them begin with.
#[derive(Drop)]
pub struct Page {
    alloc: Global,
    keys: RandomState,
    config: Config,
    tables: Tables,
    router: Router,
    /// The same page at port 80.
    router_80: Router,
    /// The first one, with the files of a folder.
    router_folder: Router,
}

/// What a progress is called.
fn progress_name(progress: ReplyProgress) -> &'static str {
    match progress {
        ReplyProgress::Partial => "partial",
        ReplyProgress::Complete => "complete",
        ReplyProgress::Busy => "busy",
        ReplyProgress::Malformed => "malformed",
    }
}

/// Whether a text has this part.
fn has_part(text: &str, part: &[u8]) -> Option<bool> {
    Some(text.contains(str::from_utf8(part).ok()?))
}

/// Whether a response has this status, and after it this text.
fn is_response(alloc: Global, response: &[u8], wanted: &str) -> Option<bool> {
    let text = str::from_utf8(response).ok()?;
    let (status, part) = wanted.split_once(" ")?;
    let rest = text.strip_prefix("HTTP/1.1 ")?;
    Some(rest.starts_with(status) && has_part(rest, &spoken(alloc, part)?)?)
}

/// Whether a response has this status, and this body.
fn is_told(alloc: Global, response: &[u8], wanted: &str) -> Option<bool> {
    let text = str::from_utf8(response).ok()?;
    let (status, body) = wanted.split_once(" ")?;
    let rest = text.strip_prefix("HTTP/1.1 ")?;
    let (_, told) = rest.split_once("\r\n\r\n")?;
    Some(rest.starts_with(status) && told.as_bytes() == spoken(alloc, body)?.as_slice())
}

fn give(connection: &mut Connection, request: &[u8]) -> Option<()> {
    let mut rest = request;
    for _ in 0..16 {
        connection.read_from(&mut rest).ok()?;
        if rest.is_empty() {
            break;
        }
    }
    Some(())
}

/// Appends the response of a service to a request.
fn respond<S: Service>(
    connection: &mut Connection,
    service: &mut S,
    request: &[u8],
    written: &mut Vec<u8>,
) -> Option<()> {
    give(connection, request)?;
    connection.advance(service);
    for _ in 0..16 {
        if !connection.wants_write() {
            break;
        }
        connection.write_to(written).ok()?;
    }
    Some(())
}

/// Whether a request has this line for the bridge, or got this response.
fn is_routed(alloc: Global, router: &Router, response: &[u8], wanted: &str) -> Option<bool> {
    match (&router.line, wanted.strip_prefix("sends ")) {
        (Some(line), Some(wanted)) => Some(line.as_slice() == wanted.as_bytes()),
        (None, None) => is_response(alloc, response, wanted),
        _ => Some(false),
    }
}

/// The reply that a text names.
fn reply_of(alloc: Global, text: &str) -> Option<BridgeReply> {
    match text {
        "busy" => Some(BridgeReply::Busy),
        "gone" => Some(BridgeReply::Gone),
        "lost" => Some(BridgeReply::Lost),
        "full" => Some(BridgeReply::Full),
        "missing" => Some(BridgeReply::Missing),
        _ => match text.strip_prefix("newer ") {
            Some(call) => Some(BridgeReply::Newer(spoken(alloc, call)?)),
            None => Some(BridgeReply::Text(spoken(alloc, text.strip_prefix("text ")?)?)),
        },
    }
}

fn feed(alloc: Global, request: &mut BridgeRequest, piece: &str) -> Option<ReplyProgress> {
    let octets = octets_of(alloc, piece)?;
    request.feed(&octets).ok()
}

/// Feeds pieces of a reply. The progress after the last.
fn feed_all(
    alloc: Global,
    request: &mut BridgeRequest,
    pieces: Split<'_, &str>,
) -> Option<ReplyProgress> {
    let mut progress = request.progress();
    for piece in pieces {
        progress = feed(alloc, request, piece)?;
    }
    Some(progress)
}

/// Whether a page may start with these addresses: `BRIDGE LISTEN`.
fn may_start(text: &str, wanted: &str) -> Option<bool> {
    let (bridge, listen) = text.split_once(" ")?;
    let bridge: SocketAddrV4 = bridge.parse().ok()?;
    let listen: SocketAddrV4 = listen.parse().ok()?;
    Some(loopback_addresses(bridge, listen).is_some() == (wanted == "yes"))
}

impl Page {
    /// The pages of all cases.
    pub fn new(alloc: Global, keys: RandomState) -> Result<Self, AllocError> {
        Ok(Self {
            alloc,
            keys,
            config: request_limits(),
            tables: page_tables(),
            router: router_at(alloc, 7080)?,
            router_80: router_at(alloc, 80)?,
            router_folder: folder_router(alloc)?,
        })
    }

    fn response_of<S: Service>(
        alloc: Global,
        keys: RandomState,
        config: Config,
        service: &mut S,
        request: &str,
    ) -> Option<Vec<u8>> {
        let request = request_of(alloc, request)?;
        let mut written = Vec::new(alloc);
        let mut connection = Connection::new(alloc, keys, config);
        let answered = respond(&mut connection, service, &request, &mut written);
        drop(connection);
        answered?;
        Some(written)
    }

    fn routed_by(
        alloc: Global,
        keys: RandomState,
        config: Config,
        router: &mut Router,
        request: &str,
        wanted: &str,
    ) -> Option<bool> {
        drop(router.line.take());
        let response = Self::response_of(alloc, keys, config, router, request)?;
        is_routed(alloc, router, &response, wanted)
    }

    /// Whether a request to the page at this port has this line for the bridge, or gets this response.
    fn routes(&mut self, port: u16, request: &str, wanted: &str) -> Option<bool> {
        let (alloc, keys, config) = (self.alloc, self.keys, self.config);
        if port == 80 {
            Self::routed_by(alloc, keys, config, &mut self.router_80, request, wanted)
        } else {
            Self::routed_by(alloc, keys, config, &mut self.router, request, wanted)
        }
    }

    /// The same of the page whose files are those of a folder.
    fn routes_in_folder(&mut self, request: &str, wanted: &str) -> Option<bool> {
        let (alloc, keys, config) = (self.alloc, self.keys, self.config);
        let router = &mut self.router_folder;
        Self::routed_by(alloc, keys, config, router, request, wanted)
    }

    /// Whether the request is of this person.
    fn is_of(&mut self, request: &str, wanted: &str) -> Option<bool> {
        let (alloc, keys, config) = (self.alloc, self.keys, self.config);
        drop(Self::response_of(alloc, keys, config, &mut self.router, request)?);
        Some(self.router.person.as_slice() == wanted.as_bytes())
    }

    /// Whether the request says this version of the desk, or `none`.
    fn has_seen(&mut self, request: &str, wanted: &str) -> Option<bool> {
        let (alloc, keys, config) = (self.alloc, self.keys, self.config);
        drop(Self::response_of(alloc, keys, config, &mut self.router, request)?);
        match self.router.seen {
            Some(seen) => Some(seen == wanted.parse().ok()?),
            None => Some(wanted == "none"),
        }
    }

    /// The response to a request by this reply to this line.
    fn relayed(&self, line: &[u8], reply: &BridgeReply, request: &str) -> Option<Vec<u8>> {
        let site = &self.router.site;
        let mut responder = Responder {
            alloc: self.alloc,
            tables: &self.tables,
            site,
            line,
            reply,
        };
        Self::response_of(self.alloc, self.keys, self.config, &mut responder, request)
    }

    /// The response that a reply to a line makes to a request: `LINE ; REPLY ; REQUEST`.
    fn response_to(&self, text: &str) -> Option<Vec<u8>> {
        let (line, text) = text.split_once(" ; ")?;
        let (reply, request) = text.split_once(" ; ")?;
        let line = spoken(self.alloc, line)?;
        let reply = reply_of(self.alloc, reply)?;
        self.relayed(&line, &reply, request)
    }

    /// Whether pieces of a reply make this progress: `LINE ; PIECE ; ..`.
    fn receives(&self, text: &str, wanted: &str) -> Option<bool> {
        let mut words = text.split(" ; ");
        let mut request = BridgeRequest::new(self.alloc, spoken(self.alloc, words.next()?)?);
        let progress = feed_all(self.alloc, &mut request, words);
        drop(request);
        Some(progress_name(progress?) == wanted)
    }

    /// Whether a case has its result. `None` is a line that is no case.
    fn outcome(&mut self, line: &str) -> Option<bool> {
        let (case, wanted) = line.split_once(" > ")?;
        let (verb, text) = case.split_once(" ")?;
        match verb {
            "route" => self.routes(7080, text, wanted),
            "route-80" => self.routes(80, text, wanted),
            "route-folder" => self.routes_in_folder(text, wanted),
            "folder" => folder_is(text, wanted),
            "start" => may_start(text, wanted),
            "person" => self.is_of(text, wanted),
            "seen" => self.has_seen(text, wanted),
            "newer" => newer_is(self.alloc, text, wanted),
            "closed" => closed_is(self.alloc, text, wanted),
            "named" => is_named(self.alloc, text, wanted),
            "connection" => reply_is(self.alloc, text, wanted),
            "admit" => placement_is(self.alloc, text, wanted),
            "state" => state_is(self.alloc, text, wanted),
            "respond" => is_response(self.alloc, &self.response_to(text)?, wanted),
            "tell" => is_told(self.alloc, &self.response_to(text)?, wanted),
            "feed" => self.receives(text, wanted),
            "head" => head_has(wanted),
            "event" => event_is(self.alloc, text, wanted),
            "edit" => edit_is(self.alloc, text, wanted),
            "known" => are_known(self.alloc, text, wanted),
            "streams" => may_stream(text, wanted),
            "unread" => may_lag(text, wanted),
            _ => None,
        }
    }

    /// Whether a line is a case, and has its result.
    pub fn holds(&mut self, line: &str) -> bool {
        self.outcome(line).unwrap_or(false)
    }
}
