//! What the lines of a case say of members, operators, settings and the table of sockets.

use crate::setting::answer;
use crate::stage::{Stage, turns};
use crate::table::of_table;
use crate::text::{digits, numbered, spoken};
use std::alloc::Global;
use std::net::{Net, TcpStream};
use std::sync::Wait;
use std::time::Clock;

/// A text in which `@N` is the address of member N.
fn addressed(stage: &Stage, text: &str) -> Option<String> {
    let alloc = stage.alloc;
    let mut parts = text.split('@');
    let mut whole = String::from_str(alloc, parts.next()?).ok()?;
    for part in parts {
        let (at, rest) = numbered(part)?;
        let port = stage.members.as_ref()?.port(at)?;
        let address = format!(in alloc; "127.0.0.1:{port} {rest}").ok()?;
        whole.push_str(address.as_str()).ok()?;
    }
    Some(whole)
}

/// The octets of a text in which `@N` is the address of member N.
fn octets_of(stage: &Stage, text: &str) -> Option<Vec<u8>> {
    let text = addressed(stage, text)?;
    spoken(stage.alloc, text.as_str()).ok()
}

/// What a line says of an operator who sends: whether it came out so.
fn of_speaker<R: Net<Stream = TcpStream> + Clock>(
    stage: &mut Stage,
    rt: &R,
    verb: &str,
    at: usize,
    text: &str,
) -> Option<bool> {
    match verb {
        "says" => {
            let octets = octets_of(stage, text)?;
            stage.says(rt, at, &octets)
        }
        "octets" => {
            let octets = octets_in(stage.alloc, text)?;
            stage.says(rt, at, &octets)
        }
        "seats" => {
            let octets = octets_of(stage, text)?;
            stage.seats(rt, at, &octets)
        }
        "drips" => {
            let octets = octets_of(stage, text)?;
            stage.drips(rt, at, &octets)
        }
        "repeats" => {
            let (times, text) = numbered(text)?;
            let octets = octets_of(stage, text)?;
            stage.repeats(rt, at, times, &octets)
        }
        "floods" => stage.floods(rt, at, text.parse().ok()?),
        _ => None,
    }
}

/// What a line says of an operator: whether it came out so.
fn of_operator<R: Net<Stream = TcpStream> + Clock>(
    stage: &mut Stage,
    rt: &R,
    verb: &str,
    at: usize,
    text: &str,
) -> Option<bool> {
    match verb {
        "opens" => stage.opens(rt, at),
        "told" => stage.told(rt, at, text),
        "closed" => stage.closed(rt, at),
        "ends" => stage.let_go(rt, at),
        "hears" => stage.hears(rt, at, text.parse().ok()?),
        "closes" => stage.closes(at),
        "cut" => stage.cut(rt, at),
        "shuts" => stage.shuts(at),
        _ => of_speaker(stage, rt, verb, at, text),
    }
}

/// The octets that digits stand for.
fn octets_in(alloc: Global, text: &str) -> Option<Vec<u8>> {
    let digits = digits(alloc, text)?;
    hex::decode(alloc, digits.as_str()).ok()
}

/// What a line says of a member: whether it came out so.
fn of_member<R: Net + Clock>(
    stage: &mut Stage,
    rt: &R,
    verb: &str,
    at: usize,
    text: &str,
) -> Option<bool> {
    match verb {
        "member" => stage.members.as_mut()?.comes(rt, at),
        "returns" => stage.members.as_mut()?.returns(rt, at),
        "leaves" => stage.members.as_mut()?.leaves(at),
        "sends" => {
            let octets = octets_in(stage.alloc, text)?;
            let to = stage.udp()?;
            stage.members.as_ref()?.sends(at, &octets, to)
        }
        "gets" => {
            let digits = digits(stage.alloc, text)?;
            stage.gets(rt, at, digits.as_str())
        }
        "paces" => {
            let (to, ssrc) = numbered(text)?;
            stage.paces(rt, at, to, ssrc.parse().ok()?)
        }
        _ => None,
    }
}

/// Whether settings are what a line says: TEXT and their values or fault, with ` > ` between.
fn of_settings(alloc: Global, line: &str) -> Option<bool> {
    let (text, wanted) = line.split_once(" > ")?;
    let text = spoken(alloc, text).ok()?;
    Some(answer(alloc, str::from_utf8(&text).ok()?)?.as_str() == wanted)
}

/// Carries out a line with a number, and tells whether it came out as the line says.
fn of_number<R: Net<Stream = TcpStream> + Clock>(
    stage: &mut Stage,
    rt: &R,
    verb: &str,
    rest: &str,
) -> Option<bool> {
    let (at, text) = numbered(rest)?;
    match verb {
        // Lines and datagrams come in no order, since each connection has a thread of its own. A case whose answer
        // depends on it waits.
        "rounds" => {
            turns(rt, at);
            Some(true)
        }
        "crowds" => stage.crowds(rt, at),
        "member" | "returns" | "sends" | "gets" | "leaves" | "paces" => {
            of_member(stage, rt, verb, at, text)
        }
        _ => of_operator(stage, rt, verb, at, text),
    }
}

/// Carries out a line, and tells whether it came out as the line says. `None` is a line that says nothing.
pub fn carry_out<R: Net<Stream = TcpStream> + Clock + Wait>(
    stage: &mut Stage,
    rt: &R,
    line: &str,
) -> Option<bool> {
    let (verb, rest) = line.split_once(" ").unwrap_or((line, ""));
    match verb {
        "stopped" => stage.stopped(rt),
        "left" => stage.left(rt, rest),
        "settings" => of_settings(stage.alloc, rest),
        "table" => of_table(stage.alloc, rest),
        _ => of_number(stage, rt, verb, rest),
    }
}
