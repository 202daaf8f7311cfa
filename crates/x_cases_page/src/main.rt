//! Cases of the page. A line of standard input is a case: what is given, ` > `, and the result that it must have. The
//! program prints each line with another result, and then the number of lines.
//!
//! - `** TEXT`: what the lines after it show.
//! - `route REQUEST > sends LINE`: a page at 127.0.0.1:7080 with the token `secret` has this line for the bridge.
//! - `route REQUEST > STATUS TEXT`: it responds at once by this status, and the response has this text.
//! - `route-80`: the same of a page at 127.0.0.1:80.
//! - `respond LINE ; REPLY ; REQUEST > STATUS TEXT`: the reply to a line is `text TEXT`, `busy`, `gone` or `lost`. The
//!   response to the request has this status and this text.
//! - `tell LINE ; REPLY ; REQUEST > STATUS BODY`: the same, and the response has this body and no more.
//! - `feed LINE ; PIECE ; PIECE .. > PROGRESS`: pieces of a reply to a line come, and the progress after the last is
//!   `partial`, `complete`, `busy` or `malformed`.
//! - `connection MS ; LINE ; STEP ; STEP .. > open REPLY`, or `closed REPLY`: a request begins at 0 ms over an open
//!   connection, STEP is `sent N` octets, `received TEXT` or `ended`, and REPLY is as above, or `none`. An open
//!   connection is used again.
//! - `admit MS ; COUNT STAGE ACCEPTED ACTIVE ; .. > free`, `refused` or `evict N`: a connection comes where these are,
//!   each of them `idle`, `sending`, `waiting` or `responding`. It gets a free place, none, or the place of the
//!   connection with this number, from 0.
//! - `state RUN ; TEXT ; TEXT .. > LINE`: the desk has these texts one after another in a run, and LINE names the last.
//! - `person REQUEST > NAME`: the page takes the request as this person's.
//! - `named NAME ; ASKED ; STEP ; STEP .. > yes`, or `no`: an open connection asks for the name ASKED, the steps are
//!   those of `connection`, and the bridge knows it by NAME then.
//! - `head HEAD > TEXT`: the head of the stream of events has this text, which no HEAD changes.
//! - `event NAME ; TEXT > TEXT`: an event of this name and data is these octets.
//! - `edit TEXT ; TEXT > START REMOVED INSERTED`: what turns a text of the desk into another one.
//! - `known LINE ; LINE ; LINE .. > N`: so many of the other lines are known by the first one, which is the last known.
//! - `streams N > yes`, or `no`: where N browsers have the stream of events, one more may have it.
//! - `unread N > yes`, or `no`: a browser with N unread octets of events keeps its connection.
//! - `start BRIDGE LISTEN > yes`, or `no`: the page may start with these addresses.
//!
//! A REQUEST is `METHOD PATH FIELD=VALUE ..`, and after ` | ` its body. In all texts `\n` is an LF, and `TEXT*N` is a
//! PIECE, a body or a desk's text that has a text N times.
#![tactic(auto)]

mod admissions;
mod calls;
mod case;
mod connections;
mod events;
mod pages;
mod request;
mod states;

use crate::case::Page;
use std::hash::RandomState;
use std::io;
use std::io::Print;

/// Whether a line is a case: the others are empty, or say what the lines after them show.
fn is_case(line: &str) -> bool {
    !line.is_empty() && !line.starts_with("** ")
}

/// Prints each case with another result, and then how many cases there are.
fn run<R: Print>(rt: &R, page: &mut Page, text: &str) -> io::Result<()> {
    let mut tried: u64 = 0;
    let mut differ: u64 = 0;
    for line in text.lines() {
        if is_case(line) {
            tried = tried.saturating_add(1);
            if !page.holds(line) {
                differ = differ.saturating_add(1);
                println!(rt; "{line}")?;
            }
        }
    }
    println!(rt; "{tried} lines, {differ} differ")
}

fn main(rt: HostRuntime) -> io::Result<()> {
    let alloc = rt.alloc();
    let text = io::read_to_string(alloc, rt.reader())?;
    let mut page = Page::new(alloc, RandomState::new(&rt)?)?;
    run(&rt, &mut page, &text)
}
