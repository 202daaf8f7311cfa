//! The operators' desk as a page in a browser: `desk_page --bridge 127.0.0.1:7000 --listen 127.0.0.1:7080`.
//!
//! One thread runs the event loop: it serves browsers, and is one operator of the bridge. A browser whose request waits
//! for the bridge keeps nobody else waiting.
#![tactic(auto)]

mod bridge_client;
mod client;
mod client_end;
mod client_events;
mod client_state;
mod clients;
mod follow;
mod kept;
mod markup;
mod names_store;
mod options;
mod page_sockets;
mod query_timer;
mod script_lines;
mod script_view;
mod seen_calls;
mod server;
mod server_bridge;
mod server_config;
mod setup;
mod style;
mod web_files;
mod web_folder;

use crate::names_store::NamesStore;
use crate::options::{ExitReason, Options, parse_options};
use crate::server::Server;
use crate::web_folder::checked_folder;
use desk_http::Addresses;
use std::io::ErrorKind;
use std::process::ExitCode;
use std::{env, io};

fn read_options(rt: &HostRuntime) -> Result<Options, ExitReason> {
    let words = match env::args(rt) {
        Ok(words) => words,
        Err(error) => return Err(ExitReason::from_kind(error.kind())),
    };
    let words: Vec<String> = match words.collect(rt.alloc()) {
        Ok(words) => words,
        Err(_) => return Err(ExitReason::OutOfMemory),
    };
    parse_options(rt, words.as_slice())
}

/// Prints an error, which ends the program.
fn exit_by(rt: &HostRuntime, error: &io::Error) -> ExitReason {
    let _ = eprintln!(rt; "desk_page: {error}");
    ExitReason::from_kind(error.kind())
}

/// The page's addresses, the names of the file if the arguments name one, and the folder with its files if they do.
fn startup(rt: &HostRuntime) -> Result<(Addresses, NamesStore, Option<String>), ExitReason> {
    let options = read_options(rt)?;
    let folder = checked_folder(rt, options.web)?;
    let store = NamesStore::open(rt, options.names)?;
    Ok((options.addresses, store, folder))
}

fn main(rt: HostRuntime) -> ExitCode {
    let reason = match startup(&rt) {
        Ok((addresses, store, folder)) => match Server::serve(&rt, addresses, store, folder) {
            Ok(()) => ExitReason::Served,
            Err(error) => exit_by(&rt, &error),
        },
        Err(reason) => reason,
    };
    ExitCode::from(reason.status())
}
