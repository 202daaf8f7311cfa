//! The command line, and exit statuses.

use clap::{Arg, Command, Error};
use desk_http::{Addresses, loopback_addresses};
use std::alloc::{AllocError, AllocGlobal, Global};
use std::io::{Eprint, ErrorKind, Print};
use std::net::SocketAddrV4;

/// Why the program ends.
#[derive(Clone, Copy)]
pub(crate) enum ExitReason {
    /// It did what was asked.
    Served,
    /// Memory ran out.
    OutOfMemory,
    /// A socket or the clock failed.
    Io,
    /// The file of names isn't one.
    NoNames,
    /// The folder hasn't the page.
    NoPage,
    /// The arguments are wrong.
    Usage,
}

/// What the arguments say.
#[derive(Drop)]
pub(crate) struct Options {
    /// Where the bridge and the page are.
    pub(crate) addresses: Addresses,
    /// The file of names, if there is one.
    pub(crate) names: Option<String>,
    /// The folder with the page's files, if it isn't the built-in ones that are served.
    pub(crate) web: Option<String>,
}

impl ExitReason {
    pub(crate) fn from_kind(kind: ErrorKind) -> Self {
        if kind == ErrorKind::OutOfMemory {
            ExitReason::OutOfMemory
        } else {
            ExitReason::Io
        }
    }

    pub(crate) fn status(self) -> u8 {
        match self {
            ExitReason::Served => 0,
            ExitReason::OutOfMemory => 2,
            ExitReason::Io => 3,
            ExitReason::NoNames | ExitReason::NoPage | ExitReason::Usage => 4,
        }
    }
}

fn address_option<'a>(alloc: Global, name: &'a str, help: &'a str, default: &'a str) -> Arg<'a> {
    Arg::new(alloc, name)
        .long(name)
        .value_name("ADDRESS")
        .help(help)
        .default_value(default)
}

fn command<'a>(alloc: Global) -> Result<Command<'a>, AllocError> {
    let bridge = "where the bridge takes operators";
    let listen = "where browsers connect, on loopback";
    let names = Arg::new(alloc, "names")
        .long("names")
        .value_name("FILE")
        .help("where names are kept; with none they end with the program");
    let web = Arg::new(alloc, "web").long("web").value_name("FOLDER").help(
        "a folder with the page's files, each read at each request; else the built-in ones",
    );
    Command::new(alloc, "desk_page")
        .about("The operators' desk as a page in a browser")
        .arg(address_option(alloc, "bridge", bridge, "127.0.0.1:7000"))?
        .arg(address_option(alloc, "listen", listen, "127.0.0.1:7080"))?
        .arg(names)?
        .arg(web)
}

/// Prints what is wrong with the arguments, or the help that they ask for.
fn report_usage<R: Print + Eprint>(rt: &R, error: &Error) -> ExitReason {
    let _ = error.print(rt);
    if error.use_stderr() {
        ExitReason::Usage
    } else {
        ExitReason::Served
    }
}

fn parse_address(text: Option<&str>) -> Option<SocketAddrV4> {
    text?.parse::<SocketAddrV4>().ok()
}

/// Both addresses, which have to be of loopback. Standard error has what is wrong.
fn parse_addresses<R: Eprint>(
    rt: &R,
    bridge: Option<&str>,
    listen: Option<&str>,
) -> Result<Addresses, ExitReason> {
    let both = parse_address(bridge).zip(parse_address(listen));
    match both.and_then(|(bridge, listen)| loopback_addresses(bridge, listen)) {
        Some(addresses) => Ok(addresses),
        None => {
            let _ = eprintln!(rt;
                "desk_page: --bridge and --listen are addresses of loopback, such as 127.0.0.1:7080"
            );
            Err(ExitReason::Usage)
        }
    }
}

fn copy_of(alloc: Global, text: Option<&str>) -> Result<Option<String>, ExitReason> {
    match text {
        Some(text) => match String::from_str(alloc, text) {
            Ok(copy) => Ok(Some(copy)),
            Err(_) => Err(ExitReason::OutOfMemory),
        },
        None => Ok(None),
    }
}

/// What the arguments say. Standard error has what is wrong with them.
pub(crate) fn parse_options<R: AllocGlobal + Print + Eprint>(
    rt: &R,
    words: &[String],
) -> Result<Options, ExitReason> {
    let command = match command(rt.alloc()) {
        Ok(command) => command,
        Err(_) => return Err(ExitReason::OutOfMemory),
    };
    match command.try_get_matches_from(words) {
        Ok(matches) => Ok(Options {
            addresses: parse_addresses(rt, matches.get_str("bridge"), matches.get_str("listen"))?,
            names: copy_of(rt.alloc(), matches.get_str("names"))?,
            web: copy_of(rt.alloc(), matches.get_str("web"))?,
        }),
        Err(error) => Err(report_usage(rt, &error)),
    }
}
