//! What the page starts with.

use crate::markup::{HTML_AFTER, HTML_BEFORE};
use crate::server_config::ServerConfig;
use crate::web_files::web_files;
use desk_http::{Assets, Router, Site, page_tables, request_limits, token};
use std::alloc::{AllocError, Global};
use std::hash::RandomState;
use std::io;
use std::net::SocketAddr;
use std::random::RandomSource;

/// 32 hex digits that nobody can guess.
fn random_digits<R: RandomSource>(rt: &R, alloc: Global) -> io::Result<Vec<u8>> {
    let mut octets = [0u8; 16];
    rt.fill_bytes(&mut octets)?;
    Ok(token(alloc, octets)?)
}

/// The page at this address, with a secret token of this run.
fn site<R: RandomSource>(rt: &R, alloc: Global, address: SocketAddr) -> io::Result<Site> {
    Ok(Site::new(alloc, address, random_digits(rt, alloc)?)?)
}

/// What this run of the program is called, which is no secret.
pub(crate) fn run_name<R: RandomSource>(rt: &R, alloc: Global) -> io::Result<Vec<u8>> {
    random_digits(rt, alloc)
}

/// That name as text.
pub(crate) fn run_text(name: &[u8]) -> &str {
    match str::from_utf8(name) {
        Ok(text) => text,
        Err(_) => "",
    }
}

fn assets(alloc: Global) -> Result<Assets, AllocError> {
    Ok(Assets {
        html_before: HTML_BEFORE,
        html_after: HTML_AFTER,
        files: web_files(alloc)?,
    })
}

/// The router of the page at this address, whose files may be those of a folder.
pub(crate) fn router_at<R: RandomSource>(
    rt: &R,
    alloc: Global,
    address: SocketAddr,
    has_folder: bool,
) -> io::Result<Router> {
    let mut site = site(rt, alloc, address)?;
    site.has_folder = has_folder;
    Ok(Router {
        alloc,
        site,
        assets: assets(alloc)?,
        person: Vec::new(alloc),
        seen: None,
        line: None,
    })
}

pub(crate) fn server_config<R: RandomSource>(rt: &R, alloc: Global) -> io::Result<ServerConfig> {
    Ok(ServerConfig {
        alloc,
        keys: RandomState::new(rt)?,
        config: request_limits(),
        tables: page_tables(),
    })
}
