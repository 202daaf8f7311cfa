//! The page's files as a folder has them, for who works on the page. A file is read at each request.

use crate::client::Client;
use crate::clients::Clients;
use crate::options::ExitReason;
use crate::server_config::ServerConfig;
use desk_http::{BridgeReply, Responder, Site, folder_name};
use std::alloc::{AllocError, AllocGlobal, Global};
use std::fs;
use std::fs::Files;
use std::io::Eprint;

/// The most octets of a file.
const MAX_FILE: u64 = 1_048_576;
/// What stands in the page where its token goes.
const TOKEN: &str = "TOKEN";

/// Whether a path is that of a file that isn't too long.
fn is_file<R: Files>(rt: &R, path: &str) -> bool {
    match fs::metadata(rt, path) {
        Ok(metadata) => metadata.is_file() && metadata.len() <= MAX_FILE,
        Err(_) => false,
    }
}

/// The octets of a file, if there is one that can be read.
fn read_file<R: Files + AllocGlobal>(rt: &R, path: &str) -> Option<Vec<u8>> {
    if is_file(rt, path) {
        fs::read(rt, path).ok()
    } else {
        None
    }
}

fn append_page(out: &mut Vec<u8>, text: &str, token: &[u8]) -> Result<(), AllocError> {
    match text.split_once(TOKEN) {
        Some((before, after)) => {
            out.extend_from_slice(before.as_bytes())?;
            out.extend_from_slice(token)?;
            out.extend_from_slice(after.as_bytes())
        }
        None => out.extend_from_slice(text.as_bytes()),
    }
}

/// The page in HTML with its token.
fn with_token(alloc: Global, html: &[u8], token: &[u8]) -> Result<Vec<u8>, AllocError> {
    let mut out = Vec::new(alloc);
    match str::from_utf8(html) {
        Ok(text) => append_page(&mut out, text, token)?,
        Err(_) => out.extend_from_slice(html)?,
    }
    Ok(out)
}

/// The path of the file that a folder has for a request of this path.
fn file_path(alloc: Global, folder: &str, path: &[u8]) -> Result<Option<String>, AllocError> {
    let name = match folder_name(path) {
        Some(name) => str::from_utf8(name),
        None => return Ok(None),
    };
    match name {
        Ok(name) => Ok(Some(format!(in alloc; "{folder}/{name}")?)),
        Err(_) => Ok(None),
    }
}

/// What a folder has at a path, as a reply.
fn reply_at<R: Files + AllocGlobal>(
    rt: &R,
    alloc: Global,
    site: &Site,
    folder: &str,
    path: &[u8],
) -> Result<BridgeReply, AllocError> {
    let file = match file_path(alloc, folder, path)? {
        Some(file) => read_file(rt, &file),
        None => None,
    };
    match file {
        Some(text) if path == b"/".as_slice() => {
            Ok(BridgeReply::Text(with_token(alloc, &text, &site.token)?))
        }
        Some(text) => Ok(BridgeReply::Text(text)),
        None => Ok(BridgeReply::Missing),
    }
}

/// The folder that the arguments name, which has to have the page.
pub(crate) fn checked_folder<R: Files + AllocGlobal + Eprint>(
    rt: &R,
    folder: Option<String>,
) -> Result<Option<String>, ExitReason> {
    if let Some(folder) = &folder {
        match file_path(rt.alloc(), folder, b"/") {
            Ok(Some(path)) if is_file(rt, &path) => {}
            Ok(_) => {
                let _ = eprintln!(rt; "desk_page: {folder} has no page.html of up to 1 MiB");
                return Err(ExitReason::NoPage);
            }
            Err(_) => return Err(ExitReason::OutOfMemory),
        }
    }
    Ok(folder)
}

impl Client {
    /// Takes the line if it asks for a file.
    fn take_file(&mut self) -> Option<Vec<u8>> {
        self.pending.take_file()
    }
}

impl Clients {
    /// Responds to those who ask for a file.
    pub(crate) fn serve_files<R: Files + AllocGlobal>(
        &mut self,
        rt: &R,
        config: ServerConfig,
        site: &Site,
        folder: &str,
        now: u64,
    ) -> Result<(), AllocError> {
        for client in &mut self.connected {
            if let Some(line) = client.take_file() {
                let (alloc, tables, line) = (config.alloc, &config.tables, line.as_slice());
                let reply = &reply_at(rt, alloc, site, folder, line)?;
                let responder = Responder {
                    alloc,
                    tables,
                    site,
                    line,
                    reply,
                };
                client.complete(config, responder, now);
            }
        }
        Ok(())
    }
}
