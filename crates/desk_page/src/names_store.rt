//! The names, and the file that keeps them.

use crate::options::ExitReason;
use desk_http::{BridgeReply, Names, NamesOutcome, is_names_text};
use std::alloc::{Alloc, AllocError, AllocGlobal, Global};
use std::fs::{Files, OpenFile, OpenOptions};
use std::io::{Eprint, ErrorKind, Write};
use std::os::unix::fs::OpenOptionsExt;
use std::{fs, io};

/// The names. Where the arguments name no file, they end with the program.
#[derive(Drop)]
pub(crate) struct NamesStore {
    pub(crate) names: Names,
    /// The file, and the file to which new names are written before it takes the first one's place.
    paths: Option<(String, String)>,
}

/// A reply in one line, with the version of the names.
fn reply_line(
    alloc: Global,
    word: &str,
    version: u64,
    reason: &str,
) -> Result<BridgeReply, AllocError> {
    Ok(BridgeReply::Text(format!(in alloc; "{word} {version}{reason}\n")?.into_bytes()))
}

/// Writes a text to a file, and syncs it to the disk. A file that isn't there yet is its owner's alone: names are those
/// of people.
fn write<R: Files>(rt: &R, path: &str, text: &[u8]) -> io::Result<()> {
    let mut options = OpenOptions::new();
    options.write(true).create(true).truncate(true).mode(0o600);
    let mut file = options.open(rt, path)?;
    file.write_all(text)?;
    file.sync_all()
}

/// Replaces what a file holds, or leaves it as it is.
fn replace<R: Files>(rt: &R, path: &str, temporary: &str, text: &[u8]) -> io::Result<()> {
    write(rt, temporary, text)?;
    fs::rename(rt, temporary, path)
}

/// Says that a file has no names, which ends the program. The file stays as it is.
fn report_no_names<R: Eprint>(rt: &R, path: &str) -> ExitReason {
    let _ = eprintln!(rt;
        "desk_page: {path} is no JSON object of names, which are texts of up to 800 octets"
    );
    ExitReason::NoNames
}

/// The text of a file of names. A file that isn't there is one without names.
fn read_names<R: Files + AllocGlobal + Eprint>(rt: &R, path: &str) -> Result<Vec<u8>, ExitReason> {
    match fs::read(rt, path) {
        Ok(text) => match is_names_text(rt.alloc(), &text) {
            Ok(true) => Ok(text),
            Ok(false) => Err(report_no_names(rt, path)),
            Err(_) => Err(ExitReason::OutOfMemory),
        },
        Err(error) if error.kind() == ErrorKind::NotFound => empty_names(rt.alloc()),
        Err(error) => {
            let _ = eprintln!(rt; "desk_page: {path}: {error}");
            Err(ExitReason::from_kind(error.kind()))
        }
    }
}

fn empty_names(alloc: Global) -> Result<Vec<u8>, ExitReason> {
    match Vec::from_slice(alloc, b"{}") {
        Ok(text) => Ok(text),
        Err(_) => Err(ExitReason::OutOfMemory),
    }
}

fn temporary_path(alloc: Global, path: &str) -> Result<String, ExitReason> {
    match format!(in alloc; "{path}.new") {
        Ok(temporary) => Ok(temporary),
        Err(_) => Err(ExitReason::OutOfMemory),
    }
}

impl NamesStore {
    /// The names of a file. Without a file there are none yet.
    pub(crate) fn open<R: Files + AllocGlobal + Eprint>(
        rt: &R,
        path: Option<String>,
    ) -> Result<Self, ExitReason> {
        match path {
            Some(path) => Ok(Self {
                names: Names::new(read_names(rt, &path)?),
                paths: {
                    let temporary = temporary_path(rt.alloc(), &path)?;
                    Some((path, temporary))
                },
            }),
            None => Ok(Self {
                names: Names::new(empty_names(rt.alloc())?),
                paths: None,
            }),
        }
    }

    /// Writes new names to the file, if there is one. Returns whether they are kept.
    fn save<R: Files>(&self, rt: &R, text: &[u8]) -> bool {
        match &self.paths {
            Some((path, temporary)) => replace(rt, path, temporary, text).is_ok(),
            None => true,
        }
    }

    /// Saves new names, and then replaces the old ones. Names that can't be saved change nothing.
    fn store<R: Files>(
        &mut self,
        rt: &R,
        alloc: Global,
        text: Vec<u8>,
    ) -> Result<BridgeReply, AllocError> {
        if self.save(rt, &text) {
            self.names.replace(text);
            reply_line(alloc, "ok", self.names.version, "")
        } else {
            reply_line(alloc, "no", self.names.version, " Unsaved")
        }
    }

    /// The reply to a line about names, which may change them.
    pub(crate) fn reply_to<R: Files>(
        &mut self,
        rt: &R,
        alloc: Global,
        line: &[u8],
    ) -> Result<BridgeReply, AllocError> {
        match self.names.validate(alloc, line)? {
            NamesOutcome::Shown => Ok(BridgeReply::Text(self.names.body(alloc)?)),
            NamesOutcome::Newer => reply_line(alloc, "no", self.names.version, " Newer"),
            NamesOutcome::NoNames => reply_line(alloc, "no", self.names.version, " NoNames"),
            NamesOutcome::New(text) => self.store(rt, alloc, text),
        }
    }
}
