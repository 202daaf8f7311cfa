//! Cases that stand in files: datagrams and what the codecs answer, streams and the verdicts on their packets, scripts
//! and what a run over each answers. Standard input names the files, one a line, each behind its kind. A case that is
//! answered otherwise prints itself; last stands how many there were.
#![tactic(auto)]

mod codecs;
mod scripts;
mod streams;

use std::{fs, io};

/// How many cases a file has, and how many of them are answered otherwise.
fn counts(rt: &HostRuntime, kind: &str, name: &str) -> io::Result<(u64, u64)> {
    let alloc = rt.alloc();
    let text = fs::read_to_string(rt, name)?;
    match kind {
        "codecs" => codecs::counts(rt, alloc, name, text.as_str()),
        "streams" => streams::counts(rt, text.as_str()),
        "scripts" => scripts::counts(rt, alloc, text.as_str()),
        _ => Err(io::Error::other("there is no such kind of cases")),
    }
}

fn main(rt: HostRuntime) -> io::Result<()> {
    let files = io::read_to_string(rt.alloc(), rt.reader())?;
    let mut all: u64 = 0;
    let mut wrong: u64 = 0;
    for file in files.lines() {
        let (kind, name) = file.split_once(' ').unwrap_or((file, ""));
        let (tried, differ) = counts(&rt, kind, name)?;
        all = all.saturating_add(tried);
        wrong = wrong.saturating_add(differ);
    }
    println!(rt; "{all} cases, {wrong} differ")
}
