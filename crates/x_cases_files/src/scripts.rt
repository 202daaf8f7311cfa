//! Scripts with what a run over each has to answer. A case that is answered otherwise prints its name and the first
//! line that differs.

mod answering;
mod case;
mod cases;
mod repeating;

use self::cases::Cases;
use std::alloc::Global;
use std::io;

/// How many cases the text of a file has, and how many of them are answered otherwise.
pub fn counts(rt: &HostRuntime, alloc: Global, text: &str) -> io::Result<(u64, u64)> {
    let mut cases = Cases::new(alloc);
    for line in text.lines() {
        cases.line(rt, line)?;
    }
    cases.end(rt)?;
    Ok(cases.counts())
}
