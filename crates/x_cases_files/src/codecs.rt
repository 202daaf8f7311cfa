//! Cases of both codecs: what is asked, and what has to be answered. A case that is answered otherwise prints itself.

mod answering;
mod cases;
mod expanding;
mod parsing;
mod prefixes;
mod telling;
mod telling_compounds;
mod untried;

use self::cases::Cases;
use std::alloc::Global;
use std::io;

/// How many cases the text of a file has, and how many of them are answered otherwise.
pub fn counts(rt: &HostRuntime, alloc: Global, name: &str, text: &str) -> io::Result<(u64, u64)> {
    let mut cases = Cases::new(alloc);
    cases.file(rt, name, text)?;
    Ok(cases.counts())
}
