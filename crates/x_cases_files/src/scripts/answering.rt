//! What a run answers, beside what is wanted.

use crate::scripts::case::Case;
use script_text::{RunFault, run, status};
use std::alloc::{AllocError, Global};
use std::io;

/// The exit status of a run and its fault, as in `1 line 3 word 4: 6 BadNumber`.
fn ended(alloc: Global, answer: Result<(), RunFault>) -> Result<String, AllocError> {
    let number = status(&answer);
    match answer {
        Ok(()) => format!(in alloc; "{number}"),
        Err(fault) => format!(in alloc; "{number} {fault}"),
    }
}

/// The first line that differs, from 1, with what is wanted there and what was got.
fn first_difference<'a>(want: &'a str, got: &'a str) -> Option<(u64, &'a str, &'a str)> {
    let mut want = want.lines();
    let mut got = got.lines();
    for number in 1..u64::MAX {
        match (want.next(), got.next()) {
            (None, None) => return None,
            (Some(a), Some(b)) if a == b => {}
            (a, b) => {
                return Some((number, a.unwrap_or("(the end)"), b.unwrap_or("(the end)")));
            }
        }
    }
    None
}

/// Runs the case's script. Prints what differs from what is wanted, and tells whether nothing does.
pub fn is_answered(rt: &HostRuntime, alloc: Global, case: &Case) -> io::Result<bool> {
    let mut reader = case.script();
    let mut out = Vec::new(alloc);
    let end = ended(alloc, run(alloc, &mut reader, &mut out))?;
    let name = case.name();
    let want = case.end();
    if end.as_str() != want {
        println!(rt; "{name}: the end {want} is wanted, and not {end}")?;
        return Ok(false);
    }
    if out.as_slice() == case.output() {
        return Ok(true);
    }
    let wanted = str::from_utf8(case.output()).unwrap_or("(no text)");
    let got = str::from_utf8(&out).unwrap_or("(no text)");
    if let Some((line, want, got)) = first_difference(wanted, got) {
        println!(rt; "{name}, line {line} of the output: {want} is wanted, and not {got}")?;
    }
    Ok(false)
}
