//! Scripts that are run as a whole.

use crate::case::Case;
use crate::lines::MOST;
use script_text::{RunFault, output, run};
use std::alloc::Global;
use std::io;
use x_refusing::Refusing;

/// Runs the script with each request for memory refused in turn, until it makes no more. Each run but the last one ends
/// out of memory, with answers to whole lines, and there is one for each front of the answers. Prints what
/// differs, and tells whether nothing does.
pub fn is_run(rt: &HostRuntime, alloc: Global, case: &Case) -> io::Result<bool> {
    let name = case.name.as_str();
    let wanted = case.wanted.as_bytes();
    let mut last: usize = 0;
    for nth in 1..MOST {
        let heap = Refusing::new(alloc);
        let mut script = case.before.as_bytes();
        let mut out = Vec::new(alloc);
        heap.refuse(nth);
        let answer = run(&heap, &mut script, &mut out);
        let is_next = case.ends.contains(&out.len()) && !is_one_between(case, last, out.len());
        last = out.len();
        if answer == Ok(()) {
            eprintln!(rt; "{name}: {nth} requests")?;
            let is_output = is_output(alloc, case);
            return Ok(out.as_slice() == wanted && is_output && nth > 1);
        }
        if answer != Err(RunFault::OutOfMemory) || !wanted.starts_with(&out) || !is_next {
            println!(rt; "{name}: after {last} octets at request {nth}")?;
            return Ok(false);
        }
    }
    println!(rt; "{name}: no end")?;
    Ok(false)
}

/// Whether the answer to a line ends between two places.
fn is_one_between(case: &Case, last: usize, next: usize) -> bool {
    case.ends.iter().any(|end| last < *end && *end < next)
}

/// Whether the script's output at once is the wanted one.
fn is_output(alloc: Global, case: &Case) -> bool {
    match output(alloc, case.before.as_bytes()) {
        Ok(text) => text.as_slice() == case.wanted.as_bytes(),
        Err(_) => false,
    }
}
