//! Cases one after another.

use crate::codecs::answering::answer;
use crate::codecs::expanding::expanded;
use crate::codecs::untried::Untried;
use std::alloc::{AllocError, Global};
use std::io;

/// The case that is being read, and how many were tried.
#[derive(Drop)]
pub struct Cases {
    alloc: Global,
    /// Its lines, joined. Empty where none is being read.
    case: String,
    /// The line that it begins on.
    number: u64,
    tried: u64,
    differ: u64,
}

/// What is answered to a case that is written out, and what is wanted.
fn tried(alloc: Global, case: &str) -> Result<(String, &str), Untried> {
    let Some((question, wanted)) = case.split_once(" => ") else {
        return Err(Untried::Malformed);
    };
    let Some((kind, input)) = question.split_once(' ') else {
        return Err(Untried::Malformed);
    };
    Ok((answer(alloc, kind, input)?, wanted))
}

/// How many characters of what is wanted and got are printed.
const PRINTED: u32 = 300;

/// A text from where it differs from another on, as far as it is printed.
fn from_difference(alloc: Global, text: &str, other: &str) -> Result<String, AllocError> {
    let mut out = String::new(alloc);
    let mut others = other.chars();
    let mut left = PRINTED;
    let mut is_same = true;
    for c in text.chars() {
        is_same = is_same && others.next() == Some(c);
        if !is_same && left > 0 {
            out.push(c)?;
            left -= 1;
        }
    }
    Ok(out)
}

/// Tries a case as it is written. Prints it if it is answered otherwise, and tells whether it is
/// answered well.
fn is_answered(
    rt: &HostRuntime,
    alloc: Global,
    name: &str,
    number: u64,
    case: &str,
) -> io::Result<bool> {
    let Ok(whole) = expanded(alloc, case) else {
        println!(rt; "{name}:{number}: no case")?;
        return Ok(false);
    };
    match tried(alloc, whole.as_str()) {
        Ok((got, wanted)) => {
            if got.as_str() == wanted {
                return Ok(true);
            }
            let here = from_difference(alloc, got.as_str(), wanted)?;
            let there = from_difference(alloc, wanted, got.as_str())?;
            println!(rt;
                "{name}:{number}: {case}\n  from where they differ: wanted {there}\n  got {here}"
            )?;
        }
        Err(Untried::Malformed) => println!(rt; "{name}:{number}: no case")?,
        Err(Untried::OutOfMemory) => println!(rt; "{name}:{number}: out of memory")?,
    }
    Ok(false)
}

impl Cases {
    pub fn new(alloc: Global) -> Self {
        Self {
            alloc,
            case: String::new(alloc),
            number: 0,
            tried: 0,
            differ: 0,
        }
    }

    /// Tries the cases of a file. A case is a line and the lines behind it that begin with two
    /// spaces. Empty lines and those that begin with `#` stand between cases.
    pub fn file(&mut self, rt: &HostRuntime, name: &str, text: &str) -> io::Result<()> {
        let mut number: u64 = 0;
        for line in text.lines() {
            number = number.saturating_add(1);
            self.line(rt, name, number, line)?;
        }
        self.end(rt, name)
    }

    /// Takes one more line of a file.
    fn line(&mut self, rt: &HostRuntime, name: &str, number: u64, line: &str) -> io::Result<()> {
        if let Some(more) = line.strip_prefix("  ") {
            self.case.push_str(" ")?;
            self.case.push_str(more)?;
            return Ok(());
        }
        self.end(rt, name)?;
        if !line.starts_with('#') {
            self.number = number;
            self.case.push_str(line)?;
        }
        Ok(())
    }

    /// Ends what is being read, and tries it if it is a case.
    fn end(&mut self, rt: &HostRuntime, name: &str) -> io::Result<()> {
        if self.case.is_empty() {
            return Ok(());
        }
        self.tried = self.tried.saturating_add(1);
        if !is_answered(rt, self.alloc, name, self.number, self.case.as_str())? {
            self.differ = self.differ.saturating_add(1);
        }
        self.case.clear();
        Ok(())
    }

    /// How many cases were tried, and how many of them were answered otherwise.
    pub fn counts(&self) -> (u64, u64) {
        (self.tried, self.differ)
    }
}
