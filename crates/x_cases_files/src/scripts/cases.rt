//! Cases one after another.

use crate::scripts::answering::is_answered;
use crate::scripts::case::Case;
use crate::scripts::repeating::Repeated;
use std::alloc::Global;
use std::io;

/// What is being read.
#[derive(Drop)]
enum Reading {
    /// What stands before the first case.
    Head,
    /// What the cases behind it begin with.
    Base(Case),
    Case(Case),
}

/// The cases that were read.
#[derive(Drop)]
pub struct Cases {
    alloc: Global,
    base: Option<Case>,
    reading: Reading,
    tried: u64,
    differ: u64,
}

impl Cases {
    pub fn new(alloc: Global) -> Self {
        Self {
            alloc,
            base: None,
            reading: Reading::Head,
            tried: 0,
            differ: 0,
        }
    }

    /// Takes one more line: `** NAME` begins what all cases from there on begin with, `== NAME` a
    /// case, `-- LINE` a case that goes on with this line of a script, and any other line belongs to
    /// what is being read.
    pub fn line(&mut self, rt: &HostRuntime, line: &str) -> io::Result<()> {
        if let Some(name) = line.strip_prefix("** ") {
            self.end(rt)?;
            self.reading = Reading::Base(Case::new(self.alloc, name)?);
        } else if let Some(name) = line.strip_prefix("== ") {
            self.end(rt)?;
            self.reading = Reading::Case(self.begun(name)?);
        } else if let Some(line) = line.strip_prefix("-- ") {
            self.end(rt)?;
            let mut case = self.begun(line)?;
            case.line(line)?;
            self.reading = Reading::Case(case);
        } else {
            match &mut self.reading {
                Reading::Head => {}
                Reading::Base(case) | Reading::Case(case) => take_lines(self.alloc, case, line)?,
            }
        }
        Ok(())
    }

    /// A case of this name.
    fn begun(&self, name: &str) -> io::Result<Case> {
        let case = match &self.base {
            None => Case::new(self.alloc, name)?,
            Some(base) => base.from_here(self.alloc, name)?,
        };
        Ok(case)
    }

    /// Ends what is being read, and tries it if it is a case.
    pub fn end(&mut self, rt: &HostRuntime) -> io::Result<()> {
        match std::mem::replace(&mut self.reading, Reading::Head) {
            Reading::Head => {}
            Reading::Base(case) => self.base = Some(case),
            Reading::Case(case) => {
                self.tried = self.tried.saturating_add(1);
                if !is_answered(rt, self.alloc, &case)? {
                    self.differ = self.differ.saturating_add(1);
                }
            }
        }
        Ok(())
    }

    /// How many cases were tried, and how many of them were answered otherwise.
    pub fn counts(&self) -> (u64, u64) {
        (self.tried, self.differ)
    }
}

/// Hands a case all lines that one stands for.
fn take_lines(alloc: Global, case: &mut Case, line: &str) -> io::Result<()> {
    let Some(repeated) = line.strip_prefix("%").and_then(|rest| Repeated::read(rest)) else {
        case.line(line)?;
        return Ok(());
    };
    let mut one = String::new(alloc);
    for number in repeated.first..=repeated.last {
        one.clear();
        repeated.append_line(&mut one, number)?;
        case.line(one.as_str())?;
    }
    Ok(())
}
