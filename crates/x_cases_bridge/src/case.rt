//! A case as it is written.

use std::alloc::{AllocError, Global};

/// Lines to a bridge, with what it has to answer. Each text has an LF behind each line.
#[derive(Drop)]
pub struct Case {
    /// What the case shows.
    pub name: String,
    /// How many lanes the bridge has, 1 to 16.
    pub lanes: u32,
    /// Whether the lines are those of a script, which is run as a whole.
    pub is_script: bool,
    /// The lines before the refused one.
    pub before: String,
    /// The line whose requests for memory are refused, or nothing.
    pub refused: String,
    /// Whether that line makes no request.
    pub takes_none: bool,
    /// The lines behind it.
    pub after: String,
    /// What is asked after a refusal.
    pub asked: String,
    /// The answer to the lines before, the refused one and those after.
    pub wanted: String,
    /// How many octets of that answer stand before each line.
    pub ends: Vec<usize>,
}

/// Appends a line.
fn append(text: &mut String, line: &str) -> Result<(), AllocError> {
    text.push_str(line)?;
    text.push('\n')
}

impl Case {
    /// The case of this name with no line yet.
    pub fn new(alloc: Global, name: &str) -> Result<Self, AllocError> {
        Ok(Self {
            name: String::from_str(alloc, name)?,
            lanes: 1,
            is_script: false,
            before: String::new(alloc),
            refused: String::new(alloc),
            takes_none: false,
            after: String::new(alloc),
            asked: String::new(alloc),
            wanted: String::new(alloc),
            ends: Vec::new(alloc),
        })
    }

    /// A case of this name that goes on from this one.
    pub fn from_here(&self, alloc: Global, name: &str) -> Result<Self, AllocError> {
        Ok(Self {
            name: String::from_str(alloc, name)?,
            lanes: self.lanes,
            is_script: self.is_script,
            before: String::from_str(alloc, self.before.as_str())?,
            refused: String::new(alloc),
            takes_none: false,
            after: String::new(alloc),
            asked: String::from_str(alloc, self.asked.as_str())?,
            wanted: String::from_str(alloc, self.wanted.as_str())?,
            ends: Vec::new(alloc),
        })
    }

    /// Takes one more line.
    pub fn line(&mut self, line: &str) -> Result<(), AllocError> {
        if let Some(answer) = line.strip_prefix("> ") {
            append(&mut self.wanted, answer)
        } else if let Some(refused) = line.strip_prefix("! ") {
            self.refused.push_str(refused)
        } else if let Some(line) = line.strip_prefix("= ") {
            self.takes_none = true;
            self.refused.push_str(line)
        } else if let Some(asked) = line.strip_prefix("? ") {
            append(&mut self.asked, asked)
        } else if let Some(lanes) = line.strip_prefix("lanes ") {
            self.lanes = lanes.parse().unwrap_or(0);
            Ok(())
        } else if self.refused.is_empty() {
            self.ends.push(self.wanted.len())?;
            append(&mut self.before, line)
        } else {
            append(&mut self.after, line)
        }
    }
}
