//! A case as it is written.

use std::alloc::{AllocError, Global};

/// A script, and the output and the end that are wanted of it.
#[derive(Drop)]
pub struct Case {
    name: String,
    script: Vec<u8>,
    output: Vec<u8>,
    end: String,
}

/// The octet that stands for a letter behind a `\`.
fn escaped(letter: u8) -> u8 {
    match letter {
        b'r' => b'\r',
        b't' => b'\t',
        b'u' => 31,
        b'd' => 127,
        _ => letter,
    }
}

/// Appends a line with its escapes read, and with an LF, but where a `\` stands at its end.
fn append_line(text: &mut Vec<u8>, line: &str) -> Result<(), AllocError> {
    let mut is_escaped = false;
    for octet in line.bytes() {
        if is_escaped {
            text.push(escaped(octet))?;
            is_escaped = false;
        } else if octet == b'\\' {
            is_escaped = true;
        } else {
            text.push(octet)?;
        }
    }
    if !is_escaped {
        text.push(b'\n')?;
    }
    Ok(())
}

impl Case {
    /// The case of this name with no line yet.
    pub fn new(alloc: Global, name: &str) -> Result<Self, AllocError> {
        Ok(Self {
            name: String::from_str(alloc, name)?,
            script: Vec::new(alloc),
            output: Vec::new(alloc),
            end: String::from_str(alloc, "0")?,
        })
    }

    /// A case of this name that goes on from this one.
    pub fn from_here(&self, alloc: Global, name: &str) -> Result<Self, AllocError> {
        Ok(Self {
            name: String::from_str(alloc, name)?,
            script: Vec::from_slice(alloc, &self.script)?,
            output: Vec::from_slice(alloc, &self.output)?,
            end: String::from_str(alloc, self.end.as_str())?,
        })
    }

    /// Takes one more line: of the output behind `> `, the end behind `! `, else of the script.
    pub fn line(&mut self, line: &str) -> Result<(), AllocError> {
        if let Some(answer) = line.strip_prefix("> ") {
            append_line(&mut self.output, answer)
        } else if let Some(end) = line.strip_prefix("! ") {
            self.end.clear();
            self.end.push_str(end)
        } else {
            append_line(&mut self.script, line)
        }
    }

    pub fn name(&self) -> &str {
        self.name.as_str()
    }

    pub fn script(&self) -> &[u8] {
        &self.script
    }

    pub fn output(&self) -> &[u8] {
        &self.output
    }

    /// The exit status, and behind it the fault if there is to be one.
    pub fn end(&self) -> &str {
        self.end.as_str()
    }
}
