//! The names that operators give to rooms, members and sources.

ghost use Rattle.std.specs.Prelude.{
  ◌≡◌,
  ◌+◌,
  ◌-◌,
  ◌^◌,
  ◌↔◌,
  ◌++◌,
  min,
  IfOk,
  OnOk,
  IsTrue,
};
ghost use Rattle.json.specs.Value.{value_view, members_view};
ghost use Rattle.desk_http.specs.Names.{
  is_name,
  are_names,
  holds_names,
  IsNamesText,
  IsChange,
  heading,
  names_body,
  IsValidated,
};

use json::{Error, Scratch, Value};
use std::alloc::{AllocError, Global};

/// The most octets of a name: 200 characters of UTF-8 fit.
const LONGEST_NAME: usize = 800;

/// All names, and their version.
// A change gives all names and the version that its browser saw, as an undo does. So two browsers lose no name, and the
// contract says the whole of it.
#[derive(Drop)]
pub struct Names {
    /// The text of a JSON object, whose values are the names.
    pub text: Vec<u8>,
    /// How many times they were changed in this run.
    pub version: u64,
}

/// What a line about names does.
#[derive(Drop)]
pub enum NamesOutcome {
    /// It asks for the names.
    Shown,
    /// It changes an older version: the browser has to get the names first.
    Newer,
    /// It isn't followed by names: a JSON object whose values are texts of up to 800 octets.
    NoNames,
    /// It changes the names to this text. Save it, and then [`replace`](Names::replace) the names.
    New(Vec<u8>),
}

fn is_name(value: &Value<'_>) -> bool
    ensures { result ≡ is_name (value_view value.now) }
{
    match value {
        Value::String(name) => name.len() <= LONGEST_NAME,
        Value::Null | Value::Bool(_) | Value::Number(_) | Value::Array(_) | Value::Object(_) =>
            false,
    }
}

fn are_names(members: &[(&str, Value<'_>)]) -> bool
    ensures { result ≡ are_names (members_view members.now) }
{
    for member in members {
        if !is_name(&member.1) {
            return false;
        }
    }
    true
}

fn holds_names(value: &Value<'_>) -> bool
    ensures { result ≡ holds_names (value_view value.now) }
{
    match value {
        Value::Object(members) => are_names(members),
        Value::Null | Value::Bool(_) | Value::Number(_) | Value::String(_) | Value::Array(_) =>
            false,
    }
}

/// Whether a text is a JSON object whose values are names.
pub fn is_names_text(alloc: Global, text: &[u8]) -> Result<bool, AllocError>
    ensures { IfOk result (λ is. IsTrue is ↔ IsNamesText text.now) }
{
    let mut scratch = Scratch::new(alloc);
    match Value::from_slice(alloc, text, &mut scratch) {
        Ok(value) => Ok(holds_names(&value)),
        Err(Error::OutOfMemory) => Err(AllocError),
        Err(Error::Invalid | Error::TooLong | Error::DuplicateKey) => Ok(false),
    }
}

/// The first line of names of this version: `names VERSION` and an LF.
fn heading(alloc: Global, version: u64) -> Result<Vec<u8>, AllocError>
    ensures { IfOk result (λ line. line.items ≡ heading version) }
{
    Ok(format!(in alloc; "names {version}\n")?.into_bytes())
}

fn validated_text(alloc: Global, text: &[u8]) -> Result<NamesOutcome, AllocError>
    ensures { IfOk result (IsChange text.now) }
{
    if is_names_text(alloc, text)? {
        Ok(NamesOutcome::New(Vec::from_slice(alloc, text)?))
    } else {
        Ok(NamesOutcome::NoNames)
    }
}

impl Names {
    /// These names, as version 0. The text has to be one of names.
    pub fn new(text: Vec<u8>) -> Self
        ensures text { result.text ≡ text }
        ensures version { result.version ≡ 0 }
    {
        Self { text, version: 0 }
    }

    /// Validates a line about names. Nothing changes yet.
    pub fn validate(&self, alloc: Global, line: &[u8]) -> Result<NamesOutcome, AllocError>
        ensures { IfOk result (IsValidated self.now line.now) }
    {
        let head = heading(alloc, self.version)?;
        if line == b"names".as_slice() {
            Ok(NamesOutcome::Shown)
        } else if line.len() >= head.len() && &line[..head.len()] == head.as_slice() {
            validated_text(alloc, &line[head.len()..])
        } else {
            Ok(NamesOutcome::Newer)
        }
    }

    /// Takes new names, and counts up the version.
    pub fn replace(&mut self, text: Vec<u8>)
        ensures text { self.new.text ≡ text }
        ensures version { self.new.version ≡ min (self.old.version + 1) (2 ^ 64 - 1) }
    {
        self.text = text;
        self.version = self.version.saturating_add(1);
    }

    /// Appends the line `names VERSION`. An `Err` may append a part.
    pub fn append_heading(&self, alloc: Global, out: &mut Vec<u8>) -> Result<(), AllocError>
        ensures { OnOk result (out.new.items ≡ out.old.items ++ heading self.now.version) }
    {
        let head = heading(alloc, self.version)?;
        out.extend_from_slice(&head)
    }

    /// The line `names VERSION`, and the names.
    pub fn body(&self, alloc: Global) -> Result<Vec<u8>, AllocError>
        ensures { IfOk result (λ text. text.items ≡ names_body self.now) }
    {
        let mut out = heading(alloc, self.version)?;
        out.extend_from_slice(&self.text)?;
        Ok(out)
    }
}
