//! The desk's texts, numbered, so that a browser can name the one that it has.

ghost use Rattle.std.specs.Prelude.{◌≡◌, ◌++◌, [], OnOk, OnErr};
ghost use Rattle.desk_http.specs.States.{number_after, state_line};

use std::alloc::{AllocError, Global};

/// The texts of the desk, numbered: one that differs from the one before has the next number.
// A browser can't tell two desks by their versions: another bridge may have come in this one's place.
#[derive(Drop)]
pub struct DeskTexts {
    /// The last text.
    pub text: Vec<u8>,
    /// Its number.
    pub number: u64,
}

impl DeskTexts {
    /// No text has come.
    pub fn new(alloc: Global) -> Self
        ensures text { result.text.items ≡ [] }
        ensures number { result.number ≡ 0 }
    {
        Self {
            text: Vec::new(alloc),
            number: 0,
        }
    }

    /// Notes the text that the desk has now. On out of memory, the only error, nothing changes.
    pub fn note(&mut self, alloc: Global, text: &[u8]) -> Result<(), AllocError>
        ensures text { OnOk result (self.new.text.items ≡ text.now) }
        ensures number { OnOk result (self.new.number ≡ number_after self.old text.now) }
        ensures err { OnErr result (self.new ≡ self.old) }
    {
        if self.text.as_slice() != text {
            self.text = Vec::from_slice(alloc, text)?;
            self.number = self.number.saturating_add(1);
        }
        Ok(())
    }

    /// Appends the line `state RUN-NUMBER`, which names the last text in this run. An `Err` may append a part.
    pub fn append_state(
        &self,
        alloc: Global,
        run: &[u8],
        out: &mut Vec<u8>,
    ) -> Result<(), AllocError>
        ensures { OnOk result (out.new.items ≡ out.old.items ++ state_line run.now self.now.number) }
    {
        let number = self.number;
        let rest = format!(in alloc; "-{number}\n")?;
        out.extend_from_slice(b"state ")?;
        out.extend_from_slice(run)?;
        out.extend_from_slice(rest.as_bytes())
    }
}
