//! The rows as they were printed last.

ghost use Rattle.std.specs.Prelude.{◌≡◌, ◌++◌, ℕ, [], IfOk, OnOk, OnErr};
ghost use Rattle.std.specs.Bool.{OnTrue};
ghost use Rattle.operator_threads.specs.Told.{SeatShows, ShowsAt};

use desk_text::print_rows;
use operator_desk::{DeskBrand, SharedDesk};
use std::alloc::{AllocError, Global};
use std::marker::{Model, PhantomData};
use std::sync::Wait;

/// The lines of the rows of a hall's desk, as they were printed last. Contracts see the octets.
#[derive(Drop)]
pub(crate) struct Printed<H: DeskBrand> {
    /// The version that they are of, if they are of one.
    version: Option<u64>,
    text: Vec<u8>,
    hall: PhantomData<H>,
}

impl<H: DeskBrand> Model for Printed<H> {
    ghost use Rattle.std.specs.Prelude.{ℕ, List, IfSome};
    ghost use Rattle.operator_threads.specs.Told.{ShowsAt};

    ghost Value = { List ℕ };

    ghost view = { λ p. p.text.items };

    ghost invariant = { λ p. IfSome p.version (λ version. ShowsAt H.start version p.text.items) };
}

impl<H: DeskBrand> Printed<H> {
    /// Nothing was printed yet. It takes no memory.
    pub fn nothing(alloc: Global) -> Self
        ensures { result ≡ [] }
    {
        Self {
            version: None,
            text: Vec::new(alloc),
            hall: PhantomData,
        }
    }

    /// Whether the lines are of this version, or of a later one.
    fn is_since(&self, version: u64) -> bool
        ensures { OnTrue result (SeatShows H.start version self.now) }
    {
        match self.version {
            Some(printed) => printed >= version,
            None => false,
        }
    }

    /// Prints the rows of the version that is published now, unless those that were printed last are of this version or
    /// a later one, which was published when they were asked for. Returns whether they are; no clause of the desk says
    /// so. The only error is out of memory.
    pub fn refresh<R: Wait>(
        &mut self,
        rt: &R,
        alloc: Global,
        desk: &SharedDesk<'_, H>,
        asked: u64,
    ) -> Result<bool, AllocError>
        ensures { IfOk result (λ is_since. OnTrue is_since (SeatShows H.start asked self.new)) }
    {
        if self.is_since(asked) {
            return Ok(true);
        }
        self.print_anew(rt, alloc, desk)?;
        Ok(self.is_since(asked))
    }

    /// Prints the rows of the version that is published now. The only error is out of memory.
    fn print_anew<R: Wait>(
        &mut self,
        rt: &R,
        alloc: Global,
        desk: &SharedDesk<'_, H>,
    ) -> Result<(), AllocError>
        ensures { OnOk result ((version : ℕ) × ShowsAt H.start version self.new) }
    {
        let (version, rows) = desk.rows(rt, alloc)?;
        self.version = None;
        self.text.clear();
        print_rows(&rows, version, &mut self.text)?;
        self.version = Some(version);
        Ok(())
    }

    /// Appends the lines. An `Err` appends nothing.
    pub fn append(&self, out: &mut Vec<u8>) -> Result<(), AllocError>
        ensures ok { OnOk result (out.new.items ≡ out.old.items ++ self.now) }
        ensures err { OnErr result (out.new.items ≡ out.old.items) }
    {
        out.extend_from_slice(&self.text)
    }
}
