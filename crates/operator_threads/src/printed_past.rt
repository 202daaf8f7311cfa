//! The calls in force as they were printed last.

ghost use Rattle.std.specs.Prelude.{◌≡◌, ◌++◌, [], IfOk, OnOk, OnErr};
ghost use Rattle.std.specs.Bool.{OnTrue};
ghost use Rattle.operator_threads.specs.Told.{SeatTellsPast, TellsPast};
ghost use Rattle.operator_desk.specs.PastCalls.{PastOf};

use desk_text::print_history;
use operator_desk::{DeskBrand, Past, Seat, SharedDesk};
use std::alloc::{AllocError, Global};
use std::marker::Model;
use std::sync::Wait;

/// The lines of a desk's calls in force, and of those that can be redone, as they were printed last. Contracts see the
/// octets.
#[derive(Drop)]
pub(crate) struct PrintedPast<'a, H: DeskBrand> {
    /// What they are of, if they are of something.
    past: Option<Past<'a, H>>,
    /// How many of each were asked for at most.
    most: u64,
    text: Vec<u8>,
}

impl<'a, H: DeskBrand> Model for PrintedPast<'a, H> {
    ghost use Rattle.std.specs.Prelude.{ℕ, List, IfSome};
    ghost use Rattle.operator_threads.specs.Told.{TellsPast};

    ghost Value = { List ℕ };

    ghost view = { λ p. p.text.items };

    ghost invariant = { λ p. IfSome p.past (λ past. TellsPast H.start p.most past p.text.items) };
}

impl<'a, H: DeskBrand> PrintedPast<'a, H> {
    /// Nothing was printed yet. It takes no memory.
    pub fn nothing(alloc: Global) -> Self
        ensures { result ≡ [] }
    {
        Self {
            past: None,
            most: 0,
            text: Vec::new(alloc),
        }
    }

    /// Whether the lines are what was asked for: they have so many calls of each kind at most, and are of this version
    /// or of a later one, and of all calls that the seat has seen.
    fn is_for(&self, asked: u64, most: u64, seat: &Seat<'a, H>) -> bool
        ensures { OnTrue result (SeatTellsPast H.start asked most seat.now self.now) }
    {
        match &self.past {
            Some(past) => {
                self.most == most && past.version() >= asked && past.goes_on_from(seat)
            }
            None => false,
        }
    }

    /// Prints the calls of the version that is published now, unless those that were printed last are what was asked
    /// for. Returns whether they are; no clause of the desk says so. The only error is out of memory.
    pub fn refresh<R: Wait>(
        &mut self,
        rt: &R,
        alloc: Global,
        desk: &SharedDesk<'a, H>,
        asked: u64,
        most: u64,
        seat: &Seat<'a, H>,
    ) -> Result<bool, AllocError>
        ensures { IfOk result (λ is_for. OnTrue is_for (SeatTellsPast H.start asked most seat.now self.new)) }
    {
        if self.is_for(asked, most, seat) {
            return Ok(true);
        }
        self.print_anew(rt, alloc, desk, most)?;
        Ok(self.is_for(asked, most, seat))
    }

    /// Prints the calls of the version that is published now. The only error is out of memory.
    fn print_anew<R: Wait>(
        &mut self,
        rt: &R,
        alloc: Global,
        desk: &SharedDesk<'a, H>,
        most: u64,
    ) -> Result<(), AllocError>
        ensures { OnOk result ((past : PastOf) × TellsPast H.start most past self.new) }
    {
        let past = desk.past(rt, alloc, most as usize)?;
        self.past = None;
        self.text.clear();
        print_history(past.done(), past.undone(), past.version(), &mut self.text)?;
        self.most = most;
        self.past = Some(past);
        Ok(())
    }

    /// Appends the lines. An `Err` appends nothing.
    pub fn append(&self, out: &mut Vec<u8>) -> Result<(), AllocError>
        ensures ok { OnOk result (out.new.items ≡ out.old.items ++ self.now) }
        ensures err { OnErr result (out.new.items ≡ out.old.items) }
    {
        out.extend_from_slice(&self.text)
    }
}
