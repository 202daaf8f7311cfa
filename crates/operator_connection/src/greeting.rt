//! What a connection without a seat is answered.

ghost use Rattle.std.specs.Prelude.{◌≡◌, ◌++◌, ℕ, List, IfOk, OnOk, OnErr};
ghost use Rattle.operator_lines.specs.Fed.{Brings, StandsFor, texts};
ghost use Rattle.operator_lines.specs.Operators.{busy_line};
ghost use Rattle.operator_connection.specs.Greeting.{GreetsLine, GreetsFirst, GreetsAll, has_none};

use crate::talking::{LinkState, Talk};
use operator_lines::{Fed, Next, Opening, busy, greet};
use std::alloc::{AllocError, Global};
use std::sync::atomic::{AtomicBool, Ordering};

/// What came of the lines of a connection without a seat.
#[derive(Clone, Copy, Debug, PartialEq, Eq)]
pub(crate) enum Greeted {
    /// There is none.
    Nothing,
    /// The first one is good, and wants a seat.
    Good,
    /// The first one is faulty. It was answered, and ends the connection.
    Faulty,
    /// The bridge was found to be stopped.
    Stopped,
}

/// What octets brought to a connection without a seat.
#[derive(Drop)]
pub(crate) struct Brought {
    /// The lines that they ended.
    pub fed: Fed,
    /// What came of these.
    pub greeted: Greeted,
}

impl Greeted {
    /// Whether there was no line.
    fn has_none(self) -> bool
        ensures { result ≡ has_none self }
    {
        match self {
            Greeted::Nothing => true,
            Greeted::Good | Greeted::Faulty | Greeted::Stopped => false,
        }
    }
}

impl Talk {
    /// Deals with the first line of a connection, and returns whether it is a good one, which changes nothing. A faulty
    /// one is answered, and ends the connection. The only error is out of memory, and appends nothing.
    fn greet_line(
        &mut self,
        alloc: Global,
        line: &[u8],
        text: &mut Vec<u8>,
    ) -> Result<bool, AllocError>
        ensures greets { IfOk result (λ is_good. GreetsLine is_good line.now
            self.old.outgoing self.new.outgoing self.old.standing self.new.standing) }
        ensures err { OnErr result (self.new.outgoing ≡ self.old.outgoing) }
        ensures lines { self.new.lines ≡ self.old.lines }
    {
        text.clear();
        match greet(alloc, line, text)? {
            Opening::Good => Ok(true),
            Opening::Faulty => {
                self.outgoing.append(text)?;
                self.standing = self.after(Next::Quit);
                Ok(false)
            }
        }
    }

    /// Deals with the first of these lines. On out of memory, the only error, nothing is appended, and the connection
    /// is of no use.
    fn greet_first(
        &mut self,
        alloc: Global,
        lines: &[Vec<u8>],
        text: &mut Vec<u8>,
        stopped: &AtomicBool,
    ) -> Result<Greeted, AllocError>
        ensures first { IfOk result (λ greeted. GreetsFirst (texts lines.now) greeted
            self.old.outgoing self.new.outgoing self.old.standing self.new.standing) }
        ensures err { OnErr result (self.new.outgoing ≡ self.old.outgoing) }
        ensures lines { self.new.lines ≡ self.old.lines }
    {
        match lines {
            [] => Ok(Greeted::Nothing),
            [first, ..] => {
                if stopped.load(Ordering::SeqCst) {
                    return Ok(Greeted::Stopped);
                }
                if self.greet_line(alloc, first, text)? {
                    Ok(Greeted::Good)
                } else {
                    Ok(Greeted::Faulty)
                }
            }
        }
    }

    /// Deals with the first of these lines, and refuses one that is too long where there is none. On out of memory, the
    /// only error, nothing is appended, and the connection is of no use.
    fn greet_all(
        &mut self,
        alloc: Global,
        lines: &[Vec<u8>],
        is_too_long: bool,
        text: &mut Vec<u8>,
        stopped: &AtomicBool,
    ) -> Result<Greeted, AllocError>
        ensures all { IfOk result (λ greeted. GreetsAll (texts lines.now) is_too_long greeted
            self.old.outgoing self.new.outgoing self.old.standing self.new.standing) }
        ensures err { OnErr result (self.new.outgoing ≡ self.old.outgoing) }
        ensures lines { self.new.lines ≡ self.old.lines }
    {
        let greeted = self.greet_first(alloc, lines, text, stopped)?;
        self.refuse_too_long(alloc, is_too_long, !greeted.has_none(), text)?;
        Ok(greeted)
    }

    /// Takes the next octets of a connection without a seat, and deals with the first line that they end. An `Err`
    /// appends nothing, and loses the connection.
    pub fn hear_without_seat(
        &mut self,
        alloc: Global,
        octets: &[u8],
        text: &mut Vec<u8>,
        now: u64,
        stopped: &AtomicBool,
    ) -> Result<Brought, AllocError>
        ensures brought { IfOk result (λ heard. (before : List ℕ) → StandsFor self.old.lines before
            → Brings before octets.now (texts heard.fed.lines.items) heard.fed.too_long) }
        ensures heard { IfOk result (λ heard. GreetsAll (texts heard.fed.lines.items) heard.fed.too_long heard.greeted
            self.old.outgoing self.new.outgoing self.old.standing self.new.standing) }
        ensures kept { IfOk result (λ heard. (before : List ℕ) → StandsFor self.old.lines before
            → StandsFor self.new.lines (before ++ octets.now)) }
        ensures since { self.new.since ≡ now }
        ensures lost { OnErr result (self.new.standing ≡ LinkState.Lost) }
        ensures err { OnErr result (self.new.outgoing ≡ self.old.outgoing) }
    {
        match self.lines.feed(alloc, octets) {
            Ok(fed) => {
                let said = self.greet_all(alloc, &fed.lines, fed.too_long, text, stopped);
                self.since = now;
                match self.or_lost(said) {
                    Ok(greeted) => Ok(Brought { fed, greeted }),
                    Err(error) => Err(error),
                }
            }
            Err(error) => {
                self.since = now;
                self.or_lost(Err(error))
            }
        }
    }

    /// Tells a connection that no seat is free for its first good line, and ends it. An `Err` loses it.
    pub fn refuse_seat(&mut self, now: u64) -> Result<(), AllocError>
        ensures told { OnOk result (self.new.outgoing ≡ self.old.outgoing ++ busy_line) }
        ensures ends { OnOk result (self.new.standing ≡ LinkState.Ending) }
        ensures since { self.new.since ≡ now }
        ensures lost { OnErr result (self.new.standing ≡ LinkState.Lost) }
        ensures err { OnErr result (self.new.outgoing ≡ self.old.outgoing) }
        ensures lines { self.new.lines ≡ self.old.lines }
    {
        self.since = now;
        self.standing = LinkState::Ending;
        let told = self.outgoing.append(busy());
        self.or_lost(told)
    }
}
