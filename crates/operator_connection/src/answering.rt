//! What a connection with a seat is answered.

ghost use Rattle.std.specs.Prelude.{◌≡◌, ◌++◌, ℕ, false, List, IfOk, OnOk, OnErr};
ghost use Rattle.operator_lines.specs.Fed.{StandsFor, texts};
ghost use Rattle.operator_lines.specs.DeskAsk.{news};
ghost use Rattle.operator_lines.specs.Operators.{AnswersLine, AppendsReply};
ghost use Rattle.operator_connection.specs.Talking.{after_line, refuses, Refuses};
ghost use Rattle.operator_connection.specs.Talking.{AnswersFirst, AnswersAll, AnswersOctets, AnswersSome, BreaksOff};

use crate::talking::{LinkState, Talk};
use operator_lines::{Fed, LineDesk, Next, answer, print_too_long};
use std::alloc::{AllocError, Global};
use std::sync::atomic::{AtomicBool, Ordering};

impl Talk {
    /// Answers a line at this moment. An `Err` appends nothing, but a call may be carried out.
    fn answer_line<D: LineDesk>(
        &mut self,
        alloc: Global,
        desk: &mut D,
        moment: u64,
        line: &[u8],
        text: &mut Vec<u8>,
    ) -> Result<Next, AllocError>
        ensures answer { IfOk result (λ next.
            AnswersLine (D.replies moment) D.shows desk.old desk.new line.now
            self.old.outgoing self.new.outgoing next) }
        ensures standing { IfOk result (λ next. self.new.standing ≡ after_line next self.new.outgoing) }
        ensures err { OnErr result (self.new.outgoing ≡ self.old.outgoing) }
        ensures lines { self.new.lines ≡ self.old.lines }
    {
        text.clear();
        let next = answer(alloc, desk, moment, line, text)?;
        self.outgoing.append(text)?;
        self.standing = self.after(next);
        Ok(next)
    }

    /// Answers these lines, until one of them ends the connection, or the bridge is stopped. Returns whether it was
    /// found to be stopped. After an `Err` the connection is of no use.
    fn answer_lines<D: LineDesk>(
        &mut self,
        alloc: Global,
        desk: &mut D,
        moment: u64,
        lines: &[Vec<u8>],
        text: &mut Vec<u8>,
        stopped: &AtomicBool,
    ) -> Result<bool, AllocError>
        requires open { self.old.standing ≡ LinkState.Open }
        ensures first { IfOk result (λ stops. AnswersFirst (D.replies moment) D.shows (texts lines.now)
            desk.old desk.new self.old.outgoing self.new.outgoing self.new.standing stops) }
        ensures broke { OnErr result
            (AnswersSome (D.replies moment) D.shows (texts lines.now) desk.old self.old.outgoing self.new.outgoing) }
        ensures lines { self.new.lines ≡ self.old.lines }
    {
        for line in lines {
            if stopped.load(Ordering::SeqCst) {
                return Ok(true);
            }
            self.answer_line(alloc, desk, moment, line, text)?;
            if !self.is_open() {
                return Ok(false);
            }
        }
        Ok(false)
    }

    /// Refuses a line that is too long, if there is one: behind all other lines, while the connection is open, which it
    /// ends. An `Err` changes nothing.
    pub fn refuse_too_long(
        &mut self,
        alloc: Global,
        is_too_long: bool,
        stops: bool,
        text: &mut Vec<u8>,
    ) -> Result<(), AllocError>
        ensures refused { OnOk result (Refuses (refuses is_too_long stops self.old.standing)
            self.old.outgoing self.new.outgoing self.old.standing self.new.standing) }
        ensures err { OnErr result (self.new ≡ self.old) }
        ensures goes_on { OnErr result (stops ≡ false) }
        ensures lines { self.new.lines ≡ self.old.lines }
    {
        if is_too_long && !stops && self.is_open() {
            text.clear();
            print_too_long(alloc, text)?;
            self.outgoing.append(text)?;
            self.standing = LinkState::Ending;
        }
        Ok(())
    }

    /// Answers the lines that were heard, and then refuses one that is too long, if there is one. Returns whether the
    /// bridge was found to be stopped. After an `Err` the connection is of no use, and a call may have been made.
    fn answer_all<D: LineDesk>(
        &mut self,
        alloc: Global,
        desk: &mut D,
        moment: u64,
        heard: &Fed,
        text: &mut Vec<u8>,
        stopped: &AtomicBool,
    ) -> Result<bool, AllocError>
        requires stands { self.old.standing ≡ LinkState.Open }
        ensures all { IfOk result (λ stops. AnswersAll (D.replies moment) D.shows (texts heard.now.lines.items)
            heard.now.too_long desk.old desk.new self.old.outgoing self.new.outgoing self.new.standing stops) }
        ensures broke { OnErr result (AnswersSome (D.replies moment) D.shows (texts heard.now.lines.items)
            desk.old self.old.outgoing self.new.outgoing) }
        ensures lines { self.new.lines ≡ self.old.lines }
    {
        let stops = self.answer_lines(alloc, desk, moment, &heard.lines, text, stopped)?;
        self.refuse_too_long(alloc, heard.too_long, stops, text)?;
        Ok(stops)
    }

    /// Takes the next octets of the stream, and answers the lines that they end. Returns whether the bridge was found
    /// to be stopped. An `Err` loses the connection, and a call may have been carried out.
    pub fn hear<D: LineDesk>(
        &mut self,
        alloc: Global,
        desk: &mut D,
        octets: &[u8],
        text: &mut Vec<u8>,
        now: u64,
        stopped: &AtomicBool,
    ) -> Result<bool, AllocError>
        requires stands { self.old.standing ≡ LinkState.Open }
        ensures heard { IfOk result (λ stops. (before : List ℕ) → StandsFor self.old.lines before
            → AnswersOctets (D.replies now) D.shows before octets.now desk.old desk.new
            self.old.outgoing self.new.outgoing self.new.standing stops) }
        ensures kept { IfOk result (λ stops. (before : List ℕ) → StandsFor self.old.lines before
            → StandsFor self.new.lines (before ++ octets.now)) }
        ensures since { self.new.since ≡ now }
        ensures lost { OnErr result (self.new.standing ≡ LinkState.Lost) }
        ensures broke { OnErr result ((before : List ℕ) → StandsFor self.old.lines before
            → BreaksOff (D.replies now) D.shows before octets.now desk.old self.old.outgoing self.new.outgoing) }
    {
        match self.lines.feed(alloc, octets) {
            Ok(fed) => {
                let said = self.answer_all(alloc, desk, now, &fed, text, stopped);
                self.since = now;
                self.or_lost(said)
            }
            Err(error) => {
                self.since = now;
                self.or_lost(Err(error))
            }
        }
    }

    /// Appends the news of a watch to what waits. An `Err` appends nothing.
    pub fn append_news<D: LineDesk>(
        &mut self,
        alloc: Global,
        desk: &mut D,
        moment: u64,
        text: &mut Vec<u8>,
    ) -> Result<(), AllocError>
        ensures news { OnOk result
            (AppendsReply (D.replies moment) desk.old desk.new news self.old.outgoing self.new.outgoing) }
        ensures standing { OnOk result (self.new.standing ≡ after_line Next.Stay self.new.outgoing) }
        ensures err { OnErr result (self.new.outgoing ≡ self.old.outgoing) }
        ensures lines { self.new.lines ≡ self.old.lines }
        ensures since { self.new.since ≡ self.old.since }
    {
        text.clear();
        desk.tell_news(alloc, moment, text)?;
        self.outgoing.append(text)?;
        self.standing = self.after(Next::Stay);
        Ok(())
    }

    /// Answers the lines that were heard before the connection had its seat. Returns whether the bridge was found to be
    /// stopped. An `Err` loses the connection, and a call may have been carried out.
    pub fn answer_heard<D: LineDesk>(
        &mut self,
        alloc: Global,
        desk: &mut D,
        moment: u64,
        heard: &Fed,
        text: &mut Vec<u8>,
        stopped: &AtomicBool,
    ) -> Result<bool, AllocError>
        requires stands { self.old.standing ≡ LinkState.Open }
        ensures all { IfOk result (λ stops. AnswersAll (D.replies moment) D.shows (texts heard.now.lines.items)
            heard.now.too_long desk.old desk.new self.old.outgoing self.new.outgoing self.new.standing stops) }
        ensures lines { self.new.lines ≡ self.old.lines }
        ensures lost { OnErr result (self.new.standing ≡ LinkState.Lost) }
        ensures broke { OnErr result (AnswersSome (D.replies moment) D.shows (texts heard.now.lines.items)
            desk.old self.old.outgoing self.new.outgoing) }
    {
        let said = self.answer_all(alloc, desk, moment, heard, text, stopped);
        self.or_lost(said)
    }
}
