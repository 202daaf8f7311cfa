//! Operators' connections, at the bridge and at the model.

use crate::act::number_back;
use crate::difference::Difference;
use crate::line::ScriptLine;
use crate::one_thread::OneThread;
use crate::speech::Speech;
use crate::wakes::Wakes;
use operator_connection::Caller;
use operator_desk::DeskBrand;
use operator_threads::{AtDesk, Operators, Seating};
use std::alloc::{AllocError, Global};
use std::sync::Wait;

/// How many rounds a connection may take to end, and how many octets are read and written in each.
const LAST_ROUNDS: u32 = 4_000;

const LAST_OCTETS: u64 = 4_000;

/// The operators of a bridge, as their threads see them.
pub struct Place<'b, 'a, H: DeskBrand, R: Wait> {
    pub rt: &'b R,
    pub alloc: Global,
    pub operators: &'b Operators<'a, H>,
    pub front: &'b Wakes,
}

/// A connection, and what its operator is to be told.
#[derive(Drop)]
pub struct Link {
    caller: Caller<ScriptLine>,
    speech: Speech,
}

impl Link {
    /// A new connection.
    fn open<'b, 'a, H: DeskBrand, R: Wait>(
        place: &Place<'b, 'a, H, R>,
    ) -> Result<Self, Difference> {
        match Caller::new(place.alloc, ScriptLine::new(place.alloc)) {
            Ok(caller) => Ok(Self {
                caller,
                speech: Speech::new(place.alloc),
            }),
            Err(_) => Err(Difference::Memory),
        }
    }

    /// The model takes what was read.
    fn hear(&mut self) -> Result<(), AllocError> {
        self.speech.hear(&self.caller.line().exchange.heard)
    }

    /// Whether what the operator was told is the beginning of what it is to be told.
    fn compare(&self) -> Result<(), Difference> {
        if self
            .speech
            .wanted
            .starts_with(&self.caller.line().exchange.told)
        {
            Ok(())
        } else {
            Err(Difference::Told)
        }
    }

    /// Whether the operator was told all, or the connection has failed.
    fn is_done(&self) -> bool {
        let exchange = &self.caller.line().exchange;
        exchange.has_failed || exchange.told.as_slice() == self.speech.wanted.as_slice()
    }

    /// Ends the model's connection, where the bridge is stopped.
    fn stop_if(&mut self, is_stopped: bool) {
        if is_stopped {
            self.speech.close();
        }
    }
}

/// A place for a connection. It is not `Drop`: end it by [`Talker::leave`].
pub struct Talker<'b, 'a, H: DeskBrand, R: Wait> {
    link: Option<Link>,
    desk: Option<AtDesk<'b, 'a, H, R, Wakes>>,
}

impl<'b, 'a, H: DeskBrand, R: Wait> Talker<'b, 'a, H, R> {
    /// Nobody is connected.
    pub fn nobody() -> Self {
        Self {
            link: None,
            desk: None,
        }
    }

    /// Gives the seat back.
    pub fn leave(self) {
        let Talker { link: _, desk } = self;
        if let Some(desk) = desk {
            desk.leave();
        }
    }

    /// An operator connects, if none is connected.
    pub fn connect(&mut self, place: &Place<'b, 'a, H, R>) -> Result<(), Difference> {
        if self.link.is_none() {
            self.link = Some(Link::open(place)?);
        }
        Ok(())
    }

    /// It says a line. An `@` stands for this version, and a number behind it for how many calls to go back.
    pub fn say(
        &self,
        place: &Place<'b, 'a, H, R>,
        text: &str,
        version: u64,
    ) -> Result<(), AllocError> {
        let Some(link) = &self.link else {
            return Ok(());
        };
        let alloc = place.alloc;
        let line = match text.split_once("@") {
            Some((start, back)) => format!(in alloc; "{start}{}\n", number_back(version, back))?,
            None => format!(in alloc; "{text}\n")?,
        };
        link.caller.line().exchange.say(place.rt, line.as_str())
    }

    /// It says nothing more; or its connection fails.
    pub fn end(&self, fails: bool) {
        if let Some(link) = &self.link {
            link.caller.line().exchange.end(fails);
        }
    }

    /// A round of the connection, which reads and writes so many octets at most.
    pub fn turn(
        &mut self,
        place: &Place<'b, 'a, H, R>,
        model: &mut OneThread,
        octets: u64,
    ) -> Result<(), Difference> {
        let Some(link) = self.link.take() else {
            return Ok(());
        };
        let mut link = link;
        link.caller.line().exchange.allow(octets);
        model.is_stopped = model.is_stopped || link.speech.stops;
        link.stop_if(model.is_stopped);
        let goes_on = if self.desk.is_some() {
            self.serve(place, model, &mut link)?
        } else {
            self.greet(place, model, &mut link)?
        };
        link.compare()?;
        if goes_on {
            self.link = Some(link);
            return Ok(());
        }
        self.give_back(model);
        // One that is stopped has a second to take what waits for it.
        if link.is_done() || model.is_stopped {
            Ok(())
        } else {
            Err(Difference::Closed)
        }
    }

    /// A round with a seat. Returns whether the connection goes on.
    fn serve(
        &mut self,
        place: &Place<'b, 'a, H, R>,
        model: &mut OneThread,
        link: &mut Link,
    ) -> Result<bool, Difference> {
        let goes_on = match &mut self.desk {
            Some(desk) => place
                .operators
                .serve(place.alloc, &mut link.caller, desk, place.front),
            None => true,
        };
        if goes_on {
            link.hear()?;
            link.speech.answer(&mut model.desk)?;
        }
        Ok(goes_on)
    }

    /// A round without a seat. Returns whether the connection goes on.
    fn greet(
        &mut self,
        place: &Place<'b, 'a, H, R>,
        model: &mut OneThread,
        link: &mut Link,
    ) -> Result<bool, Difference> {
        let seating = place
            .operators
            .greet(place.rt, place.alloc, &mut link.caller, place.front);
        let (is_seated, goes_on) = self.note(seating);
        link.hear()?;
        let wants_seat = link.speech.greet()?;
        if is_seated != (wants_seat && model.seats > 0) {
            return Err(Difference::Seat);
        }
        if is_seated {
            model.seats = model.seats.saturating_sub(1);
        } else if wants_seat {
            model.busy = model.busy.saturating_add(1);
            link.speech.refuse()?;
        }
        Ok(goes_on)
    }

    /// Notes what a round without a seat led to: whether the connection has a seat, and whether it goes on.
    fn note(&mut self, seating: Seating<'b, 'a, H, R, Wakes>) -> (bool, bool) {
        match seating {
            Seating::Waits => (false, true),
            Seating::Over => (false, false),
            Seating::Seated(desk) => {
                if let Some(before) = self.desk.replace(desk) {
                    before.leave();
                }
                (true, true)
            }
        }
    }

    /// Gives the seat back, if the connection has one.
    fn give_back(&mut self, model: &mut OneThread) {
        if let Some(desk) = self.desk.take() {
            desk.leave();
            model.seats = model.seats.saturating_add(1);
        }
    }

    /// Ends the connection, whose operator says nothing more.
    pub fn finish(
        &mut self,
        place: &Place<'b, 'a, H, R>,
        model: &mut OneThread,
    ) -> Result<(), Difference> {
        self.end(false);
        for _ in 0..LAST_ROUNDS {
            if self.link.is_none() {
                return Ok(());
            }
            self.turn(place, model, LAST_OCTETS)?;
        }
        Err(Difference::Closed)
    }
}
