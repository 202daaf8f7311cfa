//! The operators of a script.

use crate::act::Act;
use crate::difference::Difference;
use crate::one_thread::OneThread;
use crate::talker::{Place, Talker};
use operator_desk::DeskBrand;
use std::sync::Wait;

/// Three operators, one more than there are seats. They are not `Drop`: end them by [`Talkers::leave`].
pub struct Talkers<'b, 'a, H: DeskBrand, R: Wait> {
    first: Talker<'b, 'a, H, R>,
    second: Talker<'b, 'a, H, R>,
    third: Talker<'b, 'a, H, R>,
}

impl<'b, 'a, H: DeskBrand, R: Wait> Talkers<'b, 'a, H, R> {
    /// Nobody is connected.
    pub fn nobody() -> Self {
        Self {
            first: Talker::nobody(),
            second: Talker::nobody(),
            third: Talker::nobody(),
        }
    }

    /// Gives the seats back.
    pub fn leave(self) {
        let Talkers {
            first,
            second,
            third,
        } = self;
        first.leave();
        second.leave();
        third.leave();
    }

    /// One of them does what a line of the script asks for.
    pub fn act(
        &mut self,
        place: &Place<'b, 'a, H, R>,
        model: &mut OneThread,
        who: u64,
        act: Act<'_>,
    ) -> Result<(), Difference> {
        match who {
            0 => acted(&mut self.first, place, model, act),
            1 => acted(&mut self.second, place, model, act),
            _ => acted(&mut self.third, place, model, act),
        }
    }

    /// Ends all connections.
    pub fn finish(
        &mut self,
        place: &Place<'b, 'a, H, R>,
        model: &mut OneThread,
    ) -> Result<(), Difference> {
        self.first.finish(place, model)?;
        self.second.finish(place, model)?;
        self.third.finish(place, model)
    }
}

/// An operator does what a line of the script asks for.
fn acted<'b, 'a, H: DeskBrand, R: Wait>(
    talker: &mut Talker<'b, 'a, H, R>,
    place: &Place<'b, 'a, H, R>,
    model: &mut OneThread,
    act: Act<'_>,
) -> Result<(), Difference> {
    match act {
        Act::Connect(_) => talker.connect(place)?,
        Act::Say(_, text) => talker.say(place, text, model.desk.last())?,
        Act::Turn(_, octets) => talker.turn(place, model, octets)?,
        Act::Hang(_) => talker.end(false),
        Act::Fail(_) => talker.end(true),
        _ => {}
    }
    Ok(())
}
