//! Who follows the calls of a desk, and gives none.

ghost use Rattle.std.specs.Prelude.{◌≡◌, drop, IfOk, OnOk};
ghost use Rattle.operator_desk.specs.Answers.{HasCaughtUp};
ghost use Rattle.operator_desk.specs.PastCalls.{made_of};

use crate::operators::Operators;
use crate::seats::TakenSeat;
use call_history::AcceptedCall;
use operator_desk::DeskBrand;
use std::alloc::{AllocError, Global};
use std::sync::Wait;

/// One that follows the calls of a desk, as a trace of them does. It has a seat, by which it gives no call. It is not
/// `Drop`, so that the seat is given back: end it by [`Follower::leave`].
pub struct Follower<'b, 'a, H: DeskBrand> {
    operators: &'b Operators<'a, H>,
    pub(crate) taken: TakenSeat<'a, H>,
}

impl<'a, H: DeskBrand> Operators<'a, H> {
    /// Takes the free seat of the highest operator for one that follows the calls. `None`: no seat is free.
    pub fn follow<'b, R: Wait>(&'b self, rt: &R) -> Option<Follower<'b, 'a, H>> {
        let taken = self.take_last(rt)?;
        Some(Follower {
            operators: self,
            taken,
        })
    }
}

impl<'b, 'a, H: DeskBrand> Follower<'b, 'a, H> {
    /// All accepted calls, but for so many first ones. It waits for the desk as a call does. An `Err`: memory ran out,
    /// or the desk has no answer.
    pub fn calls_after<R: Wait>(
        &mut self,
        rt: &R,
        alloc: Global,
        passed: usize,
    ) -> Result<Vec<AcceptedCall<'a>>, AllocError>
        ensures caught { OnOk result (HasCaughtUp H.start self.old.taken.seat self.new.taken.seat) }
        ensures calls { IfOk result (λ calls. calls.items ≡ drop passed (made_of self.new.taken.seat.seen)) }
    {
        let desk = &self.operators.desk;
        if desk.catch_up(rt, &mut self.taken.seat).is_err() {
            return Err(AllocError);
        }
        desk.calls_after(alloc, &self.taken.seat, passed)
    }

    /// Gives the seat back.
    pub fn leave<R: Wait>(self, rt: &R) {
        let Follower { operators, taken } = self;
        operators.give(rt, taken);
    }
}
