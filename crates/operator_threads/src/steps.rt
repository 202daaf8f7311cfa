//! The rounds of an operator's connection at the desk.

ghost use Rattle.std.specs.Prelude.{◌≡◌, List, not};
ghost use Rattle.operator_connection.specs.Connection.{is_seat_over};
ghost use Rattle.operator_connection.specs.Deeds.{SeatedDeed, AreSeatedDeeds};
ghost use Rattle.operator_connection.specs.Talks.{HasWaitedFor, HasHadRounds, HasSat, IsStep};

use crate::at_desk::AtDesk;
use crate::operators::Operators;
use crate::wake::Wake;
use operator_connection::{Caller, CallerLine, Heed};
use operator_desk::DeskBrand;
use operator_lines::LineDesk;
use std::alloc::Global;
use std::sync::Wait;

/// What a round of a connection without a seat led to. With a seat it is not `Drop`: end the desk by
/// [`AtDesk::leave`].
pub enum Seating<'b, 'a, H: DeskBrand, R: Wait, F: Wake> {
    /// Its first good line has not come, or it was refused a seat: another round follows.
    Waits,
    /// It is to be closed, and has no seat.
    Over,
    /// It has a seat: this is its operator at the desk.
    Seated(AtDesk<'b, 'a, H, R, F>),
}

impl<'a, H: DeskBrand> Operators<'a, H> {
    /// Talks with the operator of a connection: the body of its thread. The first good line takes the lowest free seat,
    /// which is given back at the end. It ends when the connection does, or within two seconds of any `stop`.
    ///
    /// `front` is woken after each accepted call, and after `stop`.
    pub fn talk<'b, R: Wait, F: Wake, L: CallerLine + Drop>(
        &'b self,
        rt: &'b R,
        alloc: Global,
        caller: &mut Caller<L>,
        front: &'b F,
    ) {
        if let Some(mut desk) = self.seated(rt, alloc, caller, front) {
            self.sit(rt, alloc, caller, &mut desk, front);
            desk.leave();
        }
    }

    /// Has rounds without a seat, until the first good line has one. `None`: the connection is over, and had none.
    fn seated<'b, R: Wait, F: Wake, L: CallerLine + Drop>(
        &'b self,
        rt: &'b R,
        alloc: Global,
        caller: &mut Caller<L>,
        front: &'b F,
    ) -> Option<AtDesk<'b, 'a, H, R, F>>
        ensures { HasWaitedFor caller.old.connection caller.new.connection }
    {
        for _ in rt.forever() {
            match self.greet(rt, alloc, caller, front) {
                Seating::Waits => {}
                Seating::Over => return None,
                Seating::Seated(desk) => return Some(desk),
            }
        }
        None
    }

    /// Has rounds with a seat, until the connection is over.
    pub fn sit<R: Wait, F: Wake, L: CallerLine + Drop, D: LineDesk>(
        &self,
        rt: &R,
        alloc: Global,
        caller: &mut Caller<L>,
        desk: &mut D,
        front: &F,
    )
        ensures { HasSat D.replies D.shows
            (desk.old, caller.old.connection) (desk.new, caller.new.connection) }
    {
        for _ in rt.forever() {
            if !self.serve(alloc, caller, desk, front) {
                return;
            }
        }
    }

    /// A round of a connection without a seat: waits 50 ms at most, and deals with its first line. A good one takes the
    /// lowest free seat. If none is free, it is answered `busy`.
    pub fn greet<'b, R: Wait, F: Wake, L: CallerLine + Drop>(
        &'b self,
        rt: &'b R,
        alloc: Global,
        caller: &mut Caller<L>,
        front: &'b F,
    ) -> Seating<'b, 'a, H, R, F>
        ensures { HasHadRounds caller.old.connection caller.new.connection }
    {
        match caller.round_without_seat(alloc, &self.stopped) {
            Heed::Over => Seating::Over,
            Heed::Waits => Seating::Waits,
            Heed::Good => self.admit(rt, alloc, caller, front),
        }
    }

    /// Takes a seat for the first good line of a connection, or tells it that none is free.
    fn admit<'b, R: Wait, F: Wake, L: CallerLine + Drop>(
        &'b self,
        rt: &'b R,
        alloc: Global,
        caller: &mut Caller<L>,
        front: &'b F,
    ) -> Seating<'b, 'a, H, R, F>
        ensures { HasWaitedFor caller.old.connection caller.new.connection }
    {
        match self.take(rt) {
            Some(taken) => Seating::Seated(self.at_desk(rt, alloc, front, taken)),
            None => {
                caller.refuse_seat();
                front.note_busy(rt);
                Seating::Waits
            }
        }
    }

    /// A round of a connection with a seat: answers what was heard before it had one; or else waits 50 ms at most,
    /// answers the lines that have come, and tells the news of a watch. Returns whether the connection goes on; if not,
    /// nothing was done on it.
    ///
    /// It stops the bridge for an operator who said `stop`, and then wakes the front.
    pub fn serve<F: Wake, L: CallerLine + Drop, D: LineDesk>(
        &self,
        alloc: Global,
        caller: &mut Caller<L>,
        desk: &mut D,
        front: &F,
    ) -> bool
        ensures over { result ≡ not (is_seat_over caller.old) }
        ensures step { (deeds : List SeatedDeed) × IsStep result caller.old.connection.heeded deeds
            × AreSeatedDeeds D.replies D.shows deeds
            (desk.old, caller.old.connection) (desk.new, caller.new.connection) }
    {
        if caller.is_stopping() && !self.has_stopped() {
            self.stop();
            front.wake();
        }
        if caller.is_over() {
            return false;
        }
        caller.round(alloc, desk, &self.stopped);
        true
    }
}
