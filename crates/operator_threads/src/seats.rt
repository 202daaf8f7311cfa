//! The free seats.

ghost use Rattle.std.specs.Prelude.{◌≡◌, ◌<◌, ◌++◌, ◌∷◌, ℕ, [], None, IfSome, IfNone, nat_eq, vec_len, vec_capacity};
ghost use Rattle.operator_desk.specs.Opening.{most_operators};
ghost use Rattle.operator_threads.specs.Free.{seat_at, IsLowest, IsLowestAt, IsTakenFrom};

use operator_desk::{DeskBrand, MAX_OPERATORS, Seat};

/// Seats that are free.
#[derive(Drop)]
pub(crate) struct FreeSeats<'a, H: DeskBrand> {
    pub seats: Vec<Seat<'a, H>>,
}

/// A seat that was taken. It is not `Drop`, so that it is given back: by [`FreeSeats::give`].
pub(crate) struct TakenSeat<'a, H: DeskBrand> {
    pub seat: Seat<'a, H>,
}

impl<'a, H: DeskBrand> FreeSeats<'a, H> {
    /// Where the seat of an operator is among these.
    fn seat_at(&self, op: u32) -> Option<usize>
        ensures { result ≡ seat_at op self.now.seats.items }
    {
        self.seats.iter().position(|seat| seat.op() == op)
    }

    /// Whether no seat is free.
    pub fn is_empty(&self) -> bool
        ensures { result ≡ nat_eq (vec_len self.now.seats) 0 }
    {
        self.seats.is_empty()
    }

    /// How many seats are free.
    pub fn count(&self) -> usize
        ensures { result ≡ vec_len self.now.seats }
    {
        self.seats.len()
    }

    /// Where the free seat of the lowest operator is.
    fn lowest(&self) -> Option<usize>
        ensures lowest { IfSome result (λ at. IsLowestAt at self.now.seats.items) }
        ensures none { IfNone result ((op : ℕ) → op < most_operators → seat_at op self.now.seats.items ≡ None) }
    {
        for op in 0..MAX_OPERATORS {
            let at = self.seat_at(op);
            if at.is_some() {
                return at;
            }
        }
        None
    }

    /// Takes the free seat of the lowest operator.
    #[tactic(auto, using(crate::proofs::FreeLemmas::seat_of))]
    pub fn take(&mut self) -> Option<TakenSeat<'a, H>>
        ensures lowest { IfSome result (λ taken. IsLowest taken.seat.op self.old.seats.items) }
        ensures taken { IfSome result (λ taken. IsTakenFrom taken.seat.op taken.seat
            self.old.seats.items self.new.seats.items) }
        ensures none { IfNone result ((op : ℕ) → op < most_operators → seat_at op self.old.seats.items ≡ None) }
        ensures capacity { vec_capacity self.new.seats ≡ vec_capacity self.old.seats }
    {
        match self.lowest() {
            None => None,
            Some(at) => {
                let seat = self.seats.swap_remove(at);
                Some(TakenSeat { seat })
            }
        }
    }

    /// Takes the last of the seats.
    pub fn take_last(&mut self) -> Option<TakenSeat<'a, H>>
        ensures taken { IfSome result (λ taken. self.old.seats.items ≡ self.new.seats.items ++ taken.seat ∷ []) }
        ensures none { IfNone result (self.new.seats.items ≡ []) }
        ensures capacity { vec_capacity self.new.seats ≡ vec_capacity self.old.seats }
    {
        match self.seats.pop() {
            None => None,
            Some(seat) => Some(TakenSeat { seat }),
        }
    }

    /// Gives a seat back. It takes no memory: the list has capacity for the seats that were taken from it. A seat
    /// beyond those is lost.
    pub fn give(&mut self, taken: TakenSeat<'a, H>)
        ensures back { vec_len self.old.seats < vec_capacity self.old.seats
            → self.new.seats.items ≡ self.old.seats.items ++ taken.entry.seat ∷ [] }
        ensures capacity { vec_capacity self.new.seats ≡ vec_capacity self.old.seats }
    {
        let TakenSeat { seat } = taken;
        if self.seats.len() < self.seats.capacity() {
            self.seats.push_reserved(seat);
        }
    }
}
