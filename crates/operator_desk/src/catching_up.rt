//! A seat that catches up with the log.

ghost use Rattle.std.specs.Prelude.{◌≡◌, IfOk, IfErr, OnOk, OnErr};
ghost use Rattle.operator_desk.specs.Answers.{HasCaughtUp, IsForeign, Tells};

use crate::desk_brand::DeskBrand;
use crate::desk_inner::DeskInner;
use crate::fault::CallFault;
use crate::seat::Seat;
use published_desk::Notice;

impl<'a, H: DeskBrand> DeskInner<'a, H> {
    /// Lets a seat see the whole log, and returns the notice to which it led. A seat of another desk stays as it was.
    pub fn catch_up(&self, seat: &mut Seat<'a, H>) -> Result<Notice, CallFault>
        ensures caught { OnOk result (HasCaughtUp H.start seat.old seat.new) }
        ensures tells { IfOk result (λ notice. Tells H.start H.publisher seat.new.seen notice) }
        ensures fault { OnErr result (IsForeign H.start seat.old seat.new) }
        ensures named { IfErr result (λ fault. fault ≡ CallFault.SeatForeign) }
    {
        if !self.show(seat) {
            return Err(CallFault::SeatForeign);
        }
        Ok(self.told())
    }
}
