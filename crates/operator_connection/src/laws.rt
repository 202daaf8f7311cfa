//! Laws of all that is done on an operator's connection. The functions do nothing when they run.

ghost use Rattle.std.specs.Prelude.{◌≡◌, false, List};
ghost use Rattle.operator_connection.specs.Connection.{Connection};
ghost use Rattle.operator_connection.specs.Deeds.{Deed, SeatedDeed, AreDeeds, AreSeatedDeeds};
ghost use Rattle.operator_connection.specs.Talking.{is_open};
ghost use Rattle.operator_connection.specs.Talks.{IsStream, GoesOn, StaysEnded};

use operator_lines::LineDesk;

/// In any number of rounds, all that was read on a connection is the stream whose lines are heard, as long as it is
/// open. And what was written, followed by what waits, is all that was appended so far: no octet is lost, written
/// twice or out of order.
pub fn what_is_said_goes_on<D: LineDesk>()
    ensures alone { (deeds : List Deed) (old new : Connection) → AreDeeds deeds old new
        → IsStream old → GoesOn old new }
    ensures seated { (deeds : List SeatedDeed) (old new : D × Connection)
        → AreSeatedDeeds D.replies D.shows deeds old new → IsStream old.1 → GoesOn old.1 new.1 }
{}

/// Once a connection has ended, nothing more is read, and no line is answered: the desk stays as it was.
pub fn nothing_is_said_after_the_end<D: LineDesk>()
    ensures { (deeds : List SeatedDeed) (old new : D × Connection) → AreSeatedDeeds D.replies D.shows deeds old new
        → is_open old.1.standing ≡ false → (new.0 ≡ old.0) × StaysEnded old.1 new.1 }
{}
