//! Accepted calls.

ghost use Rattle.std.specs.Prelude.{◌≡◌};
ghost use Rattle.desk_edit.specs.Asked.{asked_by};

use desk_edit::Call;
use std::marker::Model;

/// An accepted call. Contracts see its number, the operator who made it, and what it asks.
#[derive(Drop)]
pub struct AcceptedCall<'a> {
    no: u64,
    op: u32,
    call: &'a Call,
}

impl<'a> Model for AcceptedCall<'a> {
    ghost use Rattle.desk_edit.specs.Asked.{asked_by};
    ghost use Rattle.call_history.specs.AcceptedCall.{AcceptedOf};

    ghost Value = { AcceptedOf };

    ghost view = { λ m. record { number = m.no; op = m.op; call = asked_by m.call.now } };
}

impl<'a> AcceptedCall<'a> {
    /// This call of this operator, by its number.
    pub fn new(no: u64, op: u32, call: &'a Call) -> Self
        ensures { result ≡ record { number = no; op = op; call = asked_by call.now } }
    {
        Self { no, op, call }
    }

    /// Its number: the first accepted call is number 1.
    pub fn no(&self) -> u64
        ensures { result ≡ self.now.number }
    {
        self.no
    }

    /// The operator who made it.
    pub fn op(&self) -> u32
        ensures { result ≡ self.now.op }
    {
        self.op
    }

    /// The call.
    pub fn call(&self) -> &'a Call
        ensures { asked_by result.now ≡ self.now.call }
    {
        self.call
    }

    /// The same again.
    pub fn again(&self) -> Self
        ensures { result ≡ self.now }
    {
        Self {
            no: self.no,
            op: self.op,
            call: self.call,
        }
    }
}
