//! When calls were accepted, and under which names.

ghost use Rattle.std.specs.Prelude.{◌≡◌, [], IfOk};

use crate::accepted_call::AcceptedCall;
use std::alloc::{AllocError, Global};
use std::marker::Model;

/// When a call was accepted, and the name that its operator's connection had then.
///
/// Contracts see the moment, in milliseconds since 1970, and the octets of the name.
#[derive(Drop)]
pub struct CallStamp {
    moment: u64,
    name: Vec<u8>,
}

impl Model for CallStamp {
    ghost use Rattle.call_history.specs.Stamp.{StampOf};

    ghost Value = { StampOf };

    ghost view = { λ s. record { moment = s.moment; name = s.name.items } };
}

impl CallStamp {
    /// This moment, in milliseconds since 1970, and this name.
    pub fn new(alloc: Global, moment: u64, name: &[u8]) -> Result<Self, AllocError>
        ensures { IfOk result (λ stamp. stamp ≡ record { moment = moment; name = name.now }) }
    {
        Ok(Self {
            moment,
            name: Vec::from_slice(alloc, name)?,
        })
    }

    /// This moment, in milliseconds since 1970, and a name without octets. It takes no memory.
    pub fn unnamed(alloc: Global, moment: u64) -> Self
        ensures { result ≡ record { moment = moment; name = [] } }
    {
        Self {
            moment,
            name: Vec::new(alloc),
        }
    }

    /// The moment, in milliseconds since 1970.
    pub fn moment(&self) -> u64
        ensures { result ≡ self.now.moment }
    {
        self.moment
    }

    /// The name.
    pub fn name(&self) -> &[u8]
        ensures { result.now ≡ self.now.name }
    {
        &self.name
    }

    /// The same again.
    pub fn copy(&self, alloc: Global) -> Result<Self, AllocError>
        ensures { IfOk result (λ stamp. stamp ≡ self.now) }
    {
        CallStamp::new(alloc, self.moment, &self.name)
    }
}

/// An accepted call with its stamp. Contracts see both.
#[derive(Drop)]
pub struct StampedCall<'a> {
    made: AcceptedCall<'a>,
    stamp: &'a CallStamp,
}

impl<'a> Model for StampedCall<'a> {
    ghost use Rattle.call_history.specs.Stamp.{StampedOf};

    ghost Value = { StampedOf };

    ghost view = { λ s. record { made = s.made; stamp = s.stamp.now } };
}

impl<'a> StampedCall<'a> {
    /// This call with this stamp.
    pub fn new(made: AcceptedCall<'a>, stamp: &'a CallStamp) -> Self
        ensures { result ≡ record { made = made.entry; stamp = stamp.now } }
    {
        Self { made, stamp }
    }

    /// The call.
    pub fn made(&self) -> &AcceptedCall<'a>
        ensures { result.now ≡ self.now.made }
    {
        &self.made
    }

    /// When it was accepted, and under which name.
    pub fn stamp(&self) -> &'a CallStamp
        ensures { result.now ≡ self.now.stamp }
    {
        self.stamp
    }
}
