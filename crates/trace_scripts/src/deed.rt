//! What speakers of a trace do.

ghost use Rattle.std.specs.Prelude.{◌≡◌, ◌++◌, OnOk};
ghost use Rattle.lane_wire.specs.Handlings.{versioned_item};
ghost use Rattle.event_loop.specs.Traced.{front_told};
ghost use Rattle.trace_text.specs.TraceLines.{marked};
ghost use Rattle.trace_scripts.specs.Scripts.{DoneAt, item_done, front_done};

use event_loop::{FrontDeed, FrontTold};
use lane_wire::Handled;
use std::alloc::AllocError;
use trace_text::Told;

/// Something that was done at a version of the desk, and has a line.
pub trait Deed: Drop {
    /// The version, and the line.
    ghost done: { Self → DoneAt };

    /// The version: how many calls had been published.
    fn version(&self) -> u64
        ensures { result ≡ DoneAt.version (done self.now) };

    /// Appends the line. An `Err`, out of memory, may leave a part of it.
    fn append_line(&self, told: &Told, out: &mut Vec<u8>) -> Result<(), AllocError>
        ensures { OnOk result (out.new.items
            ≡ out.old.items ++ marked told.now.speaker (DoneAt.line (done self.now))) };
}

/// A lane handled an item.
impl Deed for Handled {
    ghost done = { λ handled. item_done (versioned_item handled) };

    fn version(&self) -> u64 {
        self.version
    }

    fn append_line(&self, told: &Told, out: &mut Vec<u8>) -> Result<(), AllocError> {
        told.tell_item(self.item.item(), out)
    }
}

/// The front of a bridge did something.
impl Deed for FrontTold {
    ghost done = { λ told. front_done (front_told told) };

    fn version(&self) -> u64 {
        self.version
    }

    fn append_line(&self, told: &Told, out: &mut Vec<u8>) -> Result<(), AllocError> {
        match &self.deed {
            FrontDeed::Took {
                moment,
                from,
                octets,
            } => told.tell_datagram(*moment, *from, octets, out),
            FrontDeed::Waited { moment, from, ssrc } => told.tell_wait(*moment, *from, *ssrc, out),
            FrontDeed::Reported { moment } => told.tell_report(*moment, out),
            FrontDeed::Asked { to, ssrc } => told.tell_picture(*to, *ssrc, out),
        }
    }
}
