//! What a socket may do, as the system last reported.

ghost use Rattle.std.specs.Prelude.{◌≡◌, true};
ghost use Rattle.operator_connection.specs.Readiness.{after_events, longest_wait, not_after};

use crate::talking::Came;

/// How many milliseconds a round waits at most. So each connection sees a `stop` within a second.
// Nothing wakes all polls at once, so each connection looks by itself whether the bridge stops.
const LONGEST_WAIT: u64 = 50;

/// What a socket may do, as the system last reported.
#[derive(Clone, Copy, Debug, PartialEq, Eq)]
pub(crate) struct Readiness {
    /// Octets may wait to be read.
    pub readable: bool,
    /// The socket may take octets.
    pub writable: bool,
}

impl Readiness {
    /// A socket that was not tried yet may do both.
    pub fn untried() -> Self
        ensures readable { result.readable ≡ true }
        ensures writable { result.writable ≡ true }
    {
        Self {
            readable: true,
            writable: true,
        }
    }

    /// Notes whether the system reported anything: then the socket may do both.
    pub fn note_events(&mut self, any: bool)
        ensures { self.new ≡ after_events any self.old }
    {
        if any {
            *self = Self::untried();
        }
    }

    /// Notes what a read gave.
    pub fn note_read(&mut self, came: Came)
        ensures readable { self.new.readable ≡ not_after came self.old.readable }
        ensures writable { self.new.writable ≡ self.old.writable }
    {
        if came == Came::Later {
            self.readable = false;
        }
    }

    /// Notes what a write gave.
    pub fn note_write(&mut self, came: Came)
        ensures readable { self.new.readable ≡ self.old.readable }
        ensures writable { self.new.writable ≡ not_after came self.old.writable }
    {
        if came == Came::Later {
            self.writable = false;
        }
    }

    /// How many milliseconds a round waits at most, of a connection that reads, or that has something to write.
    pub fn longest_wait(self, reads: bool, writes: bool) -> u64
        ensures { result ≡ longest_wait self reads writes }
    {
        if self.readable && reads || self.writable && writes {
            0
        } else {
            LONGEST_WAIT
        }
    }
}
