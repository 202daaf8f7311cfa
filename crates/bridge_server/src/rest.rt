//! A rest before a wait, so that several datagrams are taken in at a wake.

ghost use Rattle.std.specs.Prelude.{◌≡◌, ◌≤◌};
ghost use Rattle.bridge_server.specs.Rests.{most_rest};

/// How long the front rests, in nanoseconds: 1 ms.
const REST: u64 = 1_000_000;

/// How close datagrams have to come for it, in nanoseconds from one to the next on average: 0.5 ms, so that a rest
/// gathers at least two.
const CLOSE: u64 = 500_000;

/// How many datagrams a round reads at most for it. Behind more of them, what comes in a rest may not fit in the
/// socket's buffer.
const FEW: u32 = 16;

/// When the front rests before it waits: where few datagrams were read since the last wait began, and they came close
/// to one another.
// A wake costs more than the reading of a datagram. Where datagrams are rare, nothing waits for others.
#[derive(Clone, Copy)]
pub(crate) struct Rest {
    /// How many datagrams were read since the last wait began.
    reads: u32,
    /// How long the last wait might have lasted, in nanoseconds: until the next tick.
    longest: u64,
}

impl Rest {
    /// No datagram was read yet.
    pub(crate) fn new() -> Self
        ensures { result ≡ record { reads = 0; longest = 0 } }
    {
        Self {
            reads: 0,
            longest: 0,
        }
    }

    /// Notes that a datagram was read.
    pub(crate) fn note_read(&mut self) {
        self.reads = self.reads.saturating_add(1);
    }

    /// Begins a wait of at most `longest` nanoseconds. Returns how many of them the front rests first.
    pub(crate) fn begin_wait(&mut self, longest: u64) -> u64
        ensures most { result ≤ most_rest }
        ensures longest { result ≤ longest }
        ensures idle { self.old.reads ≡ 0 → result ≡ 0 }
        ensures next { self.new ≡ record { reads = 0; longest = longest } }
    {
        let (reads, before) = (self.reads, self.longest);
        *self = Self { reads: 0, longest };
        // A tick was given since the last wait where this one may last longer.
        let Some(since) = before.checked_sub(longest) else {
            return 0;
        };
        if reads == 0 || reads > FEW || longest < REST {
            return 0;
        }
        if since < u64::from(reads).saturating_mul(CLOSE) {
            REST
        } else {
            0
        }
    }
}
