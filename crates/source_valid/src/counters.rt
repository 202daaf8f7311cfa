//! The counters of a source past probation (RFC 3550 A.1).

ghost use Rattle.std.specs.Prelude.{◌≡◌, ◌+◌, ◌-◌, ◌<◌, ◌≤◌, ◌^◌, ◌%◌, pos};
ghost use Rattle.source_valid.specs.Stretches.{Stretch, begun, expected_of, greatest_of, max_dropout, max_misorder};
ghost use Rattle.source_valid.specs.Stretches.{told_in};
ghost use Rattle.source_valid.specs.Ranges.{IsInRange};
ghost use Rattle.source_valid.specs.inner.Stands.{Stands, Sound, Answers};

use crate::verdict::Verdict;

/// The number of sequence numbers (RFC 3550 A.1, RTP_SEQ_MOD).
const RTP_SEQ_MOD: u32 = 65536;

/// A number this far ahead or farther is no dropout (RFC 3550 A.1).
const MAX_DROPOUT: u32 = 3000;

/// A number this far behind or farther is not out of order (RFC 3550 A.1).
const MAX_MISORDER: u32 = 100;

/// The most cycles, so that extended numbers fit 64 bits.
const MAX_CYCLES: u64 = 1 << 62;

/// The counters of RFC 3550 A.1 since the last initialisation.
#[derive(Clone, Copy)]
pub struct Counters {
    /// The number that initialised the source.
    pub base_seq: u16,
    /// The low 16 bits of the greatest extended number.
    pub max_seq: u16,
    /// The rest of the greatest extended number: 65536 for each wrap.
    pub cycles: u64,
    /// The number that would restart the source, if it came next.
    pub bad_seq: Option<u16>,
    /// The packets that were accepted. It stays at the most that 64 bits count.
    pub received: u64,
    /// The packets that were expected when the last block was made.
    pub expected_prior: u64,
    /// The packets that were accepted when the last block was made.
    pub received_prior: u64,
}

/// Counters that begin with this packet.
pub fn initialised(seq: u16) -> Counters
    ensures sound { Sound result }
    ensures stands { Stands (begun seq) result }
{
    Counters {
        base_seq: seq,
        max_seq: seq,
        cycles: 0,
        bad_seq: None,
        received: 1,
        expected_prior: 0,
        received_prior: 0,
    }
}

impl Counters {
    /// The packets that were expected since the initialisation.
    pub fn expected(&self) -> u64
        requires { Sound self.now }
        ensures value { result + self.now.base_seq ≡ self.now.cycles + self.now.max_seq + 1 }
        ensures expected { (s : Stretch) → Stands s self.now → result ≡ expected_of s.base s.accepted }
    {
        self.cycles + self.max_seq as u64 - self.base_seq as u64 + 1
    }

    /// The low 32 bits of the greatest extended number.
    pub fn highest(&self) -> u32
        requires { Sound self.now }
        ensures { (s : Stretch) → Stands s self.now → result ≡ greatest_of s % 2 ^ 32 }
    {
        ((self.cycles + self.max_seq as u64) % (1 << 32)) as u32
    }

    /// Starts a new interval.
    pub fn tell(&mut self)
        requires { Sound self.old }
        ensures sound { Sound self.new }
        ensures told { (s : Stretch) → Stands s self.old → Stands (told_in s) self.new }
    {
        self.expected_prior = self.expected();
        self.received_prior = self.received;
    }

    /// A packet in order, or after a dropout.
    fn advance(&mut self, seq: u16) -> Verdict
        requires sound { Sound self.old }
        requires near { (seq + (2 ^ 16 - self.old.max_seq)) % 2 ^ 16 < max_dropout }
        ensures sound { Sound self.new }
        ensures range { IsInRange result }
        ensures answers { (s : Stretch) → Stands s self.old → Answers s seq result self.new }
    {
        let cycles = if seq < self.max_seq {
            self.cycles + RTP_SEQ_MOD as u64
        } else {
            self.cycles
        };
        if cycles > MAX_CYCLES {
            *self = initialised(seq);
            return Verdict::Restarted { ext: seq as i64 };
        }
        self.cycles = cycles;
        self.max_seq = seq;
        self.received = self.received.saturating_add(1);
        Verdict::Accepted {
            ext: (cycles + seq as u64) as i64,
        }
    }

    /// A packet that is too far off. The second of two in a row restarts the source.
    fn jump(&mut self, seq: u16) -> Verdict
        requires sound { Sound self.old }
        requires far { max_dropout ≤ (seq + (2 ^ 16 - self.old.max_seq)) % 2 ^ 16 }
        requires apart { (seq + (2 ^ 16 - self.old.max_seq)) % 2 ^ 16 ≤ 2 ^ 16 - max_misorder }
        ensures sound { Sound self.new }
        ensures range { IsInRange result }
        ensures answers { (s : Stretch) → Stands s self.old → Answers s seq result self.new }
    {
        if self.bad_seq == Some(seq) {
            *self = initialised(seq);
            return Verdict::Restarted { ext: seq as i64 };
        }
        self.bad_seq = Some(seq.wrapping_add(1));
        Verdict::Jump
    }

    /// A packet out of order, or a duplicate.
    fn behind(&mut self, seq: u16) -> Verdict
        requires sound { Sound self.old }
        requires behind { 2 ^ 16 - max_misorder < (seq + (2 ^ 16 - self.old.max_seq)) % 2 ^ 16 }
        ensures sound { Sound self.new }
        ensures range { IsInRange result }
        ensures answers { (s : Stretch) → Stands s self.old → Answers s seq result self.new }
    {
        self.received = self.received.saturating_add(1);
        let ext = self.cycles as i64 + seq as i64;
        Verdict::Accepted {
            ext: if seq > self.max_seq {
                ext - RTP_SEQ_MOD as i64
            } else {
                ext
            },
        }
    }

    /// Judges the next packet.
    pub fn update(&mut self, seq: u16) -> Verdict
        requires { Sound self.old }
        ensures sound { Sound self.new }
        ensures range { IsInRange result }
        ensures answers { (s : Stretch) → Stands s self.old → Answers s seq result self.new }
    {
        let u = seq.wrapping_sub(self.max_seq) as u32;
        if u < MAX_DROPOUT {
            self.advance(seq)
        } else if u <= RTP_SEQ_MOD - MAX_MISORDER {
            self.jump(seq)
        } else {
            self.behind(seq)
        }
    }
}
