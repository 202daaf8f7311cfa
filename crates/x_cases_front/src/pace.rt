//! Whether sound comes when it is due.

use std::alloc::Global;
use std::time::{Clock, Instant};

/// How many microseconds are from one packet of sound to the next.
const TICK: u64 = 20_000;
/// How many timestamps a packet of 20 ms has at 8000 Hz.
const STEP: u64 = 160;
/// How many packets of 20 ms a sent packet lasts.
const SENT: u64 = 10;
/// How many packets of 20 ms are sent before they are heard.
const AHEAD: u64 = 40;
/// The least lateness of so many packets at the beginning is what later ones are compared with.
const FIRST: u64 = 100;
/// From this packet on one is looked for that is due: a clock that is wrong by one per cent is wrong by 50 ms then.
const FAR: u64 = 250;
/// By how much it may come too early or too late.
const SLACK: u64 = 25_000;
/// How far apart two packets come at least, somewhere in the stream.
const APART: u64 = 10_000;
/// How far apart they come at most.
const NEAR: u64 = 30_000;

/// Sound that a member sends, and when it comes to another one, by the program's clock. On a busy machine each packet
/// may be late. But some packet far into the stream is as late as the first ones at least are, and some packet comes 10
/// to 30 ms behind the one before.
#[derive(Drop)]
pub struct Pace {
    alloc: Global,
    ssrc: u32,
    begun: Instant,
    /// How many packets were sent.
    sent: u64,
    /// The last packet that was heard, by its place in the stream, and when it came.
    last: u64,
    came: u64,
    /// The least lateness of the first ones, with what all have in common.
    least: u64,
    is_apart: bool,
}

/// A packet of PCMU of an SSRC (RFC 3550 section 5.1): the one behind this many, with 200 ms of one sample, which is no
/// silence.
fn packet(alloc: Global, ssrc: u32, before: u64) -> Option<Vec<u8>> {
    let seq = (before % 65_536) as u16;
    let timestamp = (before.saturating_mul(SENT).saturating_mul(STEP) % 4_294_967_296) as u32;
    let mut octets = Vec::from_slice(alloc, &[0x80, 0]).ok()?;
    octets.extend_from_slice(&seq.to_be_bytes()).ok()?;
    octets.extend_from_slice(&timestamp.to_be_bytes()).ok()?;
    octets.extend_from_slice(&ssrc.to_be_bytes()).ok()?;
    octets.resize(1_612, 0xce).ok()?;
    Some(octets)
}

/// The place in its stream of a packet of sound, by its timestamp. The stream's first timestamp is 0.
fn place(octets: &[u8]) -> Option<u64> {
    let [first, kind, _, _, a, b, c, d, ..] = octets else {
        return None;
    };
    if first >> 4 != 8 || kind & 0x7f != 0 {
        return None;
    }
    let timestamp = u32::from_be_bytes([*a, *b, *c, *d]);
    Some(u64::from(timestamp) / STEP)
}

impl Pace {
    /// Sound of an SSRC of which nothing was sent yet.
    pub fn begin(rt: &impl Clock, alloc: Global, ssrc: u32) -> Option<Self> {
        Some(Self {
            alloc,
            ssrc,
            begun: Instant::now(rt).ok()?,
            sent: 0,
            last: 0,
            came: 0,
            least: u64::MAX,
            is_apart: false,
        })
    }

    /// The next packet, if it is to be sent by now.
    pub fn next(&mut self) -> Option<Vec<u8>> {
        let before = self.sent;
        if before.saturating_mul(SENT) >= self.last.saturating_add(AHEAD) {
            return None;
        }
        self.sent = before.saturating_add(1);
        packet(self.alloc, self.ssrc, before)
    }

    /// Notes what has come, and tells whether all is found that was looked for.
    pub fn hears(&mut self, rt: &impl Clock, datagrams: &[Vec<u8>]) -> Option<bool> {
        let mut newest = None;
        for octets in datagrams {
            newest = place(octets).or(newest);
        }
        let Some(at) = newest else {
            return Some(false);
        };
        let now = u64::try_from(self.begun.elapsed(rt).ok()?.as_micros()).ok()?;
        let between = now.saturating_sub(self.came);
        let is_near = APART <= between && between <= NEAR;
        self.is_apart = self.is_apart || is_near && at == self.last.saturating_add(1);
        self.last = at;
        self.came = now;
        let late = now.saturating_sub(at.saturating_mul(TICK));
        if at < FIRST {
            self.least = self.least.min(late);
        }
        let is_due = at >= FAR && self.least.abs_diff(late) <= SLACK;
        Some(is_due && self.is_apart)
    }
}
