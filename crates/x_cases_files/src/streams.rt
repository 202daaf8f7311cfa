//! Streams of real senders, as a receiver got them: each packet with the verdict on it, and each report with the block
//! that the rules of RFC 3550 give. A line that comes out otherwise is printed.

use rtcp_codec::ReportBlock;
use source_valid::{SourceState, Verdict};
use std::io;

/// Nanoseconds in a second.
const NANOSECONDS: u128 = 1_000_000_000;

/// The stream that is being read.
#[derive(Drop)]
struct Stream {
    /// The clock rate in Hz.
    rate: u32,
    ssrc: u32,
    source: Option<SourceState>,
}

/// How many lines a text has, and how many of them come out otherwise.
pub fn counts(rt: &HostRuntime, text: &str) -> io::Result<(u64, u64)> {
    let mut stream = Stream::new();
    let mut tried: u64 = 0;
    let mut differ: u64 = 0;
    for line in text.lines() {
        tried = tried.saturating_add(1);
        if stream.line(line) != Some(true) {
            differ = differ.saturating_add(1);
            println!(rt; "{line}")?;
        }
    }
    Ok((tried, differ))
}

/// The value of the next word, which is NAME=VALUE.
fn field<'a, 'b>(word: Option<&'a str>, name: &'b str) -> Option<&'a str> {
    match word?.split_once('=') {
        Some((given, value)) if given == name => Some(value),
        _ => None,
    }
}

/// The name of a verdict.
fn name(verdict: Verdict) -> &'static str {
    match verdict {
        Verdict::Probation => "probation",
        Verdict::Accepted { .. } => "accepted",
        Verdict::Jump => "jump",
        Verdict::Restarted { .. } => "restarted",
    }
}

impl Stream {
    fn new() -> Self {
        Self {
            rate: 0,
            ssrc: 0,
            source: None,
        }
    }

    /// Whether a line comes out as it says; nothing where it can't be read.
    ///
    ///     stream rate=HZ ssrc=SSRC                                begins a stream
    ///     rtp NS seq=SEQ ts=TS expect=VERDICT                     a packet that came at this moment
    ///     sr NS ntp=HEX                                           a sender report
    ///     rules NS fraction= lost= highest= jitter= lsr= dlsr=    a report, after which a new interval begins
    fn line(&mut self, line: &str) -> Option<bool> {
        let (verb, rest) = line.split_once(' ')?;
        match verb {
            "stream" => self.begin(rest),
            "rtp" => self.expect_verdict(rest),
            "sr" => self.note_report(rest),
            "rules" => self.expect_block(rest),
            _ => None,
        }
    }

    /// Begins a stream.
    fn begin(&mut self, line: &str) -> Option<bool> {
        let mut words = line.split(' ');
        self.rate = field(words.next(), "rate")?.parse().ok()?;
        self.ssrc = field(words.next(), "ssrc")?.parse().ok()?;
        self.source = None;
        Some(true)
    }

    /// Whether a packet has the verdict that the line names.
    fn expect_verdict(&mut self, line: &str) -> Option<bool> {
        let mut words = line.split(' ');
        let moment = words.next()?.parse().ok()?;
        let seq = field(words.next(), "seq")?.parse().ok()?;
        let ts = field(words.next(), "ts")?.parse().ok()?;
        let wanted = field(words.next(), "expect")?;
        Some(name(self.packet(moment, seq, ts)) == wanted)
    }

    /// Notes a sender report.
    fn note_report(&mut self, line: &str) -> Option<bool> {
        let mut words = line.split(' ');
        let moment = words.next()?.parse().ok()?;
        let ntp = u64::from_str_radix(field(words.next(), "ntp")?, 16).ok()?;
        self.report(moment, ntp)
    }

    /// Whether the block at a moment is the one that the line has.
    fn expect_block(&mut self, line: &str) -> Option<bool> {
        let mut words = line.split(' ');
        let moment = words.next()?.parse().ok()?;
        let wanted = ReportBlock {
            ssrc: self.ssrc,
            fraction: field(words.next(), "fraction")?.parse().ok()?,
            lost: field(words.next(), "lost")?.parse().ok()?,
            highest: field(words.next(), "highest")?.parse().ok()?,
            jitter: field(words.next(), "jitter")?.parse().ok()?,
            lsr: field(words.next(), "lsr")?.parse().ok()?,
            dlsr: field(words.next(), "dlsr")?.parse().ok()?,
        };
        Some(self.block(moment)? == wanted)
    }

    /// A packet that came.
    fn packet(&mut self, moment: u64, seq: u16, ts: u32) -> Verdict {
        let Some(source) = &mut self.source else {
            self.source = Some(SourceState::first(seq));
            return Verdict::Probation;
        };
        let verdict = source.update(seq);
        if let Verdict::Accepted { .. } | Verdict::Restarted { .. } = verdict {
            let units = moment as u128 * self.rate as u128 / NANOSECONDS % (1 << 32);
            source.arrival(ts, units as u32);
        }
        verdict
    }

    /// A sender report that came.
    fn report(&mut self, moment: u64, ntp: u64) -> Option<bool> {
        let source = self.source.as_mut()?;
        source.sender_report(ntp, moment);
        Some(true)
    }

    /// The block at this moment.
    fn block(&mut self, moment: u64) -> Option<ReportBlock> {
        let ssrc = self.ssrc;
        let source = self.source.as_mut()?;
        if !source.past_probation() {
            return None;
        }
        Some(source.block(ssrc, moment))
    }
}
