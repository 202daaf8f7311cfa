//! What is counted of one outgoing stream.

ghost use Rattle.std.specs.Prelude.{◌≡◌};
ghost use Rattle.lane_wire.specs.Streams.{no_numbers, is_receiver, kept_report, news_of, after_news};
ghost use Rattle.lane_wire.specs.Streams.{after_more, first_kept};

use crate::counts::octets_in;
use crate::fault::SendFault;
use bridge_core::{Egress, LossNote};
use rtp_codec::Address;

/// What a receiver reported of a stream.
#[derive(Clone, Copy)]
pub struct Reported {
    /// The receiver's address.
    pub from: Address,
    /// What its report block says.
    pub note: LossNote,
}

/// What is counted of an outgoing stream, and what its receiver reported last. Each count ends at 2^64 - 1.
#[derive(Clone, Copy)]
pub struct StreamNumbers {
    /// How many of its packets the system took, those that were sent again among them.
    pub packets: u64,
    /// How many octets these had, without the headers of UDP and IP.
    pub octets: u64,
    /// How many of these packets were sent again.
    pub resent: u64,
    /// Where its last packet was sent to.
    pub to: Option<Address>,
    /// What was reported last from there.
    pub report: Option<Reported>,
}

/// What is kept of an outgoing stream.
#[derive(Clone, Copy)]
pub struct KeptStream {
    /// What is counted of it.
    pub numbers: StreamNumbers,
    /// The number of its last news among those of all streams, from 1. It ends at 2^64 - 1.
    pub last: u64,
}

/// What is new of an outgoing stream.
#[derive(Clone, Copy)]
pub enum StreamNews {
    /// The system took a packet of it.
    Packet {
        /// Where it was sent to.
        to: Address,
        /// How many octets the packet has.
        octets: u64,
        /// Whether it was sent again.
        is_resent: bool,
    },
    /// A member reported.
    Report(Reported),
}

/// What is new, and of which stream, where the last try to send this had this answer.
pub(crate) fn news_of(egress: &Egress, answer: Result<(), SendFault>) -> Option<(u32, StreamNews)>
    ensures { result ≡ news_of egress.now answer }
{
    match egress {
        Egress::Media {
            to,
            ssrc,
            resent_by,
            ..
        } => match answer {
            Ok(()) => {
                let news = StreamNews::Packet {
                    to: *to,
                    octets: octets_in(egress),
                    is_resent: resent_by.is_some(),
                };
                Some((*ssrc, news))
            }
            Err(_) => None,
        },
        Egress::Control { .. } => None,
        Egress::Note { from, note, .. } => {
            let reported = Reported {
                from: *from,
                note: *note,
            };
            Some((note.out_ssrc, StreamNews::Report(reported)))
        }
    }
}

/// Whether packets went to this address last.
fn is_receiver(to: Option<Address>, from: Address) -> bool
    ensures { result ≡ is_receiver to from }
{
    match to {
        Some(to) => to == from,
        None => false,
    }
}

/// A report, if it came from where packets go to.
fn kept_report(to: Address, report: Option<Reported>) -> Option<Reported>
    ensures { result ≡ kept_report to report }
{
    match report {
        Some(reported) => {
            if is_receiver(Some(to), reported.from) {
                Some(reported)
            } else {
                None
            }
        }
        None => None,
    }
}

impl StreamNumbers {
    /// Nothing was counted.
    pub(crate) fn new() -> Self
        ensures { result ≡ no_numbers }
    {
        Self {
            packets: 0,
            octets: 0,
            resent: 0,
            to: None,
            report: None,
        }
    }

    /// Counts what is new.
    pub(crate) fn count(&mut self, news: StreamNews)
        ensures { self.new ≡ after_news news self.old }
    {
        match news {
            StreamNews::Packet {
                to,
                octets,
                is_resent,
            } => {
                self.packets = self.packets.saturating_add(1);
                self.octets = self.octets.saturating_add(octets);
                self.resent = self.resent.saturating_add(u64::from(is_resent));
                self.report = kept_report(to, self.report);
                self.to = Some(to);
            }
            StreamNews::Report(reported) => {
                if is_receiver(self.to, reported.from) {
                    self.report = Some(reported);
                }
            }
        }
    }
}

impl KeptStream {
    /// Nothing is kept but the first news, which have this number.
    pub(crate) fn first(news: StreamNews, number: u64) -> Self
        ensures { result ≡ first_kept news number }
    {
        let mut numbers = StreamNumbers::new();
        numbers.count(news);
        Self {
            numbers,
            last: number,
        }
    }

    /// Counts what is new, which has this number.
    pub(crate) fn count(&mut self, news: StreamNews, number: u64)
        ensures { self.new ≡ after_more news number self.old }
    {
        self.numbers.count(news);
        self.last = number;
    }
}
