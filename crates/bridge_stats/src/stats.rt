//! What a bridge counts.

ghost use Rattle.std.specs.Prelude.{◌≡◌, ℕ, List, IfOk};
ghost use Rattle.std.specs.Bool.{MatchBool};
ghost use Rattle.std.specs.Map.{lookup};
ghost use Rattle.bridge_stats.specs.Senders.{same_sender};
ghost use Rattle.bridge_stats.specs.Stats.{no_stats, HasNoted};
ghost use Rattle.bridge_stats.specs.Paths.{stream_at, AreReported};
ghost use Rattle.bridge_stats.specs.Noted.{taken_of, HasReports};

use crate::path::PathReport;
use crate::path_table::PathTable;
use crate::sender::sender_of;
use crate::source_table::SourceTable;
use crate::stranger::Strangers;
use crate::taken::TakenIn;
use crate::tally::OutcomeTally;
use desk_rows::Rows;
use ingress::{Received, Whose};
use rtp_codec::Address;
use std::alloc::{AllocError, Allocator, Global};
use std::marker::Model;

/// What a bridge counts of the datagrams that it takes in.
///
/// Contracts see the list of these datagrams, those of each source that is kept, the senders that are no source, and
/// what receivers reported of the way of each stream that is kept.
#[derive(Drop)]
pub struct BridgeStats<A: Allocator + Copy = Global> {
    pub(crate) tally: OutcomeTally,
    pub(crate) sources: SourceTable<A>,
    pub(crate) strangers: Strangers<A>,
    pub(crate) paths: PathTable<A>,
}

impl<A: Allocator + Copy> Model for BridgeStats<A> {
    ghost use Rattle.bridge_stats.specs.Stats.{StatsOf};

    ghost Value = { StatsOf };

    ghost view = { λ s. record {
      taken = s.tally;
      sources = s.sources;
      strangers = s.strangers;
      reports = s.paths;
    } };
}

impl<A: Allocator + Copy> BridgeStats<A> {
    /// Nothing was taken in. The only error is out of memory.
    pub fn new(alloc: A) -> Result<Self, AllocError>
        ensures { IfOk result (λ stats. stats ≡ no_stats) }
    {
        let sources = SourceTable::new(alloc)?;
        let strangers = Strangers::new(alloc)?;
        let paths = PathTable::new(alloc)?;
        Ok(Self {
            tally: OutcomeTally::new(),
            sources,
            strangers,
            paths,
        })
    }

    /// Notes a datagram that was taken in by these rows. `passed`: whether the rate limiter left out none of its report
    /// blocks. If so, it also notes what the blocks of a compound from a member report of the way of streams that the
    /// desk sends to that member.
    ///
    /// Only a sender or a stream that isn't kept takes memory. Where that is refused, a datagram isn't counted for its
    /// sender, and a block not for its stream. It counts as one that was left out.
    pub fn note(&mut self, rows: &Rows, received: &Received<A>, passed: bool)
        ensures noted { HasNoted (taken_of received.now) self.old self.new }
        ensures reports { (octets : List ℕ) → HasReports octets received.now → MatchBool passed
            (AreReported rows.now received.now.outcome received.now.from received.now.moment octets
            self.old.reports self.new.reports)
            (self.new.reports ≡ self.old.reports) }
    {
        let taken = TakenIn::of(received);
        self.tally.note(&taken);
        self.note_reports(rows, received, passed);
        let Some(header) = taken.header else {
            return;
        };
        let sender = sender_of(&taken.from, &header);
        match taken.outcome.class().whose {
            Whose::Nobody | Whose::Member => {}
            Whose::Source => self.sources.note(sender, &taken),
            Whose::Stranger => self.strangers.note(sender, header.pt),
        }
    }

    /// Notes what its blocks report, if the rate limiter let all of them pass.
    fn note_reports(&mut self, rows: &Rows, received: &Received<A>, passed: bool)
        ensures reports { (octets : List ℕ) → HasReports octets received.now → MatchBool passed
            (AreReported rows.now received.now.outcome received.now.from received.now.moment octets
            self.old.reports self.new.reports)
            (self.new.reports ≡ self.old.reports) }
        ensures same { self.new ≡ record self.old { reports = self.new.reports } }
    {
        if passed {
            self.paths.note(rows, received);
        }
    }

    /// What was reported last from an address of the way of a stream, if anything is kept.
    pub fn path(&self, from: &Address, ssrc: u32) -> Option<PathReport>
        ensures { result ≡ lookup (same_sender (stream_at from.now ssrc)) self.now.reports.entries }
    {
        self.paths.path(from, ssrc)
    }
}
