//! What is counted, as it is shown at a moment.

ghost use Rattle.std.specs.Prelude.{◌≡◌, ℕ, map, OnOk, All};
ghost use Rattle.ingress.specs.inner.Holding.{IngressOf};
ghost use Rattle.bridge_stats.specs.Kinds.{all_kinds};
ghost use Rattle.bridge_stats.specs.Shown.{kind_row, source_row, counts_in, TellsReception, stranger_row, IsShown};
ghost use Rattle.bridge_stats.specs.Stats.{StatsOf};

use crate::kind::all_kinds;
use crate::rows::{KindRow, SourceRow, StrangerRow, sender_address};
use crate::sender::Sender;
use crate::shown::StatsShown;
use crate::source_count::SourceCount;
use crate::source_table::SourceCache;
use crate::stats::BridgeStats;
use crate::stranger::StrangerCache;
use crate::tally::OutcomeTally;
use ingress::{Ingress, OutcomeKind};
use std::alloc::{AllocError, Allocator};

/// How many nanoseconds a millisecond has.
const MILLISECOND: u64 = 1_000_000;

/// The row of an outcome.
fn kind_row(tally: &OutcomeTally, kind: OutcomeKind) -> KindRow
    ensures { result ≡ kind_row tally.now kind }
{
    KindRow {
        kind,
        datagrams: tally.datagrams(kind),
        octets: tally.octets(kind),
    }
}

/// The row of a source at a moment.
fn source_row<A: Allocator + Copy>(
    now: u64,
    ingress: &Ingress<A>,
    sender: &Sender,
    count: &SourceCount,
) -> SourceRow
    ensures counts { counts_in result ≡ source_row now (sender.now, count.now) }
    ensures reception { TellsReception ingress.now result }
{
    let numbers = count.numbers();
    SourceRow {
        sender: *sender,
        numbers,
        ago: now.saturating_sub(numbers.last) / MILLISECOND,
        reception: ingress.reception(&sender_address(sender), sender.ssrc),
    }
}

/// Writes the rows of the outcomes.
fn show_kinds(tally: &OutcomeTally, out: &mut Vec<KindRow>) -> Result<(), AllocError>
    ensures { OnOk result (out.new.items ≡ map (kind_row tally.now) all_kinds) }
{
    out.clear();
    let kinds = all_kinds();
    for kind in kinds {
        out.push(kind_row(tally, *kind))?;
    }
    Ok(())
}

/// Writes the rows of the sources.
fn show_sources<A: Allocator + Copy>(
    cache: &SourceCache<A>,
    now: u64,
    ingress: &Ingress<A>,
    out: &mut Vec<SourceRow>,
) -> Result<(), AllocError>
    ensures counts { OnOk result (map counts_in out.new.items ≡ map (source_row now) cache.now.entries) }
    ensures receptions { OnOk result (All (TellsReception ingress.now) out.new.items) }
{
    out.clear();
    for (sender, count) in cache.iter() {
        out.push(source_row(now, ingress, sender, count))?;
    }
    Ok(())
}

/// Writes the rows of the senders that are no source.
fn show_strangers<A: Allocator + Copy>(
    cache: &StrangerCache<A>,
    out: &mut Vec<StrangerRow>,
) -> Result<(), AllocError>
    ensures { OnOk result (out.new.items ≡ map stranger_row cache.now.entries) }
{
    out.clear();
    for (sender, numbers) in cache.iter() {
        out.push(StrangerRow {
            sender: *sender,
            numbers: *numbers,
        })?;
    }
    Ok(())
}

impl<A: Allocator + Copy> BridgeStats<A> {
    /// Shows what is counted at a moment, and how the receive side receives the sources, in place of what was shown
    /// before. It takes memory only for more rows than there ever were. On out of memory, the only error, what is shown
    /// is of no use.
    pub fn show(
        &self,
        now: u64,
        ingress: &Ingress<A>,
        shown: &mut StatsShown,
    ) -> Result<(), AllocError>
        ensures { OnOk result (IsShown now ingress.now self.now shown.new) }
    {
        let sources = &self.sources;
        let strangers = &self.strangers;
        show_kinds(&self.tally, &mut shown.kinds)?;
        show_sources(&sources.cache, now, ingress, &mut shown.sources)?;
        show_strangers(&strangers.cache, &mut shown.strangers)?;
        shown.left_out_sources = sources.left_out;
        shown.left_out_strangers = strangers.left_out;
        shown.left_out_reports = self.paths.left_out;
        Ok(())
    }
}

/// Writes the same rows.
fn show_rows<T: Copy>(rows: &[T], out: &mut Vec<T>) -> Result<(), AllocError>
    ensures { OnOk result (out.new.items ≡ rows.now) }
{
    out.clear();
    out.extend_from_slice(rows)
}

impl StatsShown {
    /// Shows what others show, in place of what was shown before. It takes memory only for more rows than there ever
    /// were. On out of memory, the only error, what is shown is of no use.
    pub fn show_again(&mut self, others: &StatsShown) -> Result<(), AllocError>
        ensures { OnOk result ((now : ℕ) (ingress : IngressOf) (stats : StatsOf)
            → IsShown now ingress stats others.now → IsShown now ingress stats self.new) }
    {
        show_rows(&others.kinds, &mut self.kinds)?;
        show_rows(&others.sources, &mut self.sources)?;
        show_rows(&others.strangers, &mut self.strangers)?;
        self.left_out_sources = others.left_out_sources;
        self.left_out_strangers = others.left_out_strangers;
        self.left_out_reports = others.left_out_reports;
        Ok(())
    }
}
