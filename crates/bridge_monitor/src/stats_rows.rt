//! Rows of what a bridge counts, between the front and operators' threads.

ghost use Rattle.std.specs.Prelude.{◌≡◌, ◌++◌, ℕ, List, false, OnOk, OnErr, IfOk};
ghost use Rattle.ingress.specs.inner.Holding.{IngressOf};
ghost use Rattle.bridge_stats.specs.Stats.{StatsOf};
ghost use Rattle.bridge_stats.specs.Shown.{IsShown};
ghost use Rattle.bridge_monitor.specs.Told.{TellsCounts, TellsLevels};

use crate::lane_counts::LanesShown;
use bridge_stats::{
    BridgeStats, Limited, OthersShown, Seats, SocketRow, StatsShown, print_levels, print_stats,
};
use ingress::Ingress;
use std::alloc::{AllocError, Global};
use std::marker::Model;

/// What the front counted, as of a moment.
#[derive(Clone, Copy)]
pub(crate) struct FrontCounts<'a> {
    /// The moment, in nanoseconds since 1970.
    pub(crate) moment: u64,
    /// The datagrams that it took in.
    pub(crate) stats: &'a BridgeStats,
    /// The receive side, which knows how sources are received.
    pub(crate) ingress: &'a Ingress,
    /// What the rate limiter left out.
    pub(crate) limited: Limited,
    /// The lanes with their streams.
    pub(crate) lanes: &'a LanesShown,
}

/// Rows of what a bridge counts, or of no use.
#[derive(Drop)]
struct RowsKept {
    counted: StatsShown,
    lanes: LanesShown,
    limited: Limited,
}

impl RowsKept {
    /// With memory for the most rows. The only error is out of memory.
    fn new(alloc: Global) -> Result<Self, AllocError> {
        Ok(Self {
            counted: StatsShown::new(alloc)?,
            lanes: LanesShown::new(alloc)?,
            limited: Limited {
                nacks: 0,
                blocks: 0,
                plis: 0,
            },
        })
    }

    /// Writes what the front counted.
    fn write(&mut self, counts: &FrontCounts<'_>) -> Result<(), AllocError>
        ensures { OnOk result
            (IsShown counts.now.moment counts.now.ingress.now counts.now.stats.now self.new.counted) }
    {
        self.limited = counts.limited;
        self.lanes.copy(counts.lanes)?;
        counts
            .stats
            .show(counts.moment, counts.ingress, &mut self.counted)
    }

    /// Writes what others show.
    fn copy(&mut self, others: &RowsKept) -> Result<(), AllocError>
        ensures { OnOk result ((now : ℕ) (ingress : IngressOf) (stats : StatsOf)
            → IsShown now ingress stats others.now.counted → IsShown now ingress stats self.new.counted) }
    {
        self.limited = others.limited;
        self.lanes.copy(&others.lanes)?;
        self.counted.show_again(&others.counted)
    }

    /// What others count, with these buffers of the socket, and these seats.
    fn others(&self, socket: SocketRow, seats: Seats) -> OthersShown<'_>
        ensures socket { result.socket ≡ socket }
        ensures seats { result.seats ≡ seats }
    {
        OthersShown {
            streams: &self.lanes.streams,
            left_out_streams: self.lanes.left_out_streams,
            lanes: &self.lanes.lanes,
            limited: self.limited,
            socket,
            seats,
        }
    }

    /// Appends their lines, with these buffers of the socket, and these seats. An `Err`, out of memory, appends
    /// nothing.
    fn print(&self, socket: SocketRow, seats: Seats, out: &mut Vec<u8>) -> Result<(), AllocError>
        ensures ok { (now : ℕ) (ingress : IngressOf) (stats : StatsOf) → IsShown now ingress stats self.now.counted
            → OnOk result ((text : List ℕ)
            × (out.new.items ≡ out.old.items ++ text) × TellsCounts socket seats text) }
        ensures err { OnErr result (out.new.items ≡ out.old.items) }
    {
        let others = self.others(socket, seats);
        print_stats(&self.counted, &others, out)
    }

    /// Appends the levels. An `Err`, out of memory, appends nothing.
    fn print_levels(&self, out: &mut Vec<u8>) -> Result<(), AllocError>
        ensures ok { (now : ℕ) (ingress : IngressOf) (stats : StatsOf) → IsShown now ingress stats self.now.counted
            → OnOk result ((text : List ℕ) × (out.new.items ≡ out.old.items ++ text) × TellsLevels text) }
        ensures err { OnErr result (out.new.items ≡ out.old.items) }
    {
        print_levels(&self.counted, out)
    }
}

/// Rows of what a bridge counts, if there are any. There is memory for the most, so that none is taken while it runs.
///
/// Contracts see whether there are rows.
#[derive(Drop)]
pub(crate) struct StatsRows {
    kept: RowsKept,
    /// Whether they show what was counted at a moment.
    is_whole: bool,
}

impl Model for StatsRows {
    ghost use Rattle.std.specs.Prelude.{Bool};
    ghost use Rattle.std.specs.Bool.{OnTrue};
    ghost use Rattle.bridge_monitor.specs.Told.{ShowsCounts};

    ghost Value = { Bool };

    ghost view = { λ r. r.is_whole };

    ghost invariant = { λ r. OnTrue r.is_whole (ShowsCounts r.kept.counted) };
}

impl StatsRows {
    /// No rows. The only error is out of memory.
    pub(crate) fn new(alloc: Global) -> Result<Self, AllocError>
        ensures { IfOk result (λ rows. rows ≡ false) }
    {
        let kept = RowsKept::new(alloc)?;
        Ok(Self {
            kept,
            is_whole: false,
        })
    }

    /// Shows what the front counted.
    pub(crate) fn show(&mut self, counts: &FrontCounts<'_>) {
        self.is_whole = false;
        match self.kept.write(counts) {
            Ok(()) => self.is_whole = true,
            Err(_) => {}
        }
    }

    /// Shows what others show.
    pub(crate) fn show_again(&mut self, others: &StatsRows) {
        self.is_whole = false;
        if !others.is_whole {
            return;
        }
        match self.kept.copy(&others.kept) {
            Ok(()) => self.is_whole = true,
            Err(_) => {}
        }
    }

    /// Appends the lines of the rows, with these buffers of the socket, and these seats. An `Err`, out of memory,
    /// appends nothing. It comes, too, where there are no rows.
    pub(crate) fn print(
        &self,
        socket: SocketRow,
        seats: Seats,
        out: &mut Vec<u8>,
    ) -> Result<(), AllocError>
        ensures ok { OnOk result ((text : List ℕ)
            × (out.new.items ≡ out.old.items ++ text) × TellsCounts socket seats text) }
        ensures err { OnErr result (out.new.items ≡ out.old.items) }
    {
        if !self.is_whole {
            return Err(AllocError);
        }
        self.kept.print(socket, seats, out)
    }

    /// Appends the levels. An `Err`, out of memory, appends nothing. It comes, too, where there are no rows.
    pub(crate) fn print_levels(&self, out: &mut Vec<u8>) -> Result<(), AllocError>
        ensures ok { OnOk result ((text : List ℕ)
            × (out.new.items ≡ out.old.items ++ text) × TellsLevels text) }
        ensures err { OnErr result (out.new.items ≡ out.old.items) }
    {
        if self.is_whole {
            self.kept.print_levels(out)
        } else {
            Err(AllocError)
        }
    }
}
