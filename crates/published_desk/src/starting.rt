//! How a publisher is started with its readers.

ghost use Rattle.std.specs.Prelude.{◌≡◌, ◌↔◌, ◌⊎◌, ◌+◌, ◌<◌, ◌≤◌, [], Err, All, length, fold, drop, IfOk};
ghost use Rattle.std.specs.Arc.{arc_value};
ghost use Rattle.std.specs.Bool.{OnTrue};
ghost use Rattle.left_right.specs.Sides.{view as sight_of};
ghost use Rattle.published_desk.specs.Published.{new_publisher, new_reader, reader_limit};
ghost use Rattle.published_desk.specs.inner.ReaderRule.{IsOf, first_sight, reader_of};

use crate::edition::Edition;
use crate::notice::{Notice, Opened};
use crate::publisher::Publisher;
use crate::reader::LaneReader;
use crate::rule::{Looks, Shares};
use crate::showing::{Lead, Showing, repeats};
use desk_rows::Rows;
use left_right::writer::Writer;
use reversible_rows::ReversibleRows;
use std::alloc::{AllocError, Global};
use std::sync::{Arc, Wait};
use thiserror::Error;
use undo_log::{Edits, Listed};

/// How many readers a publisher may have.
pub const MAX_READERS: usize = 17;

/// Why no publisher is started. The first that holds is reported.
#[derive(Clone, Copy, Debug, PartialEq, Eq, Error)]
pub enum VersionFault {
    #[error("readers are not 1 to 17")]
    Places = 1,
    #[error("out of memory")]
    OutOfMemory = 2,
}

/// Starts a publisher of these rows, with 1 to 17 readers. Version 0 is published.
pub fn start<R: Wait>(
    alloc: Global,
    rt: &R,
    opened: Opened,
    rows: Rows,
    readers: usize,
) -> Result<(Publisher, Vec<LaneReader>), VersionFault>
    ensures places { result ≡ Err VersionFault.Places ↔ ((readers ≡ 0) ⊎ (reader_limit < readers)) }
    ensures publisher { IfOk result (λ r. r.0 ≡ new_publisher opened rows) }
    ensures count { IfOk result (λ r. length r.1.items ≡ readers) }
    ensures readers { IfOk result (λ r. All (λ reader. reader ≡ new_reader opened rows) r.1.items) }
{
    if readers == 0 || readers > MAX_READERS {
        return Err(VersionFault::Places);
    }
    match made(alloc, rt, opened, rows, readers) {
        Ok(made) => Ok(made),
        Err(_) => Err(VersionFault::OutOfMemory),
    }
}

fn made<R: Wait>(
    alloc: Global,
    rt: &R,
    opened: Opened,
    rows: Rows,
    readers: usize,
) -> Result<(Publisher, Vec<LaneReader>), AllocError>
    requires readers { (0 < readers) × (readers ≤ reader_limit) }
    ensures publisher { IfOk result (λ r. r.0 ≡ new_publisher opened rows) }
    ensures count { IfOk result (λ r. length r.1.items ≡ readers) }
    ensures readers { IfOk result (λ r. All (λ reader. reader ≡ new_reader opened rows) r.1.items) }
{
    let (head, notice) = opened.into_parts();
    let first = rows.copy(alloc)?;
    let shown = owned(alloc, rows.copy(alloc)?)?;
    let before = owned(alloc, rows)?;
    let one = Edition::new(Arc::try_clone(&shown)?, notice.again());
    let other = Edition::new(Arc::try_clone(&before)?, notice.again());
    let mut writer = begun(rt, Writer::new(alloc, one, other, readers)?)?;
    match seats(alloc, &mut writer, &notice, readers) {
        Ok(lanes) => {
            let showing = Showing {
                writer,
                shown,
                before,
                last: Edits::new(Vec::new(alloc)),
                alloc,
            };
            let publisher = Publisher {
                showing: Some(showing),
                first,
                head,
                notice,
                staged: None,
            };
            Ok((publisher, lanes))
        }
        Err(error) => {
            writer.take(rt);
            Err(error)
        }
    }
}

fn owned(alloc: Global, rows: Rows) -> Result<Arc<Listed<ReversibleRows>>, AllocError>
    ensures { IfOk result (λ owned. arc_value owned ≡ rows) }
{
    match Arc::new(alloc, Listed::new(ReversibleRows::new(rows))) {
        Ok(owned) => Ok(owned),
        Err(_) => Err(AllocError),
    }
}

// Gives the log its memory, and the publisher a sight of the first page.
fn begun<R: Wait>(rt: &R, writer: Lead) -> Result<Lead, AllocError>
    requires settled { drop writer.behind writer.log.items ≡ [] }
    requires none { writer.desk.shown.value.notice.lists ≡ [] }
    ensures same { IfOk result (λ w. w.desk.shown.value ≡ writer.desk.shown.value) }
    ensures settled { IfOk result (λ w. drop w.behind w.log.items ≡ []) }
    ensures seen { IfOk result (λ w. sight_of w.desk.place ≡ first_sight writer.desk.shown.value) }
{
    let mut writer = writer;
    if !holds_two(&mut writer) {
        writer.take(rt);
        return Err(AllocError);
    }
    let writer = turned(rt, writer)?;
    turned(rt, writer)
}

// Lets two editions wait in the log, which has the memory for two from then on.
fn holds_two(writer: &mut Lead) -> bool
    requires settled { drop writer.old.behind writer.old.log.items ≡ [] }
    ensures same { writer.new.desk ≡ writer.old.desk }
    ensures idle { fold (λ before next. next) writer.new.desk.shown.value (drop writer.new.behind writer.new.log.items)
        ≡ writer.new.desk.shown.value }
    ensures two { OnTrue result (length (drop writer.new.behind writer.new.log.items) ≡ 2) }
{
    repeats(writer) && repeats(writer)
}

// Shows the other side, where what waits changes nothing.
fn turned<R: Wait>(rt: &R, writer: Lead) -> Result<Lead, AllocError>
    requires idle { fold (λ before next. next) writer.desk.shown.value (drop writer.behind writer.log.items)
        ≡ writer.desk.shown.value }
    requires none { writer.desk.shown.value.notice.lists ≡ [] }
    ensures same { IfOk result (λ w. w.desk.shown.value ≡ writer.desk.shown.value) }
    ensures settled { IfOk result (λ w. drop w.behind w.log.items ≡ []) }
    ensures seen { IfOk result (λ w. sight_of w.desk.place ≡ first_sight writer.desk.shown.value) }
{
    let (writer, shown) = writer.publish_as::<Looks, R>(rt);
    match shown {
        Ok(()) => Ok(writer),
        Err(error) => {
            writer.take(rt);
            Err(error)
        }
    }
}

fn seats(
    alloc: Global,
    writer: &mut Lead,
    notice: &Notice,
    readers: usize,
) -> Result<Vec<LaneReader>, AllocError>
    requires seen { IsOf notice.now.publisher (sight_of writer.old.desk.place) }
    ensures same { (writer.new.desk.shown ≡ writer.old.desk.shown) × (writer.new.log ≡ writer.old.log)
        × (writer.new.behind ≡ writer.old.behind) × (sight_of writer.new.desk.place ≡ sight_of writer.old.desk.place) }
    ensures count { IfOk result (λ lanes. length lanes.items ≡ readers) }
    ensures lanes { IfOk result (λ lanes.
        All (λ l. l ≡ reader_of notice.now (sight_of writer.old.desk.place)) lanes.items) }
{
    let mut lanes = Vec::with_capacity(alloc, readers)?;
    for _ in 0..readers {
        lanes.push_reserved(seat(writer, notice)?);
    }
    Ok(lanes)
}

fn seat(writer: &mut Lead, notice: &Notice) -> Result<LaneReader, AllocError>
    requires seen { IsOf notice.now.publisher (sight_of writer.old.desk.place) }
    ensures same { (writer.new.desk.shown ≡ writer.old.desk.shown) × (writer.new.log ≡ writer.old.log)
        × (writer.new.behind ≡ writer.old.behind) × (sight_of writer.new.desk.place ≡ sight_of writer.old.desk.place) }
    ensures lane { IfOk result (λ l. l ≡ reader_of notice.now (sight_of writer.old.desk.place)) }
{
    let mut inner = writer.factory().reader()?;
    inner.learn::<Shares>(writer.tell::<Shares>());
    Ok(LaneReader {
        inner,
        known: notice.again(),
    })
}
