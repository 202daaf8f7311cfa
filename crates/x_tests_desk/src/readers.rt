//! How many readers a publisher has.

use crate::plain::Plain;
use crate::telling::look;
use desk_rows::Rows;
use published_desk::{LaneReader, Opened, VersionFault, start};
use std::alloc::Global;
use std::sync::Wait;
use std::test::*;

/// What becomes of a start with so many readers: the readers of a publisher that has ended, or the fault.
fn started<R: Wait>(
    rt: &R,
    alloc: Global,
    readers: usize,
) -> Result<Vec<LaneReader>, VersionFault> {
    let rows = Rows::new(alloc, 1).map_err(|_| VersionFault::OutOfMemory)?;
    let (publisher, readers) = start(alloc, rt, Opened::new(), rows, readers)?;
    publisher.end(rt);
    Ok(readers)
}

/// Whether the start is refused for its number of readers.
fn is_refused<R: Wait>(rt: &R, alloc: Global, readers: usize) -> bool {
    match started(rt, alloc, readers) {
        Ok(_) => false,
        Err(fault) => fault == VersionFault::Places,
    }
}

#[test]
fn places_are_one_to_seventeen(rt: HostRuntime) -> Result<(), Fail> {
    let alloc = rt.alloc();
    assert!(rt; is_refused(&rt, alloc, 0) && is_refused(&rt, alloc, 18));
    assert!(rt; started(&rt, alloc, 1)?.len() == 1);
    assert!(rt; started(&rt, alloc, 17)?.len() == 17);
    Ok(())
}

/// A reader whose publisher has ended finds no version.
#[test]
fn no_reader_enters_after_the_end(rt: HostRuntime) -> Result<(), Fail> {
    let alloc = rt.alloc();
    for reader in started(&rt, alloc, 1)? {
        assert!(rt; look(&mut Plain::new(alloc), reader).0 == None);
    }
    Ok(())
}
