//! Readers on threads while versions are published.

ghost use Rattle.std.specs.Prelude.{◌≡◌, ◌<◌, ◌≤◌, [], None, length};

use crate::plain::Plain;
use crate::telling::{look, publish};
use desk_rows::Rows;
use published_desk::{LaneReader, Opened, Publisher, start};
use std::alloc::Global;
use std::sync::Wait;
use std::test::*;
use std::thread::{join, map_vec};

/// How many versions are published.
const VERSIONS: u64 = 1_000;

/// How often a reader enters, at most.
const ENTRIES: u32 = 1_000_000;

/// Publishes all versions, and answers the last one.
fn publish_all<R: Wait>(rt: &R, alloc: Global, publisher: &mut Publisher) -> Option<u64>
    requires none { publisher.old.staged ≡ None }
    requires lists { publisher.old.lists ≡ [] }
{
    let mut plain = Plain::new(alloc);
    let mut last = None;
    for _ in 0..VERSIONS {
        last = publish(rt, alloc, &mut plain, publisher);
    }
    last
}

/// Enters until the last version is there. `None` where an entry has other rows than the plain copy, or a version
/// below that of the entry before.
fn enter_all(alloc: Global, reader: LaneReader) -> Option<LaneReader> {
    let mut plain = Plain::new(alloc);
    let mut reader = reader;
    let mut last = 0;
    for _ in 0..ENTRIES {
        let (found, back) = look(&mut plain, reader);
        reader = back;
        if found? < last {
            return None;
        }
        last = found?;
        if last == VERSIONS {
            break;
        }
    }
    Some(reader)
}

/// Whether the reader is there and finds the last version.
fn ends_well(alloc: Global, reader: Option<LaneReader>) -> bool {
    let Some(reader) = reader else {
        return false;
    };
    look(&mut Plain::new(alloc), reader).0 == Some(VERSIONS)
}

/// Four readers enter while a thousand versions are published: each entry has the rows of its version, and in the
/// end all have the last one.
#[test]
fn four_readers_enter_while_versions_are_published(rt: HostRuntime) -> Result<(), Fail> {
    let alloc = rt.alloc();
    let rows = Rows::new(alloc, 1)?;
    let (publisher, readers) = start(alloc, &rt, Opened::new(), rows, 4)?;
    let mut publisher = publisher;
    let (last, readers) = join(
        &rt,
        || publish_all(&rt, alloc, &mut publisher),
        || map_vec(&rt, readers, &|reader| enter_all(alloc, reader)),
    );
    let well = match readers {
        Ok(readers) => readers.into_iter().all(|reader| ends_well(alloc, reader)),
        Err(_) => false,
    };
    publisher.end(&rt);
    assert!(rt; last == Some(VERSIONS) && well);
    Ok(())
}
