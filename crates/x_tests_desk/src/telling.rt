//! A reader that is told of versions.

ghost use Rattle.std.specs.Prelude.{◌≡◌, ◌<◌, ◌≤◌, ◌+◌, [], None, All, length, IfSome};
ghost use Rattle.published_desk.specs.Published.{new_reader};

use crate::plain::Plain;
use desk_rows::Rows;
use published_desk::{LaneReader, Opened, Publisher, start};
use std::alloc::Global;
use std::sync::Wait;
use std::test::*;

/// Publishes the next list, and says its version.
pub fn publish<R: Wait>(
    rt: &R,
    alloc: Global,
    plain: &mut Plain,
    publisher: &mut Publisher,
) -> Option<u64>
    requires none { publisher.old.staged ≡ None }
    requires few { length publisher.old.lists < 1000 }
    ensures none { publisher.new.staged ≡ None }
    ensures publisher { publisher.new.publisher ≡ publisher.old.publisher }
    ensures more { length publisher.new.lists ≤ length publisher.old.lists + 1 }
{
    let Ok(edits) = plain.next(alloc) else {
        return None;
    };
    let fits = publisher.fits(rt, &edits)?;
    if !fits {
        return None;
    }
    let _staged = publisher.stage(edits);
    publisher.publish(rt)
}

/// The version that a reader finds, if its rows are those that the plain copy has at it.
pub fn look(plain: &mut Plain, reader: LaneReader) -> (Option<u64>, LaneReader)
    ensures { result.1.publisher ≡ reader.publisher }
{
    match reader.enter() {
        Ok(entered) => {
            let version = entered.version();
            let same = plain.go_on(version).is_ok() && plain.is_of(entered.rows());
            (same.then_some(version), entered.leave())
        }
        Err(reader) => (None, reader),
    }
}

/// Publishes three versions, tells the reader of the second, and then of the third.
fn told<R: Wait>(
    rt: &R,
    alloc: Global,
    publisher: &mut Publisher,
    reader: LaneReader,
) -> [Option<u64>; 4]
    requires none { publisher.old.staged ≡ None }
    requires lists { publisher.old.lists ≡ [] }
    requires publisher { reader.publisher ≡ publisher.old.publisher }
{
    let (mut mine, mut theirs) = (Plain::new(alloc), Plain::new(alloc));
    let (first, reader) = look(&mut theirs, reader);
    publish(rt, alloc, &mut mine, publisher);
    publish(rt, alloc, &mut mine, publisher);
    let second = publisher.tell();
    let third = publish(rt, alloc, &mut mine, publisher);
    let mut reader = reader;
    reader.learn(second);
    let (found, mut reader) = look(&mut theirs, reader);
    reader.learn(publisher.tell());
    let (again, _) = look(&mut theirs, reader);
    [first, third, found, again]
}

/// The last one of the readers of this publisher.
fn last_of(readers: Vec<LaneReader>, publisher: &Publisher) -> Option<LaneReader>
    requires { All (λ reader. reader ≡ new_reader publisher.now.publisher publisher.now.start) readers.items }
    ensures { IfSome result (λ reader. reader ≡ new_reader publisher.now.publisher publisher.now.start) }
{
    let mut readers = readers;
    readers.pop()
}

/// A reader finds the version that was published last, also where it was told of an earlier one.
#[test]
fn a_told_reader_finds_the_version(rt: HostRuntime) -> Result<(), Fail> {
    let alloc = rt.alloc();
    let rows = Rows::new(alloc, 1)?;
    let (publisher, readers) = start(alloc, &rt, Opened::new(), rows, 1)?;
    let reader = last_of(readers, &publisher);
    let mut publisher = publisher;
    let found = match reader {
        Some(reader) => Some(told(&rt, alloc, &mut publisher, reader)),
        None => None,
    };
    publisher.end(&rt);
    assert!(rt; found == Some([Some(0), Some(3), Some(3), Some(3)]));
    Ok(())
}
