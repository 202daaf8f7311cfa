//! How many readers a publisher may have.

ghost use Rattle.std.specs.Prelude.{◌≡◌, ◌≢◌, Err, [], IfOk};

use desk_rows::Rows;
use published_desk::{LaneReader, Opened, Publisher, VersionFault, start};
use std::alloc::Global;
use std::sync::Wait;

/// Version 0 is published from the start on, and has no list.
pub fn starts_with_seventeen_readers<R: Wait>(
    alloc: Global,
    rt: &R,
    rows: Rows,
) -> Result<(Publisher, Vec<LaneReader>), VersionFault>
    ensures places { result ≢ Err VersionFault.Places }
    ensures lists { IfOk result (λ r. r.0.lists ≡ []) }
    ensures start { IfOk result (λ r. r.0.start ≡ rows) }
{
    start(alloc, rt, Opened::new(), rows, 17)
}
