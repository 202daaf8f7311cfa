//! Sources that are to be asked for a picture.

use picture_requests::{PictureRequests, VideoSource};
use rtp_codec::Address;
use std::alloc::{AllocError, Global};
use std::test::*;

/// Where the source's member sends from.
const FROM: Address = Address {
    ip: [10, 0, 0, 1],
    port: 5000,
};

/// Half a second, in nanoseconds.
const GAP: u64 = 500_000_000;

/// How many sources are due: once one was wanted, just before half a second after it was asked and wanted again, and
/// then.
fn counts(alloc: Global) -> Result<(usize, usize, usize), AllocError> {
    let source = VideoSource::at(101, &FROM);
    let mut requests = PictureRequests::new(alloc);
    requests.want(alloc, &source, 0)?;
    let first = requests.due(alloc, 0)?.len();
    requests.asked(&source, 0);
    requests.want(alloc, &source, 1)?;
    let early = requests.due(alloc, GAP - 1)?.len();
    let later = requests.due(alloc, GAP)?.len();
    Ok((first, early, later))
}

/// A source that is wanted is due at once, and again half a second after it was asked.
#[test]
fn a_wanted_source_is_due_again_after_half_a_second(rt: HostRuntime) -> Result<(), Fail> {
    assert!(rt; counts(rt.alloc()).ok() == Some((1, 0, 1)));
    Ok(())
}
