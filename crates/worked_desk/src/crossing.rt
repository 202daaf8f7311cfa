//! What may go to another thread: a publisher, a reader and an entry.

use published_desk::{Entered, LaneReader, Publisher};
use std::sync::Wait;
use std::thread::{Threads, join};

/// Ends a publisher in one thread while another one leaves an entry.
pub fn part<R: Threads + Wait + Sync>(
    rt: &R,
    publisher: &mut Option<Publisher>,
    entered: &mut Option<Entered>,
    reader: LaneReader,
) -> (LaneReader, Option<LaneReader>) {
    let (_, readers) = join(
        rt,
        || {
            if let Some(publisher) = publisher.take() {
                publisher.end(rt);
            }
        },
        || (reader, entered.take().map(|entered| entered.leave())),
    );
    readers
}
