//! A sink that keeps what it takes.

use bridge_core::Egress;
use media_workers::{LaneItem, Sink};
use std::alloc::Global;
use std::sync::Wait;

/// Keeps all that it takes, as a list.
#[derive(Drop)]
pub struct ListSink {
    sent: Vec<Egress>,
}

impl ListSink {
    pub fn new(alloc: Global) -> ListSink {
        ListSink {
            sent: Vec::new(alloc),
        }
    }

    pub fn into_sent(self) -> Vec<Egress> {
        self.sent
    }
}

/// Waits for ever, as where memory is refused.
fn never<R: Wait>(rt: &R)
    ensures { ⊥ }
{
    for _ in rt.forever() {}
    unreachable!()
}

impl Sink for ListSink {
    ghost taken = { λ s. s.sent.items };

    ghost feeds = { λ s c. Unit {0} };

    ghost heard = { λ s l. ⊥ };

    fn put<R: Wait>(&mut self, rt: &R, egress: Egress) {
        if self.sent.push(egress).is_err() {
            never(rt);
        }
    }

    fn handled<R: Wait>(&mut self, _rt: &R, _version: u64, _item: LaneItem) {}
}
