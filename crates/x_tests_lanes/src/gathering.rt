//! What lanes that run were asked.

use crate::paces::{Asked, Counted};
use std::alloc::Global;
use std::sync::{Arc, Wait};
use std::thread;

/// What so many lanes are asked.
pub fn asked_by(alloc: Global, lanes: usize) -> Option<Vec<Arc<Asked, Global>>> {
    let mut asked = Vec::new(alloc);
    for _ in 0..lanes {
        asked.push(Arc::new(alloc, Asked::new()).ok()?).ok()?;
    }
    Some(asked)
}

/// A pace for each.
pub fn paces(alloc: Global, asked: &Vec<Arc<Asked, Global>>) -> Option<Vec<Counted>> {
    let mut paces = Vec::new(alloc);
    for asked in asked {
        let asked = Arc::try_clone(asked).ok()?;
        paces.push(Counted { asked }).ok()?;
    }
    Some(paces)
}

/// Whether each was asked so often.
fn are_asked(asked: &Vec<Arc<Asked, Global>>, times: u64) -> bool {
    asked.iter().all(|asked| asked.times() >= times)
}

/// Waits until each was asked so often.
pub fn wait_until<R: Wait>(rt: &R, asked: &Vec<Arc<Asked, Global>>, times: u64) {
    for _ in rt.forever() {
        if are_asked(asked, times) {
            return;
        }
        thread::yield_now();
    }
    unreachable!()
}
