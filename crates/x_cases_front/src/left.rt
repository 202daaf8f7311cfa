//! How a bridge ended.

use bridge_server::Stopped;
use std::alloc::Global;
use std::sync::{Arc, Mutex, MutexGuard, Wait};

/// How a bridge ended, in words, once an operator has stopped it and all its threads have ended. The bridge's thread
/// notes it.
#[derive(Drop)]
pub struct Left(Arc<Mutex<Option<String>>, Global>);

impl Left {
    /// A bridge that has not ended, as its thread sees it and as the case does.
    pub fn new(alloc: Global) -> Option<(Self, Self)> {
        let left = Arc::new(alloc, Mutex::new(None)).ok()?;
        let again = Arc::try_clone(&left).ok()?;
        Some((Self(left), Self(again)))
    }

    /// Notes how the bridge ended; nothing where it had a fault.
    pub fn note(&self, rt: &impl Wait, alloc: Global, stopped: Option<Stopped>) {
        let text = match &stopped {
            Some(stopped) => counts(alloc, stopped),
            None => None,
        };
        let mut left = self.0.lock(rt);
        *left = text;
        MutexGuard::unlock(left);
    }

    /// Whether the bridge has ended.
    pub fn is_there(&self, rt: &impl Wait) -> bool {
        let left = self.0.lock(rt);
        let is = left.is_some();
        MutexGuard::unlock(left);
        is
    }

    /// How many lanes the bridge had, and how many calls of each operator it accepted.
    pub fn counts(&self, rt: &impl Wait, alloc: Global) -> Option<String> {
        let left = self.0.lock(rt);
        let text = match &*left {
            Some(text) => format!(in alloc; "{text}").ok(),
            None => None,
        };
        MutexGuard::unlock(left);
        text
    }
}

/// The number of a bridge's lanes, and then how many calls of each operator it accepted.
fn counts(alloc: Global, stopped: &Stopped) -> Option<String> {
    let lanes = stopped.dropped.len();
    let mut text = format!(in alloc; "{lanes}").ok()?;
    for calls in &stopped.accepted {
        let word = format!(in alloc; " {calls}").ok()?;
        text.push_str(word.as_str()).ok()?;
    }
    Some(text)
}
