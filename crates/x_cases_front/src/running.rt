//! A bridge that runs on a thread.

use crate::left::Left;
use bridge_monitor::Teller;
use bridge_server::Front;
use front_settings::{Listening, settings};
use std::alloc::{Alloc, AllocGlobal, Global};
use std::net::Net;
use std::sync::Wait;
use std::thread::Threads;
use std::time::Clock;

/// A bridge that runs on a thread of its own, until an operator stops it.
#[derive(Drop)]
pub struct Running {
    /// The addresses that it listens on.
    pub listening: Listening,
    /// How it ended.
    pub left: Left,
}

/// What the thread of a bridge runs. Only `main` can start it: a thread takes no handle of sockets from elsewhere.
#[derive(Drop)]
pub struct Start {
    /// The bridge's sockets and settings.
    pub front: Front,
    /// Where to note how it ended.
    pub left: Left,
}

/// Runs a bridge until it ends, and notes how: the body of its thread. Nobody reads what the bridge tells.
pub fn run<R>(rt: &R, front: Front, left: &Left)
where
    R: Threads + Clock + Wait + Net + Alloc<A = Global> + Copy + Send + Sync + Drop + 'static,
{
    let Ok(teller) = Teller::new(rt.alloc()) else {
        return;
    };
    left.note(rt, rt.alloc(), front.run(rt, &teller).ok());
}

/// Opens the sockets of a bridge with so many seats and lanes and these further settings, on ports of the system's
/// choice.
fn bound<R: Net + Clock + AllocGlobal>(
    rt: &R,
    seats: usize,
    lanes: usize,
    more: &str,
) -> Option<Front> {
    let text = format!(in rt.alloc();
        "udp = \"127.0.0.1:0\"\ntcp = \"127.0.0.1:0\"\noperators = {seats}\nlanes = {lanes}\n{more}"
    ).ok()?;
    let settings = settings(rt.alloc(), text.as_str()).ok()?;
    Front::bind(rt, settings).ok()
}

impl Running {
    /// A bridge with so many seats and lanes and these further settings, and what its thread runs.
    pub fn bind<R: Net + Clock + AllocGlobal>(
        rt: &R,
        seats: usize,
        lanes: usize,
        more: &str,
    ) -> Option<(Self, Start)> {
        let front = bound(rt, seats, lanes, more)?;
        let listening = front.listening().ok()?;
        let (left, noted) = Left::new(rt.alloc())?;
        Some((Self { listening, left }, Start { front, left: noted }))
    }
}
