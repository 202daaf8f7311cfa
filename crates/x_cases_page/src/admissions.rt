//! Which browser's connection is closed for a new one.

use desk_http::{ClientActivity, ClientStage, Placement, admit};
use std::alloc::Global;
use std::str::Split;

/// The stage with this name.
fn stage_of(name: &str) -> Option<ClientStage> {
    match name {
        "idle" => Some(ClientStage::Idle),
        "sending" => Some(ClientStage::Sending),
        "waiting" => Some(ClientStage::Waiting),
        "responding" => Some(ClientStage::Responding),
        "streaming" => Some(ClientStage::Streaming),
        _ => None,
    }
}

/// Appends so many connections: `COUNT STAGE ACCEPTED ACTIVE`.
fn push_clients(clients: &mut Vec<ClientActivity>, text: &str) -> Option<()> {
    let mut words = text.split(" ");
    let count: u32 = words.next()?.parse().ok()?;
    let stage = stage_of(words.next()?)?;
    let accepted: u64 = words.next()?.parse().ok()?;
    let active: u64 = words.next()?.parse().ok()?;
    for _ in 0..count {
        clients
            .push(ClientActivity {
                stage,
                accepted,
                active,
            })
            .ok()?;
    }
    Some(())
}

fn push_all(clients: &mut Vec<ClientActivity>, texts: Split<'_, &str>) -> Option<()> {
    for text in texts {
        push_clients(clients, text)?;
    }
    Some(())
}

/// Whether a new connection is admitted so: `MS ; COUNT STAGE ACCEPTED ACTIVE ; ..`.
pub fn placement_is(alloc: Global, text: &str, wanted: &str) -> Option<bool> {
    let mut words = text.split(" ; ");
    let now: u64 = words.next()?.parse().ok()?;
    let mut clients = Vec::new(alloc);
    push_all(&mut clients, words)?;
    match admit(&clients, now) {
        Placement::Free => Some(wanted == "free"),
        Placement::Refused => Some(wanted == "refused"),
        Placement::Evict(place) => {
            Some(wanted.strip_prefix("evict ")?.parse::<usize>().ok()? == place)
        }
    }
}
