//! What `confbridge serve` says on standard error.

use bridge_monitor::{EventLines, Teller};
use bridge_server::Stopped;
use event_lines::{Cause, WhyFailed};
use front_settings::{SettingsFault, faulty_part};
use lane_wire::{SendCounts, SendFault};
use std::alloc::AllocGlobal;
use std::fmt;
use std::io::Eprint;
use std::rt::Runtime;
use std::sync::Wait;
use std::time::Clock;

/// Why a lane may not have sent a packet, in the order in which it is told.
const CAUSES: [SendFault; 6] = [
    SendFault::NotReady,
    SendFault::Denied,
    SendFault::Refused,
    SendFault::Unreachable,
    SendFault::TooLong,
    SendFault::Other,
];

/// Says what failed, and why.
pub fn tell_cause<R: Runtime>(rt: &R, cause: &Cause) {
    let _ = eprintln!(rt; "confbridge: {cause}");
}

/// Says what is wrong with the file of the settings.
pub fn tell_file<R: Runtime, W: fmt::Display>(rt: &R, path: &str, why: &W) {
    let _ = eprintln!(rt; "confbridge: {path}: {why}");
}

/// Says what a settings file has where its fault is.
pub fn tell_fault<R: Runtime + AllocGlobal>(rt: &R, path: &str, text: &str, fault: &SettingsFault) {
    if let SettingsFault::OutOfMemory = fault {
        tell_file(rt, path, &WhyFailed::OutOfMemory);
        return;
    }
    if let Some(part) = faulty_part(rt.alloc(), text, fault) {
        tell_file(rt, path, &part);
    }
}

/// Says why a bridge ended, line by line.
pub fn tell_causes<R: Runtime + Wait>(rt: &R, teller: &Teller) {
    let mut place: usize = 0;
    for _ in rt.forever() {
        let Some(cause) = teller.cause(rt, place) else {
            return;
        };
        tell_cause(rt, &cause);
        place = place.saturating_add(1);
    }
}

/// Says what happens while a bridge runs, until it has ended: the body of a thread of its own.
pub fn write_lines<R: Eprint + Wait + Clock>(rt: &R, lines: &mut EventLines) {
    for _ in rt.forever() {
        let Some(event) = lines.next(rt) else {
            return;
        };
        let _ = eprintln!(rt; "confbridge: {event}");
    }
}

/// Says how many packets a lane could not send, by cause, if there were any.
fn tell_unsent<R: Runtime>(rt: &R, lane: u32, counts: &SendCounts) {
    for cause in CAUSES {
        let packets = counts.failed(cause);
        if packets > 0 {
            let _ = eprintln!(rt; "confbridge: lane {lane}: {packets} packets not sent: {cause}");
        }
    }
}

/// Says of each operator how many calls were accepted, and of each lane how many items were dropped and how many
/// packets were not sent, if any were.
pub fn tell_counts<R: Runtime>(rt: &R, stopped: &Stopped) {
    let mut op: u32 = 0;
    for calls in &stopped.accepted {
        let _ = eprintln!(rt; "confbridge: operator {op}: {calls} calls");
        op = op.saturating_add(1);
    }
    let mut lane: u32 = 0;
    for dropped in &stopped.dropped {
        if *dropped > 0 {
            let _ = eprintln!(rt; "confbridge: lane {lane}: {dropped} items dropped");
        }
        lane = lane.saturating_add(1);
    }
    let mut lane: u32 = 0;
    for sent in &stopped.sent {
        tell_unsent(rt, lane, &sent.counts);
        lane = lane.saturating_add(1);
    }
}
