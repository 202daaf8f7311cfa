//! A wire that fails, and packets that are asked for again.

ghost use Rattle.std.specs.Prelude.{◌≡◌, true};
ghost use Rattle.std.specs.Bool.{OnTrue};
ghost use Rattle.media_items.specs.Inputs.{input_of, is_sized};

use bridge_core::{Core, Egress, Item, Settings};
use bytes::Bytes;
use desk_calls::Reply;
use desk_text::{parse_address, parse_desk};
use rtp_codec::Address;
use std::alloc::{AllocError, Global};
use std::test::Fail;
use udp_wire::{Wire, send_all};

/// Fails to send its first datagrams, and notes each attempt.
#[derive(Drop)]
struct Failing {
    alloc: Global,
    /// How many more attempts fail.
    failures: u32,
    /// A line for each attempt: whether it was sent, to whom, and its octets.
    notes: String,
}

impl Failing {
    fn note(&mut self, word: &str, to: Address, parts: (&[u8], &[u8])) -> Result<(), AllocError> {
        let first = hex::encode(self.alloc, parts.0)?;
        let rest = hex::encode(self.alloc, parts.1)?;
        let notes = &mut self.notes;
        write!(notes, "{word} {to} {first}{rest}\n")
    }
}

impl Wire for Failing {
    ghost use Rattle.std.specs.Prelude.{None};

    ghost attempts = { λ wire. None };

    fn send(&mut self, to: Address, octets: &[u8]) -> bool {
        self.send_parts(to, octets, b"")
    }

    fn send_parts(&mut self, to: Address, first: &[u8], rest: &[u8]) -> bool {
        let is_sent = self.failures == 0;
        self.failures = self.failures.saturating_sub(1);
        let word = if is_sent { "sent" } else { "failed" };
        self.note(word, to, (first, rest)).is_ok() && is_sent
    }
}

/// A bridge with a member who sends video, and one with a slot on it.
fn set_up(alloc: Global) -> Option<Core> {
    let settings = Settings {
        bridge_ssrc: 1,
        cname: Bytes::from_static(b"bridge"),
    };
    let mut core = Core::new(alloc, 1, settings).ok()?;
    let calls = [
        "add-room 1",
        "add-member 10 1 10.0.0.1:5000 pcmu 9001 0 0",
        "add-member 11 1 10.0.0.2:5000 pcmu 9002 0 0",
        "add-source 101 10 video",
        "add-slot 501 11 0 65535 1000",
        "subscribe 501 101",
    ];
    for words in calls {
        let call = parse_desk(alloc, words.as_bytes()).ok()?;
        if let Reply::Refused { .. } = core.desk(alloc, 0, call) {
            return None;
        }
    }
    Some(core)
}

/// Whether it is a frame or a NACK.
fn is_frame_or_nack(item: &Item) -> bool
    ensures { OnTrue result (is_sized (input_of item.now) ≡ true) }
{
    match item {
        Item::Frame(_) | Item::Nack { .. } => true,
        _ => false,
    }
}

/// The lane handles an item, and what it gives is sent. Returns how many datagrams failed.
fn sends(alloc: Global, core: &mut Core, item: &Item, wire: &mut Failing) -> Option<u64> {
    if core.lanes() == 0 || !is_frame_or_nack(item) {
        return None;
    }
    let mut egresses: Vec<(u32, Egress)> = Vec::new(alloc);
    let given = core.item(alloc, 0, item).ok()?;
    for egress in given {
        egresses.push((0, egress)).ok()?;
    }
    Some(send_all(&egresses, wire))
}

/// The bridge takes in a datagram, and the lane its items. Returns how many datagrams failed.
fn hears(
    alloc: Global,
    core: &mut Core,
    from: &str,
    digits: &str,
    wire: &mut Failing,
) -> Option<u64> {
    let from = parse_address(from.as_bytes())?;
    let octets = hex::decode(alloc, digits).ok()?;
    let ingest = core.datagram(alloc, &from, 0, &octets).ok()?;
    let mut failed: u64 = 0;
    for item in &ingest.items {
        failed = failed.saturating_add(sends(alloc, core, item, wire)?);
    }
    Some(failed)
}

/// Whether a text has these lines and no other.
fn has_lines(text: &str, wanted: [&str; 4]) -> bool {
    let mut lines = text.lines();
    for want in wanted {
        if lines.next().unwrap_or("(the end)") != want {
            return false;
        }
    }
    lines.next().is_none()
}

/// Whether a frame of two packets fails twice, and a NACK gets both sent.
fn is_sent_again(alloc: Global) -> Option<bool> {
    let mut core = set_up(alloc)?;
    let mut wire = Failing {
        alloc,
        failures: 2,
        notes: String::new(alloc),
    };
    let frame = [
        "80640005000000000000006500",
        "80e40006000000000000006500",
        "8064000700015f9000000065aabb",
        "80e4000800015f9000000065cc",
    ];
    let mut failed: u64 = 0;
    for digits in frame {
        let more = hears(alloc, &mut core, "10.0.0.1:5000", digits, &mut wire)?;
        failed = failed.saturating_add(more);
    }
    let nack = "80c900010000000981cd000300000009000001f5ffff0001";
    let failed_again = hears(alloc, &mut core, "10.0.0.2:5000", nack, &mut wire)?;
    let wanted = [
        "failed 10.0.0.2:5000 8164ffff000003e8000001f500000065aabb",
        "failed 10.0.0.2:5000 81e40000000003e8000001f500000065cc",
        "sent 10.0.0.2:5000 8164ffff000003e8000001f500000065aabb",
        "sent 10.0.0.2:5000 81e40000000003e8000001f500000065cc",
    ];
    Some(failed == 2 && failed_again == 0 && has_lines(wire.notes.as_str(), wanted))
}

/// A frame whose first sending failed on the wire is asked for by NACK: both packets are sent again.
#[test]
fn a_frame_that_failed_is_sent_again(rt: HostRuntime) -> Result<(), Fail> {
    assert!(rt; is_sent_again(rt.alloc()) == Some(true));
    Ok(())
}
