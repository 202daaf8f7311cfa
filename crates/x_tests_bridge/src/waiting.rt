//! A receive side that is told that time passes.

use bridge_core::{Core, Ingress, Settings};
use bytes::Bytes;
use desk_edit::{Call, Command};
use desk_rows::{Codec, Media, Member, Room, Rows, Source};
use rtp_codec::Address;
use std::alloc::{AllocError, Global};
use std::test::*;

/// Where the member of source 101 sends from.
const FROM: Address = Address {
    ip: [10, 0, 0, 1],
    port: 5000,
};

/// The numbers that come. Number 4 is lost, and number 5 is a frame's first packet behind it.
const NUMBERS: [u16; 5] = [1, 2, 3, 5, 6];

/// How many waits are made: the last one gives number 4 up.
const WAITS: u64 = 26;

fn settings() -> Settings {
    Settings {
        bridge_ssrc: 1,
        cname: Bytes::from_static(b"bridge"),
    }
}

/// A room with a member that sends video.
fn set_up() -> [Command; 3] {
    [
        Command::AddRoom(Room {
            room: 1,
            rate: 8_000,
        }),
        Command::AddMember(Member {
            member: 10,
            room: 1,
            address: FROM,
            codec: Codec::Pcmu,
            out_audio: 9_000,
            first_seq: 0,
            first_ts: 0,
        }),
        Command::AddSource(Source {
            ssrc: 101,
            member: 10,
            media: Media::Video,
        }),
    ]
}

/// A frame of one packet, of source 101.
fn packet(number: u16) -> [u8; 13] {
    let [high, low] = number.to_be_bytes();
    [0x80, 0xe4, high, low, 0, 0, high, low, 0, 0, 0, 101, 7]
}

/// How many datagrams and frames the waits give, once the packets have come.
fn counts(alloc: Global, ingress: &mut Ingress, rows: &Rows) -> Result<(usize, usize), AllocError> {
    for number in NUMBERS {
        ingress.datagram(alloc, rows, &FROM, 0, &packet(number))?;
    }
    let mut sent = 0usize;
    let mut freed = 0usize;
    for moment in 0..WAITS {
        let answer = ingress.wait(alloc, rows, &FROM, 101, moment)?;
        sent = sent.wrapping_add(answer.up.len());
        freed = freed.wrapping_add(answer.items.len());
    }
    Ok((sent, freed))
}

/// The same of a new ingress, over a desk that is set up.
fn counted(alloc: Global) -> Option<(usize, usize)> {
    let named = settings();
    if !named.is_good() {
        return None;
    }
    let mut core = Core::new(alloc, 1, settings()).ok()?;
    for command in set_up() {
        core.desk(alloc, 0, Call::Apply(command));
    }
    let mut ingress = Ingress::new(alloc, named).ok()?;
    counts(alloc, &mut ingress, core.rows()).ok()
}

/// A lost packet is asked for at 4 waits. The 26th gives it up: it asks for a picture, and sets a frame free.
#[test]
fn a_lost_packet_is_asked_for_and_given_up(rt: HostRuntime) -> Result<(), Fail> {
    assert!(rt; counted(rt.alloc()) == Some((5, 1)));
    Ok(())
}
