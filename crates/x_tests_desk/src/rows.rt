//! An edit of a desk as large as there may be.

use desk_rows::{Codec, Edit, MAX_MEMBERS, MAX_SLOTS, Member, Part, Placed, Replaced, Row, Sub};
use rtp_codec::Address;
use std::test::Fail;

/// A member of room 7 at the place of its number.
fn placed(place: u16) -> Placed {
    Placed {
        place: place as usize,
        row: Member {
            member: place as u32,
            room: 7,
            address: Address {
                ip: [10, 0, 0, 1],
                port: place.saturating_add(1),
            },
            codec: Codec::L16,
            out_audio: place as u32 + 9000,
            first_seq: 0,
            first_ts: 0,
        },
    }
}

/// An edit that takes all members and replaces a sub of each slot can be copied.
#[test]
fn the_largest_edit_is_copied(rt: HostRuntime) -> Result<(), Fail> {
    let alloc = rt.alloc();
    let mut members = Vec::new(alloc);
    for place in 0..MAX_MEMBERS as u16 {
        members.push(placed(place))?;
    }
    let mut old = Vec::new(alloc);
    let mut new = Vec::new(alloc);
    for out_ssrc in 0..MAX_SLOTS as u32 {
        old.push(Row::Sub(Sub {
            out_ssrc,
            source: 1,
        }))?;
        new.push(Row::Sub(Sub {
            out_ssrc,
            source: 2,
        }))?;
    }
    let edit = Edit {
        taken: Part::new(members, Vec::new(alloc)),
        put: Part::none(alloc),
        replaced: Replaced::new(old, new),
    };
    assert!(rt; Edit::copy(&edit, alloc).is_ok());
    Ok(())
}
