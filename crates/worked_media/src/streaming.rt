//! A stream that goes on from one source to another.

ghost use Rattle.std.specs.Prelude.{◌≡◌, [], ◌∷◌, true, false, IfOk};
ghost use Rattle.forward_rewrite.specs.Streams.{state_of, GivesNext};
ghost use Rattle.worked_media.specs.Sent.{owner as owner_of};
ghost use Rattle.worked_media.specs.Streamed.{frame, sending, camera, after_both, second_octets};

use bytes::Bytes;
use forward_rewrite::{OutPacket, Owner, Stream};
use frame_gate::{Frame, FramePacket};
use media_items::{MediaFrame, Stamp};
use rtp_codec::Address;
use std::alloc::{AllocError, Global};

pub(crate) fn owner(member: u32, port: u16) -> Owner
    ensures { result ≡ owner_of member port }
{
    let ip = [127, 0, 0, 1];
    Owner {
        member,
        address: Address { ip, port },
    }
}

/// A frame of one packet.
fn frame_of(
    alloc: Global,
    source: u32,
    moment: u64,
    ts: u32,
    payload: &'static [u8],
) -> Result<MediaFrame, AllocError>
    ensures { IfOk result (λ f. f ≡ frame source moment ts payload.now) }
{
    let mut packets = Vec::with_capacity(alloc, 1)?;
    packets.push(FramePacket {
        ext: 100,
        marker: true,
        pt: 96,
        payload: Bytes::from_static(payload),
    })?;
    let frame = Frame::new(ts, packets).map_err(|_| AllocError)?;
    Ok(MediaFrame {
        source,
        address: owner(2, 8).address,
        epoch: 1,
        moment,
        frame,
    })
}

/// Sends a frame of one packet to member 1 at port 7.
fn send(
    stream: &mut Stream,
    alloc: Global,
    source: u32,
    moment: u64,
    ts: u32,
    payload: &'static [u8],
) -> Result<Vec<OutPacket>, AllocError>
    ensures ssrc { stream.new.ssrc ≡ stream.old.ssrc }
    ensures sends { IfOk result (λ out.
        GivesNext stream.old stream.new (sending source moment ts payload.now) out.items) }
{
    let frame = frame_of(alloc, source, moment, ts, payload)?;
    let stamp = Stamp {
        version: 3,
        item: 1,
    };
    stream.send(alloc, &frame, stamp, owner(1, 7))
}

/// A stream that has sent a frame of source 5, as its packet 65535.
fn begun(alloc: Global) -> Result<Stream, AllocError>
    ensures { IfOk result (λ s. s ≡ state_of 500 65535 1000 (camera ∷ [])) }
{
    let mut stream = Stream::new(alloc, 500, 65535, 1000)?;
    send(&mut stream, alloc, 5, 0, 9000, b"\xab")?;
    Ok(stream)
}

/// And 40 milliseconds later one of source 6.
pub(crate) fn switched(alloc: Global) -> Result<Stream, AllocError>
    ensures { IfOk result (λ s. s ≡ after_both) }
{
    let mut stream = begun(alloc)?;
    send(&mut stream, alloc, 6, 40_000_000, 70_000, b"\xac")?;
    Ok(stream)
}

/// The other source's frame goes out under the next number and 3600 ticks later.
pub fn the_other_source_goes_on(alloc: Global) -> Result<Vec<OutPacket>, AllocError>
    ensures { IfOk result (λ out. out.items ≡ record { number = 0; bytes = second_octets } ∷ []) }
{
    let mut stream = begun(alloc)?;
    send(&mut stream, alloc, 6, 40_000_000, 70_000, b"\xac")
}

/// The first source's packet can be asked for behind the switch.
pub fn the_packet_before_the_switch_is_found(alloc: Global) -> Result<bool, AllocError>
    ensures { IfOk result (λ found. found ≡ true) }
{
    let stream = switched(alloc)?;
    Ok(stream.find(65535, &owner(1, 7)).is_some())
}

/// So can the other's.
pub fn the_packet_behind_the_switch_is_found(alloc: Global) -> Result<bool, AllocError>
    ensures { IfOk result (λ found. found ≡ true) }
{
    let stream = switched(alloc)?;
    Ok(stream.find(0, &owner(1, 7)).is_some())
}

/// Who asks from another port is not answered.
pub fn another_port_is_not_answered(alloc: Global) -> Result<bool, AllocError>
    ensures { IfOk result (λ found. found ≡ false) }
{
    let stream = switched(alloc)?;
    Ok(stream.find(65535, &owner(1, 9)).is_some())
}
