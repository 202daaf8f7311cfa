//! Packets that are asked for again.

ghost use Rattle.std.specs.Prelude.{◌≡◌, [], ◌∷◌, true, false, IfOk};
ghost use Rattle.retransmit.specs.Window.{window_size, latest};
ghost use Rattle.worked_media.specs.Sent.{owner as owner_of, packet as packet_of, packets};

use bytes::Bytes;
use retransmit::{Entry, Owner, PacketBytes, Window, so_far};
use rtcp_codec::{Nack, NackWord, Pli, Rtcp};
use rtp_codec::Address;
use sender_feedback::numbers_of;
use std::alloc::{AllocError, Global};

fn owner(member: u32, port: u16) -> Owner
    ensures { result ≡ owner_of member port }
{
    let ip = [127, 0, 0, 1];
    Owner {
        member,
        address: Address { ip, port },
    }
}

fn packet(number: u16) -> Entry
    ensures { result ≡ packet_of number }
{
    Entry {
        number,
        owner: owner(1, 7),
        version: 1,
        item: 1,
        source: 5,
        address: owner(2, 8).address,
        epoch: 1,
        ext: 100,
        bytes: PacketBytes::whole(Bytes::new()),
    }
}

/// A window after so many packets to member 1 at port 7, the first one under this number.
fn window_after(alloc: Global, first: u16, count: u16) -> Result<Window, AllocError>
    ensures { IfOk result (λ window. window ≡ latest window_size (packets first count)) }
{
    let mut window = Window::new(alloc)?;
    so_far();
    for i in 0..count {
        window.push(packet(first.wrapping_add(i)));
    }
    Ok(window)
}

/// A window reaches back 512 packets: of the numbers 0 to 512, 1 is found.
pub fn the_512th_back_is_found(alloc: Global) -> Result<bool, AllocError>
    ensures { IfOk result (λ found. found ≡ true) }
{
    let window = window_after(alloc, 0, 513)?;
    Ok(window.find(1, &owner(1, 7)).is_some())
}

/// It reaches no further: 0 is not found.
pub fn the_513th_back_is_not(alloc: Global) -> Result<bool, AllocError>
    ensures { IfOk result (λ found. found ≡ false) }
{
    let window = window_after(alloc, 0, 513)?;
    Ok(window.find(0, &owner(1, 7)).is_some())
}

/// Behind 65535 comes 0.
pub fn numbers_go_on_over_the_wrap(alloc: Global) -> Result<bool, AllocError>
    ensures { IfOk result (λ found. found ≡ true) }
{
    let window = window_after(alloc, 65535, 2)?;
    Ok(window.find(0, &owner(1, 7)).is_some())
}

/// What was sent before the wrap can still be asked for.
pub fn the_one_before_the_wrap_is_found(alloc: Global) -> Result<bool, AllocError>
    ensures { IfOk result (λ found. found ≡ true) }
{
    let window = window_after(alloc, 65535, 2)?;
    Ok(window.find(65535, &owner(1, 7)).is_some())
}

/// The owner at another address is not answered.
pub fn another_address_is_not_answered(alloc: Global) -> Result<bool, AllocError>
    ensures { IfOk result (λ found. found ≡ false) }
{
    let window = window_after(alloc, 65535, 2)?;
    Ok(window.find(0, &owner(1, 9)).is_some())
}

/// Nor is another member at that address.
pub fn another_member_is_not_answered(alloc: Global) -> Result<bool, AllocError>
    ensures { IfOk result (λ found. found ≡ false) }
{
    let window = window_after(alloc, 65535, 2)?;
    Ok(window.find(0, &owner(2, 7)).is_some())
}

/// Two words name a number each beyond the wrap, and it stands there twice.
pub fn a_number_is_named_twice(alloc: Global) -> Result<Vec<u16>, AllocError>
    ensures { IfOk result (λ numbers. numbers.items ≡ 65535 ∷ 0 ∷ 0 ∷ 2 ∷ []) }
{
    let mut words = Vec::new(alloc);
    words.push(NackWord { pid: 65535, blp: 1 })?;
    words.push(NackWord { pid: 0, blp: 2 })?;
    let nack = Nack {
        sender: 1,
        media: 500,
        words,
    };
    numbers_of(alloc, &Rtcp::Nack(nack))
}

/// A picture loss indication asks for no packet.
pub fn a_lost_picture_names_no_packet(alloc: Global) -> Result<Vec<u16>, AllocError>
    ensures { IfOk result (λ numbers. numbers.items ≡ []) }
{
    let pli: Rtcp = Rtcp::Pli(Pli {
        sender: 1,
        media: 500,
    });
    numbers_of(alloc, &pli)
}
