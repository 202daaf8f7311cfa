//! Appending to a text.

ghost use Rattle.std.specs.Prelude.{◌≡◌, ◌∷◌, ◌++◌, [], decimal, codes, OnOk};
ghost use Rattle.rtp_codec.specs.Address.{address_text};
ghost use Rattle.trace_text.specs.TraceLines.{mark_of, first_end, first_line, empty_line, datagram_line};
ghost use Rattle.trace_text.specs.TraceLines.{picture_line};

use crate::speaker::Speaker;
use itoa::Buffer;
use rtp_codec::Address;
use script_text::append_rx_line;
use std::alloc::{AllocError, Allocator};

/// Appends a text. Here as below, an `Err`, out of memory, may leave a part of it.
pub(crate) fn append<A: Allocator>(text: &[u8], out: &mut Vec<u8, A>) -> Result<(), AllocError>
    ensures { OnOk result (out.new.items ≡ out.old.items ++ text.now) }
{
    out.extend_from_slice(text)
}

/// Appends a number.
fn append_number<A: Allocator>(number: u64, out: &mut Vec<u8, A>) -> Result<(), AllocError>
    ensures { OnOk result (out.new.items ≡ out.old.items ++ decimal number) }
{
    let mut buffer = Buffer::new();
    append(buffer.format(number).as_bytes(), out)
}

/// Appends a text, a number, and another text.
fn append_around<A: Allocator>(
    before: &[u8],
    number: u64,
    behind: &[u8],
    out: &mut Vec<u8, A>,
) -> Result<(), AllocError>
    ensures { OnOk result (out.new.items ≡ out.old.items ++ before.now ++ decimal number ++ behind.now) }
{
    append(before, out)?;
    append_number(number, out)?;
    append(behind, out)
}

/// Appends what stands before each line of a speaker.
pub(crate) fn append_mark<A: Allocator>(
    speaker: Speaker,
    out: &mut Vec<u8, A>,
) -> Result<(), AllocError>
    ensures { OnOk result (out.new.items ≡ out.old.items ++ mark_of speaker) }
{
    match speaker {
        Speaker::Front => Ok(()),
        Speaker::Lane(lane) => append_around(b"lane ", u64::from(lane), b" ", out),
    }
}

/// How the first line of a speaker ends.
fn first_end(speaker: Speaker) -> &'static [u8]
    ensures { result.now ≡ first_end speaker }
{
    match speaker {
        Speaker::Front => b" renew\n",
        Speaker::Lane(_) => b"\n",
    }
}

/// Appends the first line of a speaker.
pub(crate) fn append_first<A: Allocator>(
    speaker: Speaker,
    ssrc: u32,
    name: &[u8],
    out: &mut Vec<u8, A>,
) -> Result<(), AllocError>
    ensures { OnOk result (out.new.items ≡ out.old.items ++ first_line speaker ssrc name.now) }
{
    append_around(b"bridge ", u64::from(ssrc), b" ", out)?;
    append(name, out)?;
    append(first_end(speaker), out)
}

/// Appends an address.
fn append_address<A: Allocator>(address: Address, out: &mut Vec<u8, A>) -> Result<(), AllocError>
    ensures { OnOk result (out.new.items ≡ out.old.items ++ address_text address) }
{
    let text = address.text();
    append(text.as_str().as_bytes(), out)
}

/// Appends the comment on a datagram without octets.
fn append_empty<A: Allocator>(
    moment: u64,
    from: Address,
    out: &mut Vec<u8, A>,
) -> Result<(), AllocError>
    ensures { OnOk result (out.new.items ≡ out.old.items ++ empty_line moment from) }
{
    append_around(b"# rx ", moment, b" ", out)?;
    append_address(from, out)?;
    append(b"\n", out)
}

/// Appends the line of a datagram that was taken in.
pub(crate) fn append_datagram_line<A: Allocator>(
    moment: u64,
    from: Address,
    octets: &[u8],
    out: &mut Vec<u8, A>,
) -> Result<(), AllocError>
    ensures { OnOk result (out.new.items ≡ out.old.items ++ datagram_line moment from octets.now) }
{
    if octets.len() == 0 {
        append_empty(moment, from, out)
    } else {
        append_rx_line(moment, from, octets, out)
    }
}

/// Appends the comment that a sender was asked for a picture.
pub(crate) fn append_picture<A: Allocator>(
    to: Address,
    ssrc: u32,
    out: &mut Vec<u8, A>,
) -> Result<(), AllocError>
    ensures { OnOk result (out.new.items ≡ out.old.items ++ picture_line to ssrc) }
{
    append(b"# picture ", out)?;
    append_address(to, out)?;
    append_around(b" ", u64::from(ssrc), b"\n", out)
}
