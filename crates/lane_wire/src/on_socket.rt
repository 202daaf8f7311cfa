//! Sends what a lane makes on a socket.

ghost use Rattle.std.specs.Prelude.{◌≡◌, ◌++◌, vec_capacity};
ghost use Rattle.udp_wire.specs.Attempts.{datagrams_of};
ghost use Rattle.lane_wire.specs.OnSocket.{HasTried, HaveTried, outcome};

use crate::fault::SendFault;
use bridge_core::Egress;
use rtp_codec::Address;
use std::io;
use udp_wire::{Datagrams, send_parts};

/// What came of sending, by the system's answer.
fn came_of(answer: io::Result<usize>) -> Result<(), SendFault>
    ensures { result ≡ outcome answer }
{
    match answer {
        Ok(_) => Ok(()),
        Err(error) => Err(SendFault::of(&error)),
    }
}

/// Tries once to send a datagram of two parts.
fn try_parts<D: Datagrams>(
    socket: &mut D,
    whole: &mut Vec<u8>,
    to: Address,
    first: &[u8],
    rest: &[u8],
) -> Result<(), SendFault>
    ensures { HasTried D.sent (vec_capacity whole.old) socket.old socket.new to (first.now ++ rest.now) result }
{
    match send_parts(socket, whole, to, first, rest) {
        Ok(answer) => came_of(answer),
        Err(_) => Err(SendFault::Other),
    }
}

/// Tries once to send the datagram of an egress on a socket. The parts of a packet are joined in `whole`; on out of
/// memory they aren't sent, which counts as [`Other`](SendFault::Other). Of a note nothing is sent.
pub fn send_egress<D: Datagrams>(
    socket: &mut D,
    whole: &mut Vec<u8>,
    egress: &Egress,
) -> Result<(), SendFault>
    ensures { HaveTried D.sent (vec_capacity whole.old) socket.old socket.new (datagrams_of egress.now) result }
{
    match egress {
        Egress::Media { to, bytes, .. } => {
            let (first, rest) = bytes.parts();
            try_parts(socket, whole, *to, first, rest)
        }
        Egress::Control { to, bytes, .. } => try_parts(socket, whole, *to, &[], bytes),
        Egress::Note { .. } => Ok(()),
    }
}
