//! Reads datagrams from a socket.

ghost use Rattle.std.specs.Prelude.{◌≡◌, ◌≤◌, ℕ, true, false, length, Ok, Result, IfOk};
ghost use Rattle.std.specs.declared.io.Error.{Error};
ghost use Rattle.std.specs.declared.net.socket_addr.SocketAddr.{SocketAddr as Place};
ghost use Rattle.event_loop.specs.declared.inlet.Read.TheVariants.{Nothing};
ghost use Rattle.event_loop.specs.Came.{octets_read};
ghost use Rattle.event_loop.specs.Answered.{may_follow, read_by};

use crate::inlet::Read;
use std::io;
use std::io::ErrorKind;
use std::net::SocketAddr;
use udp_wire::{Datagrams, address_of};

/// Whether more may wait behind a socket's answer.
fn may_follow(answer: &io::Result<(usize, SocketAddr)>) -> bool
    ensures { result ≡ may_follow answer.now }
{
    match answer {
        Ok(_) => true,
        Err(error) => match error.kind() {
            ErrorKind::WouldBlock => false,
            _ => true,
        },
    }
}

/// What a socket's answer is for a front. An `Err` is the socket's.
fn read_by(answer: io::Result<(usize, SocketAddr)>) -> io::Result<Read>
    ensures read { result ≡ read_by answer }
    ensures few { (most : ℕ) → IfOk answer (λ r. r.0 ≤ most) → IfOk result (λ read. octets_read read ≤ most) }
{
    match answer {
        Ok((octets, told)) => Ok(match address_of(told) {
            Some(from) => Read::Datagram { from, octets },
            None => Read::Other,
        }),
        Err(error) => match error.kind() {
            ErrorKind::WouldBlock => Ok(Read::Nothing),
            ErrorKind::Interrupted | ErrorKind::ConnectionRefused => Ok(Read::Other),
            _ => Err(error),
        },
    }
}

/// Reads the next datagram of a socket into a chunk, if one may wait. Then it notes whether more may wait. An `Err` is
/// the socket's.
pub fn read_datagram<D: Datagrams>(
    socket: &mut D,
    may_wait: &mut bool,
    chunk: &mut Vec<u8>,
) -> io::Result<Read>
    ensures idle { may_wait.old ≡ false
        → (result ≡ Ok Nothing) × (socket.new ≡ socket.old) × (may_wait.new ≡ false) }
    ensures asked { may_wait.old ≡ true
        → (answer : Result (ℕ × Place) Error) × D.received socket.old socket.new answer chunk.new.items
        × (result ≡ read_by answer) × (may_wait.new ≡ may_follow answer) }
    ensures few { IfOk result (λ read. octets_read read ≤ length chunk.new.items) }
{
    if !*may_wait {
        return Ok(Read::Nothing);
    }
    let answer = socket.recv_from(chunk);
    *may_wait = may_follow(&answer);
    read_by(answer)
}
