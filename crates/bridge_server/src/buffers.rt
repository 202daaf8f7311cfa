//! The buffers of the socket for datagrams, and what the system dropped there.

ghost use Rattle.std.specs.Prelude.{◌≡◌};

use crate::drops::{drops_at, inode_of};
use bridge_stats::SocketRow;
use front_settings::FrontSettings;
use libc::net as c;
use mio::net::UdpSocket;
use std::os::fd::{AsRawFd, RawFd};

/// How many octets the value of an option has that is a number.
const NUMBER: u32 = 4;

/// The value of an option that is a number.
fn value_of(number: u32) -> [u8; 16] {
    let [a, b, c, d] = number.to_ne_bytes();
    [a, b, c, d, 0, 0, 0, 0, 0, 0, 0, 0, 0, 0, 0, 0]
}

/// The number that the value of an option is.
fn number_in(value: &[u8; 16]) -> u32 {
    u32::from_ne_bytes([value[0], value[1], value[2], value[3]])
}

/// Asks the system for buffers of so many octets.
// It gives less where it allows less, and what it gives is asked for next. So it needs no fault of its own.
fn ask(fd: RawFd, receive: u32, send: u32) {
    let (receive, send) = (value_of(receive), value_of(send));
    unsafe {
        let _ = c::setsockopt(fd, c::SOL_SOCKET, c::SO_RCVBUF, &receive, NUMBER);
        let _ = c::setsockopt(fd, c::SOL_SOCKET, c::SO_SNDBUF, &send, NUMBER);
    }
}

/// How many octets of datagrams the system lets wait until they are read.
fn receive_buffer(fd: RawFd) -> u32 {
    let mut value = value_of(0);
    let mut len = NUMBER;
    unsafe {
        let _ = c::getsockopt(fd, c::SOL_SOCKET, c::SO_RCVBUF, &mut value, &mut len);
    }
    // The system says twice what it was asked for: the other half is for its own notes (socket(7)).
    number_in(&value) / 2
}

/// How many octets of datagrams the system lets wait until they leave.
fn send_buffer(fd: RawFd) -> u32 {
    let mut value = value_of(0);
    let mut len = NUMBER;
    unsafe {
        let _ = c::getsockopt(fd, c::SOL_SOCKET, c::SO_SNDBUF, &mut value, &mut len);
    }
    number_in(&value) / 2
}

/// The buffers that the system gave the socket for datagrams, and by what it names that socket.
#[derive(Clone, Copy)]
pub(crate) struct SocketBuffers {
    /// How many octets of datagrams wait at most until they are read.
    pub(crate) receive: u32,
    /// How many octets of datagrams wait at most until they leave.
    pub(crate) send: u32,
    /// The socket's inode, if the system tells it.
    inode: Option<u64>,
}

impl SocketBuffers {
    /// The socket with these buffers, and what the system has dropped there until now.
    pub(crate) fn row(&self) -> SocketRow
        ensures receive { result.receive_buffer ≡ self.now.receive }
        ensures send { result.send_buffer ≡ self.now.send }
    {
        let drops = match self.inode {
            None => None,
            Some(inode) => drops_at(inode),
        };
        SocketRow {
            receive_buffer: self.receive,
            send_buffer: self.send,
            drops,
        }
    }
}

/// Asks the system for the buffers that the settings name. Returns those that it gives.
pub(crate) fn buffers_of(udp: &UdpSocket, settings: &FrontSettings) -> SocketBuffers {
    let fd = udp.as_raw_fd();
    ask(fd, settings.receive_buffer, settings.send_buffer);
    SocketBuffers {
        receive: receive_buffer(fd),
        send: send_buffer(fd),
        inode: inode_of(fd),
    }
}
