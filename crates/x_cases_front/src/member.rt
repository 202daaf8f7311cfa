//! The sockets of members.

use crate::text::are_like;
use std::alloc::Global;
use std::mem;
use std::net::{IpAddr, Ipv4Addr, Net, SocketAddr, UdpSocket};

/// How many members there are.
const MEMBERS: usize = 6;
/// More octets than a datagram has that the bridge sends.
const CHUNK: usize = 9_000;

/// A member: its socket, its port, and what came that no line of the case has asked for yet.
#[derive(Drop)]
struct Member {
    socket: Option<UdpSocket>,
    /// The port that it had last.
    port: u16,
    came: Vec<Vec<u8>>,
}

/// The members of a case, by number.
#[derive(Drop)]
pub struct Members {
    alloc: Global,
    members: Vec<Member>,
    chunk: Vec<u8>,
    /// What comes may come in any order, as from several lanes.
    is_mixed: bool,
}

/// This port of 127.0.0.1.
fn loopback(port: u16) -> SocketAddr {
    SocketAddr::new(IpAddr::V4(Ipv4Addr::new(127, 0, 0, 1)), port)
}

impl Members {
    /// Members without sockets.
    pub fn new(alloc: Global, is_mixed: bool) -> Option<Self> {
        let mut members = Vec::new(alloc);
        for _ in 0..MEMBERS {
            members
                .push(Member {
                    socket: None,
                    port: 0,
                    came: Vec::new(alloc),
                })
                .ok()?;
        }
        let mut chunk = Vec::new(alloc);
        chunk.resize(CHUNK, 0).ok()?;
        Some(Self {
            alloc,
            members,
            chunk,
            is_mixed,
        })
    }

    /// A member's new socket at a port, which never waits. Port 0 is one of the system's choice.
    fn bind<R: Net>(&mut self, rt: &R, at: usize, port: u16) -> Option<bool> {
        let socket = UdpSocket::bind(rt, loopback(port)).ok()?;
        socket.set_nonblocking(true).ok()?;
        let member = self.members.get_mut(at)?;
        member.port = socket.local_addr().ok()?.port();
        member.socket = Some(socket);
        Some(true)
    }

    /// A member has a socket.
    pub fn comes<R: Net>(&mut self, rt: &R, at: usize) -> Option<bool> {
        self.bind(rt, at, 0)
    }

    /// A member has a socket again, at the port that it had last.
    pub fn returns<R: Net>(&mut self, rt: &R, at: usize) -> Option<bool> {
        let port = self.port(at)?;
        self.bind(rt, at, port)
    }

    /// A member has no socket any more.
    pub fn leaves(&mut self, at: usize) -> Option<bool> {
        self.members.get_mut(at)?.socket = None;
        Some(true)
    }

    /// The port that a member had last.
    pub fn port(&self, at: usize) -> Option<u16> {
        Some(self.members.get(at)?.port)
    }

    /// A member sends a datagram.
    pub fn sends(&self, at: usize, octets: &[u8], to: SocketAddr) -> Option<bool> {
        let socket = self.members.get(at)?.socket.as_ref()?;
        Some(socket.send_to(octets, to).is_ok())
    }

    /// Takes what has come to a member.
    fn receive(&mut self, at: usize) -> Option<()> {
        let member = self.members.get_mut(at)?;
        let socket = member.socket.as_ref()?;
        for _ in 0..64 {
            let Ok((count, _)) = socket.recv_from(&mut self.chunk) else {
                break;
            };
            let octets = Vec::from_slice(self.alloc, self.chunk.get(..count)?).ok()?;
            member.came.push(octets).ok()?;
        }
        Some(())
    }

    /// The datagrams that have come to a member, which takes them off.
    pub fn takes(&mut self, at: usize) -> Option<Vec<Vec<u8>>> {
        self.receive(at)?;
        let member = self.members.get_mut(at)?;
        Some(mem::replace(&mut member.came, Vec::new(self.alloc)))
    }

    /// The place of the first datagram that has come with these digits.
    fn place(&self, at: usize, wanted: &str) -> Option<usize> {
        let mut place = 0usize;
        for octets in &self.members.get(at)?.came {
            if are_like(self.alloc, octets, wanted)? {
                return Some(place);
            }
            place = place.saturating_add(1);
        }
        None
    }

    /// Whether the datagram that came next to a member has these digits, which takes it off. `None` where it has not
    /// come yet.
    pub fn gets(&mut self, at: usize, wanted: &str) -> Option<bool> {
        self.receive(at)?;
        let place = self.place(at, wanted);
        let is_mixed = self.is_mixed;
        let member = self.members.get_mut(at)?;
        let Some(place) = place else {
            // With several lanes it may come later.
            return if is_mixed || member.came.is_empty() {
                None
            } else {
                Some(false)
            };
        };
        if place >= member.came.len() || (place > 0 && !is_mixed) {
            return Some(false);
        }
        member.came.remove(place);
        Some(true)
    }
}
