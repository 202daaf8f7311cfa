//! The sockets of a bridge that runs: what has come, what is read, and what the front sends.

ghost use Rattle.std.specs.Prelude.{◌≡◌, ◌<◌, ◌≤◌, [], true, None, length, IfOk, IfErr, vec_capacity};
ghost use Rattle.udp_wire.specs.Ended.{IsOfIo};
ghost use Rattle.ingress.specs.Readings.{most_octets};
ghost use Rattle.event_loop.specs.Came.{octets_read};
ghost use Rattle.event_loop.specs.Logs.{read_list, tried_list};

use crate::front::{TCP, UDP};
use crate::rest::Rest;
use crate::system_socket::SystemSocket;
use event_lines::{Cause, ServerPart, WhyFailed};
use event_loop::{Inlet, Read, ReadLog, TryLog, read_datagram};
use mio::net::UdpSocket;
use mio::{Events, Poll};
use rtp_codec::Address;
use std::alloc::{AllocError, Global};
use std::sync::Arc;
use std::time::{Clock, Duration};
use std::{io, thread};
use udp_wire::{FrontFault, Wire, send_octets, send_parts};

/// How many of the system's events are taken at a time.
const EVENTS: usize = 8;
/// How many octets of a datagram are read: more than one may have, so that a longer one is noticed.
const CHUNK: usize = 9_000;

/// Where octets are read to.
pub(crate) fn chunk(alloc: Global) -> Result<Vec<u8>, AllocError>
    ensures { IfOk result (λ chunk. most_octets < length chunk.items) }
{
    let mut chunk = Vec::new(alloc);
    chunk.resize(CHUNK, 0)?;
    Ok(chunk)
}

/// The socket for datagrams as an inlet, with what the system last reported of the sockets.
#[derive(Drop)]
pub(crate) struct UdpInlet<R: Clock + Drop> {
    rt: R,
    poll: Poll,
    events: Events,
    /// Lanes have handles of it, too.
    udp: Arc<UdpSocket, Global>,
    /// The address of the socket, as the settings have it.
    at: Address,
    /// Datagrams may wait.
    has_datagrams: bool,
    rest: Rest,
    /// What failed last.
    trouble: Option<Cause>,
    /// What was read, in proofs alone.
    log: ReadLog,
}

impl<R: Clock + Copy + Drop> UdpInlet<R> {
    /// An inlet from which nothing was read yet. Datagrams may wait.
    fn new(
        rt: &R,
        alloc: Global,
        poll: Poll,
        udp: &Arc<UdpSocket, Global>,
        at: Address,
    ) -> Result<Self, AllocError>
        ensures waits { IfOk result (λ inlet. inlet.has_datagrams ≡ true) }
        ensures trouble { IfOk result (λ inlet. inlet.trouble ≡ None) }
        ensures log { IfOk result (λ inlet. read_list inlet.log ≡ []) }
    {
        let events = Events::with_capacity(alloc, EVENTS)?;
        let udp = Arc::try_clone(udp)?;
        Ok(Self {
            rt: *rt,
            poll,
            events,
            udp,
            at,
            has_datagrams: true,
            rest: Rest::new(),
            trouble: None,
            log: ReadLog::new(),
        })
    }
}

impl<R: Clock + Drop> UdpInlet<R> {
    /// What failed last.
    pub(crate) fn trouble(&self) -> Option<Cause>
        ensures { result ≡ self.now.trouble }
    {
        self.trouble
    }

    /// What was read.
    pub(crate) fn into_log(self) -> ReadLog
        ensures { result ≡ self.log }
    {
        self.log
    }

    /// Notes that a socket failed, and why. Returns its fault.
    fn fails(&mut self, part: ServerPart, error: io::Error) -> FrontFault
        ensures fault { IsOfIo result }
        ensures log { self.new.log ≡ self.old.log }
    {
        let why = WhyFailed::of(&error);
        self.trouble = Some(Cause::Failed { part, why });
        FrontFault::of_io(&error)
    }

    /// Reads the next datagram, if one waits.
    fn read_once(&mut self, chunk: &mut Vec<u8>) -> Result<Read, FrontFault>
        ensures few { IfOk result (λ read. octets_read read ≤ length chunk.new.items) }
        ensures log { self.new.log ≡ self.old.log }
        ensures fault { IfErr result IsOfIo }
    {
        let mut socket = SystemSocket(&self.udp);
        match read_datagram(&mut socket, &mut self.has_datagrams, chunk) {
            Ok(read) => {
                if matches!(read, Read::Datagram { .. }) {
                    self.rest.note_read();
                }
                Ok(read)
            }
            Err(error) => {
                let at = ServerPart::Udp(self.at);
                Err(self.fails(at, error))
            }
        }
    }
}

impl<R: Clock + Drop> Inlet for UdpInlet<R> {
    ghost use Rattle.event_loop.specs.Logs.{read_list};

    ghost came = { λ inlet. read_list inlet.log };

    fn read(&mut self, chunk: &mut Vec<u8>) -> Result<Read, FrontFault> {
        let read = self.read_once(chunk)?;
        self.log.note(&read, chunk);
        Ok(read)
    }

    /// It doesn't wait if datagrams may be there already. Where they came close to one another, it rests first.
    fn wait(&mut self, longest: u64) -> Result<bool, FrontFault> {
        let longest = if self.has_datagrams { 0 } else { longest };
        let rest = self.rest.begin_wait(longest);
        if rest > 0 {
            thread::sleep(&self.rt, Duration::from_nanos(rest));
        }
        let longest = Some(Duration::from_nanos(longest - rest));
        if let Err(error) = self.poll.poll(&mut self.events, longest) {
            return Err(self.fails(ServerPart::Poll, error));
        }
        let mut may_wait = false;
        for event in &self.events {
            match event.token() {
                UDP => self.has_datagrams = true,
                TCP => may_wait = true,
                _ => {}
            }
        }
        Ok(may_wait)
    }
}

/// The socket for datagrams as the wire of the front.
#[derive(Drop)]
pub(crate) struct FrontSocket {
    socket: Arc<UdpSocket, Global>,
    /// Where a datagram's parts are joined before it is sent.
    whole: Vec<u8>,
    /// What was tried, in proofs alone.
    log: TryLog,
}

impl FrontSocket {
    /// A wire on which nothing was tried yet.
    fn new(alloc: Global, udp: &Arc<UdpSocket, Global>) -> Result<Self, AllocError>
        ensures log { IfOk result (λ wire. tried_list wire.log ≡ []) }
        ensures whole { IfOk result (λ wire. most_octets ≤ vec_capacity wire.whole) }
    {
        Ok(Self {
            socket: Arc::try_clone(udp)?,
            whole: Vec::with_capacity(alloc, CHUNK)?,
            log: TryLog::new(),
        })
    }

    /// What was tried.
    pub(crate) fn into_log(self) -> TryLog
        ensures { result ≡ self.log }
    {
        self.log
    }

    /// Tries to send these octets. `false`: the system refused them, which counts as loss on the wire.
    fn send_whole(&self, to: Address, octets: &[u8]) -> bool {
        let mut socket = SystemSocket(&self.socket);
        send_octets(&mut socket, to, octets).is_ok()
    }

    /// Tries to send a datagram in two parts. Out of memory counts as loss on the wire, too.
    fn send_joined(&mut self, to: Address, first: &[u8], rest: &[u8]) -> bool
        ensures { self.new.log ≡ self.old.log }
    {
        let mut socket = SystemSocket(&self.socket);
        let answer = send_parts(&mut socket, &mut self.whole, to, first, rest);
        matches!(answer, Ok(Ok(_)))
    }
}

impl Wire for FrontSocket {
    ghost use Rattle.std.specs.Prelude.{Some};
    ghost use Rattle.event_loop.specs.Logs.{tried_list};

    ghost attempts = { λ wire. Some (tried_list wire.log) };

    fn send(&mut self, to: Address, octets: &[u8]) -> bool {
        let sent = self.send_whole(to, octets);
        self.log.note(to, &[], octets, sent);
        sent
    }

    fn send_parts(&mut self, to: Address, first: &[u8], rest: &[u8]) -> bool {
        let sent = self.send_joined(to, first, rest);
        self.log.note(to, first, rest, sent);
        sent
    }
}

/// The socket for datagrams of a front, from which nothing was read yet.
#[derive(Drop)]
pub(crate) struct Sockets<R: Clock + Drop> {
    pub(crate) inlet: UdpInlet<R>,
    pub(crate) wire: FrontSocket,
    /// For the lanes.
    pub(crate) udp: Arc<UdpSocket, Global>,
}

impl<R: Clock + Copy + Drop> Sockets<R> {
    /// From these nothing was read yet. The only error is out of memory.
    pub(crate) fn new(
        rt: &R,
        alloc: Global,
        poll: Poll,
        udp: UdpSocket,
        at: Address,
    ) -> Result<Self, AllocError>
        ensures read { IfOk result (λ sockets. read_list sockets.inlet.log ≡ []) }
        ensures tried { IfOk result (λ sockets. tried_list sockets.wire.log ≡ []) }
    {
        let udp = Arc::new(alloc, udp)?;
        let wire = FrontSocket::new(alloc, &udp)?;
        let inlet = UdpInlet::new(rt, alloc, poll, &udp, at)?;
        Ok(Self { inlet, wire, udp })
    }
}
