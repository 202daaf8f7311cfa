//! What the front has in place of sockets and a clock.

ghost use Rattle.std.specs.Prelude.{◌≡◌, ◌≤◌, length};
ghost use Rattle.event_loop.specs.Came.{octets_read};

use crate::datagram::Datagram;
use crate::left::{NOTHING, with_datagram, with_moment};
use event_loop::{Inlet, Read, ReadLog, TryLog, Watch, WatchLog};
use rtp_codec::Address;
use std::alloc::Global;
use std::collections::VecDeque;
use std::mem;
use udp_wire::{FrontFault, Wire};

/// What waits, and the datagrams that were read since the script looked last.
#[derive(Drop)]
pub struct Queue {
    /// Datagrams, and something else for each `None`.
    pub waiting: VecDeque<Option<Datagram>>,
    read: Vec<Datagram>,
    /// All that was read.
    pub all: u64,
}

impl Queue {
    /// What was read since the last call.
    pub fn take_read(&mut self, alloc: Global) -> Vec<Datagram> {
        mem::replace(&mut self.read, Vec::new(alloc))
    }

    /// Reads the next one into a chunk.
    fn next(&mut self, chunk: &mut Vec<u8>) -> Read
        ensures few { octets_read result ≤ length chunk.new.items }
    {
        let datagram = match self.waiting.pop_front() {
            None => return Read::Nothing,
            Some(None) => return Read::Other,
            Some(Some(datagram)) => datagram,
        };
        let from = datagram.address;
        chunk.clear();
        let _ = chunk.extend_from_slice(&datagram.octets);
        self.all = with_datagram(self.all, &datagram);
        let _ = self.read.push(datagram);
        Read::Datagram {
            from,
            octets: chunk.len(),
        }
    }
}

/// Where datagrams come from.
#[derive(Drop)]
pub struct ScriptInlet {
    pub queue: Queue,
    log: ReadLog,
}

impl ScriptInlet {
    /// Nothing waits.
    pub fn new(alloc: Global) -> Self {
        Self {
            queue: Queue {
                waiting: VecDeque::new(alloc),
                read: Vec::new(alloc),
                all: NOTHING,
            },
            log: ReadLog::new(),
        }
    }
}

impl Inlet for ScriptInlet {
    ghost use Rattle.event_loop.specs.Logs.{read_list};

    ghost came = { λ inlet. read_list inlet.log };

    fn read(&mut self, chunk: &mut Vec<u8>) -> Result<Read, FrontFault> {
        let read = self.queue.next(chunk);
        self.log.note(&read, chunk);
        Ok(read)
    }

    fn wait(&mut self, _longest: u64) -> Result<bool, FrontFault> {
        Ok(false)
    }
}

/// A wire of the front, which refuses every other datagram.
#[derive(Drop)]
pub struct ScriptWire {
    alloc: Global,
    /// What was tried since the script looked last.
    tried: Vec<Datagram>,
    /// All that was tried.
    pub all: u64,
    log: TryLog,
}

impl ScriptWire {
    /// Nothing was tried.
    pub fn new(alloc: Global) -> Self {
        Self {
            alloc,
            tried: Vec::new(alloc),
            all: NOTHING,
            log: TryLog::new(),
        }
    }

    /// What was tried since the last call.
    pub fn take_tried(&mut self) -> Vec<Datagram> {
        let none = Vec::new(self.alloc);
        mem::replace(&mut self.tried, none)
    }
}

impl ScriptWire {
    /// Notes that a datagram of two parts was tried. Returns whether it is sent.
    fn note_tried(&mut self, to: Address, first: &[u8], rest: &[u8]) -> bool
        ensures { self.new.log ≡ self.old.log }
    {
        if let Ok(mut octets) = Vec::from_slice(self.alloc, first) {
            let _ = octets.extend_from_slice(rest);
            let datagram = Datagram::new(to, octets);
            self.all = with_datagram(self.all, &datagram);
            let _ = self.tried.push(datagram);
        }
        self.tried.len() % 2 == 0
    }
}

impl Wire for ScriptWire {
    ghost use Rattle.std.specs.Prelude.{Some};
    ghost use Rattle.event_loop.specs.Logs.{tried_list};

    ghost attempts = { λ wire. Some (tried_list wire.log) };

    fn send(&mut self, to: Address, octets: &[u8]) -> bool {
        let sent = self.note_tried(to, &[], octets);
        self.log.note(to, &[], octets, sent);
        sent
    }

    fn send_parts(&mut self, to: Address, first: &[u8], rest: &[u8]) -> bool {
        let sent = self.note_tried(to, first, rest);
        self.log.note(to, first, rest, sent);
        sent
    }
}

/// A watch that the script sets. Where the script goes back, it tells the latest moment again.
#[derive(Drop)]
pub struct ScriptWatch {
    /// The present moment, in nanoseconds since 1970.
    now: u64,
    /// How many nanoseconds a look at it takes.
    look: i64,
    /// The moments that it told since the script looked last.
    told: Vec<u64>,
    /// All that it told.
    pub all: u64,
    log: WatchLog,
}

impl ScriptWatch {
    /// It has told nothing yet.
    pub fn new(alloc: Global, start: u64) -> Self {
        Self {
            now: start,
            look: 0,
            told: Vec::new(alloc),
            all: NOTHING,
            log: WatchLog::new(),
        }
    }

    /// So many nanoseconds pass, and from now on a look takes so many.
    pub fn pass(&mut self, step: u64, look: i64) {
        self.now = self.now.saturating_add(step);
        self.look = look;
    }

    /// The moments that it told since the last call.
    pub fn take_told(&mut self, alloc: Global) -> Vec<u64> {
        mem::replace(&mut self.told, Vec::new(alloc))
    }
}

impl Watch for ScriptWatch {
    ghost told = { λ watch. watch.log };

    fn now(&mut self) -> Result<u64, FrontFault> {
        self.now = self.now.checked_add_signed(self.look).unwrap_or(self.now);
        let now = self.log.tell(self.now);
        self.all = with_moment(self.all, now);
        let _ = self.told.push(now);
        Ok(now)
    }
}
