//! Operators' connections, as a script gives them.

ghost use Rattle.std.specs.Prelude.{◌≡◌, ◌≤◌, length};
ghost use Rattle.operator_connection.specs.Acts.{octet_count};

use operator_connection::{CallerLine, Came, LineLog};
use std::alloc::{AllocError, Global};
use std::collections::VecDeque;
use std::io;
use std::sync::atomic::{AtomicU64, Ordering};
use std::sync::{Mutex, MutexGuard, Wait};

/// How a connection goes on once all that was said is read.
const STAYS: u64 = 0;

const ENDS: u64 = 1;

const FAILS: u64 = 2;

/// What is said and told on a connection.
#[derive(Drop)]
pub struct Exchange {
    /// How many octets are read or written at once at most. By 0 none have come, and none can be written.
    most: AtomicU64,
    /// How it goes on once all that was said is read.
    after: AtomicU64,
    /// What was said and not read.
    said: Mutex<VecDeque<u8>>,
    /// What was read.
    pub heard: Vec<u8>,
    /// What was written.
    pub told: Vec<u8>,
    /// It has failed.
    pub has_failed: bool,
}

impl Exchange {
    /// Nothing was said.
    fn new(alloc: Global) -> Self {
        Self {
            most: AtomicU64::new(0),
            after: AtomicU64::new(STAYS),
            said: Mutex::new(VecDeque::new(alloc)),
            heard: Vec::new(alloc),
            told: Vec::new(alloc),
            has_failed: false,
        }
    }

    /// Lets so many octets be read or written at once.
    pub fn allow(&self, octets: u64) {
        self.most.store(octets, Ordering::SeqCst);
    }

    /// Nothing more is said than was said; or the connection fails.
    pub fn end(&self, fails: bool) {
        self.after
            .store(if fails { FAILS } else { ENDS }, Ordering::SeqCst);
    }

    /// The operator says this.
    pub fn say<R: Wait>(&self, rt: &R, text: &str) -> Result<(), AllocError> {
        let mut said = self.said.lock(rt);
        let done = push_all(&mut said, text.as_bytes());
        MutexGuard::unlock(said);
        done
    }

    /// What a read gives.
    fn read(&mut self, chunk: &mut Vec<u8>) -> Came
        ensures { octet_count result ≤ length chunk.new.items }
    {
        let most = self.most.load(Ordering::SeqCst);
        if most == 0 {
            return Came::Later;
        }
        chunk.clear();
        move_some(self.said.get_mut(), chunk, most);
        let _ = self.heard.extend_from_slice(chunk);
        if !chunk.is_empty() {
            return Came::Octets(chunk.len());
        }
        let after = self.after.load(Ordering::SeqCst);
        self.has_failed = after == FAILS;
        match after {
            STAYS => Came::Later,
            ENDS => Came::End,
            _ => Came::Failed,
        }
    }

    /// What a write gives.
    fn write(&mut self, octets: &[u8]) -> Came
        ensures { octet_count result ≤ length octets.now }
    {
        let most = self.most.load(Ordering::SeqCst);
        if most == 0 {
            return Came::Later;
        }
        let piece = octets.get(..most as usize).unwrap_or(octets);
        let _ = self.told.extend_from_slice(piece);
        Came::Octets(piece.len())
    }
}

/// Appends octets to those that wait.
fn push_all(said: &mut VecDeque<u8>, octets: &[u8]) -> Result<(), AllocError> {
    for octet in octets {
        said.push_back(*octet)?;
    }
    Ok(())
}

/// Moves so many octets at most.
fn move_some(said: &mut VecDeque<u8>, chunk: &mut Vec<u8>, most: u64) {
    for _ in 0..most {
        match said.pop_front() {
            Some(octet) => {
                let _ = chunk.push(octet);
            }
            None => return,
        }
    }
}

/// A connection.
#[derive(Drop)]
pub struct ScriptLine {
    pub exchange: Exchange,
    /// The present moment, in nanoseconds of its clock.
    now: u64,
    log: LineLog,
}

impl ScriptLine {
    /// A connection on which nothing was said.
    pub fn new(alloc: Global) -> Self {
        Self {
            exchange: Exchange::new(alloc),
            now: 0,
            log: LineLog::new(),
        }
    }
}

impl CallerLine for ScriptLine {
    ghost use Rattle.operator_connection.specs.LineLogs.{act_list};

    ghost acts = { λ line. act_list line.log };

    fn wait(&mut self, longest: u64) -> io::Result<bool> {
        self.now = self.now.saturating_add(longest.saturating_mul(1_000_000));
        let any = self.exchange.most.load(Ordering::SeqCst) > 0;
        self.log.note_wait(longest, any);
        Ok(any)
    }

    fn now(&mut self) -> io::Result<u64> {
        let now = self.now;
        self.log.note_look(now);
        Ok(now)
    }

    fn read(&mut self, chunk: &mut Vec<u8>) -> Came {
        let came = self.exchange.read(chunk);
        self.log.note_read(came, chunk);
        came
    }

    fn write(&mut self, octets: &[u8]) -> Came {
        let came = self.exchange.write(octets);
        self.log.note_write(came, octets);
        came
    }
}
