//! What an operator is to be told.

use crate::plain_desk::PlainDesk;
use operator_lines::{Lines, Next, Opening, answer, busy, greet};
use std::alloc::{AllocError, Global};
use std::collections::VecDeque;

/// A connection of the model: its lines, and what its operator is to be told.
#[derive(Drop)]
pub struct Speech {
    alloc: Global,
    lines: Lines,
    /// The lines that were read and not answered.
    waiting: VecDeque<Vec<u8>>,
    /// How many octets were read.
    heard: usize,
    pub wanted: Vec<u8>,
    /// No further line is answered.
    is_over: bool,
    /// The operator stops the bridge.
    pub stops: bool,
}

impl Speech {
    /// A connection on which nothing was said.
    pub fn new(alloc: Global) -> Self {
        Self {
            alloc,
            lines: Lines::new(alloc),
            waiting: VecDeque::new(alloc),
            heard: 0,
            wanted: Vec::new(alloc),
            is_over: false,
            stops: false,
        }
    }

    /// Takes all that was read so far.
    pub fn hear(&mut self, heard: &[u8]) -> Result<(), AllocError> {
        let news = heard.get(self.heard..).unwrap_or(&[]);
        self.heard = heard.len();
        for line in self.lines.feed(self.alloc, news)?.lines {
            self.waiting.push_back(line)?;
        }
        Ok(())
    }

    /// The next line, if one is to be answered.
    fn next(&mut self) -> Option<Vec<u8>> {
        if self.is_over {
            return None;
        }
        self.waiting.pop_front()
    }

    /// The bridge is stopped.
    pub fn close(&mut self) {
        self.is_over = true;
    }

    /// Deals with the first line. A good one stays. Returns whether it is one.
    pub fn greet(&mut self) -> Result<bool, AllocError> {
        let Some(line) = self.next() else {
            return Ok(false);
        };
        match greet(self.alloc, &line, &mut self.wanted)? {
            Opening::Good => {
                self.waiting.push_front(line)?;
                Ok(true)
            }
            Opening::Faulty => {
                self.is_over = true;
                Ok(false)
            }
        }
    }

    /// No seat is free for the first good line.
    pub fn refuse(&mut self) -> Result<(), AllocError> {
        self.is_over = true;
        self.wanted.extend_from_slice(busy())
    }

    /// Answers all lines at the desk.
    pub fn answer(&mut self, desk: &mut PlainDesk) -> Result<(), AllocError> {
        for _ in 0..self.waiting.len() {
            let Some(line) = self.next() else {
                break;
            };
            let next = answer(self.alloc, desk, 0, &line, &mut self.wanted)?;
            self.is_over = next != Next::Stay;
            self.stops = next == Next::Stop;
        }
        Ok(())
    }
}
