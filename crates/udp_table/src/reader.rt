//! Reads the table in pieces.

ghost use Rattle.std.specs.Prelude.{◌≡◌, ◌++◌, ℕ, List, []};
ghost use Rattle.udp_table.specs.Table.{socket_drops};
ghost use Rattle.udp_table.specs.Kept.{Kept, HasBeenFed};
ghost use Rattle.udp_table.specs.inner.Steps.{kept_with, told_or};

use crate::fault::TableFault;
use crate::line::{KEPT, line_tells};
use arrayvec::ArrayVec;
use std::marker::Model;

/// Reads the table in pieces, however it is cut, for the drops of one socket.
/// Contracts see what is kept between two pieces.
#[derive(Drop)]
pub struct TableReader {
    inode: u64,
    /// What the socket's line told, if it has ended.
    told: Option<Result<u64, TableFault>>,
    /// What came behind the last LF, up to 256 octets.
    line: ArrayVec<u8, KEPT>,
}

impl Model for TableReader {
    ghost Value = { Kept };

    ghost view = { λ r. record { inode = r.inode; told = r.told; rest = r.line.items } };
}

impl TableReader {
    /// Nothing of the table has come. The socket is the one that has this inode.
    pub fn new(inode: u64) -> Self
        ensures inode { result.inode ≡ inode }
        ensures empty { HasBeenFed result [] }
    {
        Self {
            inode,
            told: None,
            line: ArrayVec::new(),
        }
    }

    /// What the socket's line told, or else what the present one tells.
    fn told(&self) -> Option<Result<u64, TableFault>>
        ensures { result ≡ told_or self.now }
    {
        match self.told {
            Some(told) => Some(told),
            None => line_tells(self.inode, self.line.as_slice()),
        }
    }

    /// Takes the next octet.
    fn take(&mut self, octet: u8)
        ensures { self.new ≡ kept_with self.old octet }
    {
        if octet == b'\n' {
            self.told = self.told();
            self.line.clear();
        } else if self.line.len() < KEPT {
            self.line.push(octet);
        }
    }

    /// Takes the next piece of the table.
    pub fn feed(&mut self, octets: &[u8])
        ensures inode { self.new.inode ≡ self.old.inode }
        ensures fed { (before : List ℕ) → HasBeenFed self.old before → HasBeenFed self.new (before ++ octets.now) }
    {
        for octet in octets {
            self.take(*octet);
        }
    }

    /// How many datagrams the system dropped at the socket since it was opened, by the first line that is the socket's
    /// and has ended. The system counts modulo 2^32.
    pub fn drops(&self) -> Result<u64, TableFault>
        ensures { (text : List ℕ) → HasBeenFed self.now text → result ≡ socket_drops self.now.inode text }
    {
        match self.told {
            None => Err(TableFault::NoLine),
            Some(told) => told,
        }
    }
}
