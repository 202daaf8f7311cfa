//! What a line of the table tells of a socket.

ghost use Rattle.std.specs.Prelude.{◌≡◌};
ghost use Rattle.udp_table.specs.Table.{is_inode, drops_or_fault, drops_in, line_tells};

use crate::fault::TableFault;
use crate::word::{word_at, word_number};

/// How many octets of a line are kept. A line of the system's has 127, or some more where its numbers are long.
pub(crate) const KEPT: usize = 256;

/// How many words stand before the socket's inode.
const BEFORE_INODE: u32 = 9;
/// How many stand before the number of drops, which is the last.
const BEFORE_DROPS: u32 = 12;

/// Whether a number is this inode.
fn is_inode(inode: u64, number: Option<u64>) -> bool
    ensures { result ≡ is_inode inode number }
{
    match number {
        None => false,
        Some(number) => number == inode,
    }
}

/// The drops, if they are a number.
fn drops_or_fault(drops: Option<u64>) -> Result<u64, TableFault>
    ensures { result ≡ drops_or_fault drops }
{
    match drops {
        None => Err(TableFault::OtherForm),
        Some(drops) => Ok(drops),
    }
}

/// The drops that a socket's line tells.
fn drops_in(line: &[u8]) -> Result<u64, TableFault>
    ensures { result ≡ drops_in line.now }
{
    if line.len() < KEPT && word_at(line, BEFORE_DROPS + 1).is_empty() {
        drops_or_fault(word_number(word_at(line, BEFORE_DROPS)))
    } else {
        Err(TableFault::OtherForm)
    }
}

/// What a line tells of the socket that has this inode: nothing, if it is another's.
pub(crate) fn line_tells(inode: u64, line: &[u8]) -> Option<Result<u64, TableFault>>
    ensures { result ≡ line_tells inode line.now }
{
    if is_inode(inode, word_number(word_at(line, BEFORE_INODE))) {
        Some(drops_in(line))
    } else {
        None
    }
}
