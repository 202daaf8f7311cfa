//! The system's table of UDP sockets, of a case.

use crate::text::{numbered, spoken};
use std::alloc::Global;
use udp_table::TableReader;

/// What a table tells of the socket that has this inode, once it is read in pieces of so many octets.
fn drops(alloc: Global, inode: u64, piece: usize, table: &[u8]) -> Option<String> {
    let mut reader = TableReader::new(inode);
    for octets in table.chunks(piece.max(1)) {
        reader.feed(octets);
    }
    match reader.drops() {
        Ok(drops) => format!(in alloc; "{drops}").ok(),
        Err(fault) => format!(in alloc; "{fault:?}").ok(),
    }
}

/// Whether a table tells what a line says: INODE PIECE TEXT and the drops or the fault, with ` > ` between.
pub fn of_table(alloc: Global, line: &str) -> Option<bool> {
    let (text, wanted) = line.split_once(" > ")?;
    let (inode, text) = numbered(text)?;
    let (piece, text) = numbered(text)?;
    let table = spoken(alloc, text).ok()?;
    Some(drops(alloc, u64::try_from(inode).ok()?, piece, &table)?.as_str() == wanted)
}
