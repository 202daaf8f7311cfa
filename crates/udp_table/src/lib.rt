//! How many datagrams the system dropped at a socket, as Linux tells it in its table of UDP sockets (`/proc/net/udp`,
//! proc_net(5)).
//!
//! Begin with [`TableReader`]. It is fed the octets of that file in pieces of any length, keeps a line of them, and
//! then tells the drops of the socket that has an inode.
//!
//! A contract says which text a reader has read.
//!
//! ```rust
//! let mut reader = TableReader::new(20_767); // the socket's inode, as fstat(2) tells it
//! reader.feed(b"  sl  local_address rem_address\n 7: 0100007F:138C 00000000:0000 07 0:0 0:0 0 0 0 ");
//! reader.feed(b"20767 2 00000000987b2876 12\n");
//! let drops = reader.drops(); // Ok(12)
//! ```
#![tactic(auto)]

mod fault;
mod line;
mod reader;
mod word;

pub use self::fault::TableFault;
pub use self::reader::TableReader;
