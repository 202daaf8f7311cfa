//! What the system dropped at a socket, by its table of UDP sockets.

use arrayvec::ArrayVec;
use itoa::Buffer;
use std::os::fd::RawFd;
use udp_table::TableReader;

/// Where Linux tells of its UDP sockets of IPv4.
const TABLE: &[u8] = b"/proc/net/udp";
/// How many octets of it are read at once.
const PIECE: usize = 4_096;
/// How many pieces of it are read at most. A million sockets have less.
const MOST_PIECES: u32 = 65_536;

/// Where Linux tells what the descriptors of this process are (proc_pid_fd(5)).
const DESCRIPTORS: &[u8] = b"/proc/self/fd/";
/// How many octets there are for the path to one of them, which has up to 24.
const PATH: usize = 32;
/// How many octets there are for what a descriptor of a socket is, which has up to 29.
const LINK: usize = 64;

/// The inode in what the system says that a descriptor of a socket is, `socket:[INODE]`.
fn inode_in(link: &[u8]) -> Option<u64> {
    let inode = link.strip_prefix(b"socket:[")?.strip_suffix(b"]")?;
    u64::from_str_radix(std::str::from_utf8(inode).ok()?, 10).ok()
}

/// The inode of a socket, by which the table names it.
pub(crate) fn inode_of(fd: RawFd) -> Option<u64> {
    let mut path: ArrayVec<u8, PATH> = ArrayVec::new();
    let mut digits = Buffer::new();
    path.try_extend_from_slice(DESCRIPTORS).ok()?;
    path.try_extend_from_slice(digits.format(fd).as_bytes())
        .ok()?;
    let mut link = [0u8; LINK];
    let len = usize::try_from(os::readlink(&path, &mut link)).ok()?;
    inode_in(link.get(..len)?)
}

/// Feeds a file to its reader until the socket's drops are told, or the file ends.
fn feed_until_told(fd: RawFd, reader: &mut TableReader) -> Option<u64> {
    let mut piece = [0u8; PIECE];
    for _ in 0..MOST_PIECES {
        let len = usize::try_from(libc::read(fd, &mut piece)).unwrap_or(0);
        if len == 0 {
            return None;
        }
        reader.feed(piece.get(..len).unwrap_or(&[]));
        if let Ok(drops) = reader.drops() {
            return Some(drops);
        }
    }
    None
}

/// How many datagrams the system dropped at the socket that has this inode. `None` where it doesn't tell.
pub(crate) fn drops_at(inode: u64) -> Option<u64> {
    let fd = os::open_read(TABLE);
    if fd < 0 {
        return None;
    }
    let drops = feed_until_told(fd, &mut TableReader::new(inode));
    let _ = libc::close(fd);
    drops
}
