//! Where datagrams come from.

ghost use Rattle.std.specs.Prelude.{◌≡◌, ◌++◌, ◌∷◌, [], ◌≤◌, List, length, IfOk, IfErr, OnErr};
ghost use Rattle.event_loop.specs.Came.{Came, came_by, octets_read};
ghost use Rattle.event_loop.specs.inner.Reading.{is_something};
ghost use Rattle.udp_wire.specs.Ended.{IsOfIo};

use rtp_codec::Address;
use udp_wire::FrontFault;

/// The result of a read.
#[derive(Clone, Copy)]
pub enum Read {
    /// A datagram of this many octets, from this address.
    Datagram { from: Address, octets: usize },
    /// Something other than an IPv4 datagram. More may wait.
    Other,
    /// Nothing waits.
    Nothing,
}

impl Read {
    /// Whether something was read.
    pub(crate) fn is_something(&self) -> bool
        ensures { result ≡ is_something self.now }
    {
        match self {
            Read::Datagram { .. } => true,
            Read::Other => true,
            Read::Nothing => false,
        }
    }
}

/// Where datagrams come from. Contracts see what each read gave, oldest first.
pub trait Inlet {
    /// What the reads gave so far.
    ghost came: { Self → List Came };

    /// Reads the next datagram into a chunk, if one waits. The chunk's first octets are the datagram's.
    fn read(&mut self, chunk: &mut Vec<u8>) -> Result<Read, FrontFault>
        ensures ok { IfOk result (λ read. came self.new ≡ came self.old ++ came_by read chunk.new.items ∷ []) }
        ensures few { IfOk result (λ read. octets_read read ≤ length chunk.new.items) }
        ensures err { OnErr result (came self.new ≡ came self.old) }
        ensures fault { IfErr result IsOfIo };

    /// Waits until something has come, at most `longest` nanoseconds. Returns whether connections may wait, too.
    fn wait(&mut self, longest: u64) -> Result<bool, FrontFault>
        ensures same { came self.new ≡ came self.old }
        ensures fault { IfErr result IsOfIo };
}
