//! An operator's connection, as the system gives it.

ghost use Rattle.std.specs.Prelude.{◌≡◌, ◌++◌, ◌∷◌, [], ◌≤◌, List, take, length, IfOk, OnErr};
ghost use Rattle.operator_connection.specs.Acts.{Act, waited, looked, read, wrote, octet_count};

use crate::talking::Came;
use std::io;

/// An operator's connection, as the system gives it: its socket, and a clock of its own. Contracts see all that was
/// done on it, oldest first.
pub trait CallerLine {
    /// What was done so far, and what each of it gave.
    ghost acts: { Self → List Act };

    /// Waits until the system reports more, at most this many milliseconds. Returns whether it reported anything.
    fn wait(&mut self, longest: u64) -> io::Result<bool>
        ensures ok { IfOk result (λ any. acts self.new ≡ acts self.old ++ waited longest any ∷ []) }
        ensures err { OnErr result (acts self.new ≡ acts self.old) };

    /// The present moment, in nanoseconds of its clock.
    fn now(&mut self) -> io::Result<u64>
        ensures ok { IfOk result (λ now. acts self.new ≡ acts self.old ++ looked now ∷ []) }
        ensures err { OnErr result (acts self.new ≡ acts self.old) };

    /// Reads what has come into a chunk, whose first octets it is. It doesn't wait.
    fn read(&mut self, chunk: &mut Vec<u8>) -> Came
        ensures read { acts self.new
            ≡ acts self.old ++ read result (take (octet_count result) chunk.new.items) ∷ [] }
        ensures few { octet_count result ≤ length chunk.new.items };

    /// Writes the first of these octets, as many as the socket takes at once.
    fn write(&mut self, octets: &[u8]) -> Came
        ensures wrote { acts self.new ≡ acts self.old ++ wrote result octets.now ∷ [] }
        ensures few { octet_count result ≤ length octets.now };
}
