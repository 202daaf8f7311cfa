//! Where the octets of a script come from.

ghost use Rattle.std.specs.Prelude.{◌≡◌, ◌≢◌, ℕ, ◌+◌, ◌<◌, ◌≤◌, List, length, Option, Some};
ghost use Rattle.script_text.specs.inner.Pieces.{IsPiece, piece_of};
ghost use Rattle.script_text.specs.declared.source.Piece.TheVariants as pieces;

use std::io;
use std::io::{ErrorKind, Read};

/// What a call of a source gave.
#[derive(Clone, Copy)]
pub enum Piece {
    /// This many octets stand at the chunk's front.
    Octets(usize),
    /// There is nothing more to come.
    End,
    /// It gave nothing, and may be called again.
    Interrupted,
    /// It ran out of memory and gave nothing.
    OutOfMemory,
    /// It failed.
    Failed,
}

/// Where octets come from. A contract over any source learns that a call may fail or run out of memory only from a call
/// that did.
pub trait ScriptSource {
    /// The octets that calls will give from here on, where they are known.
    ghost rest: { Self → Option (List ℕ) };

    /// A call may fail.
    ghost may_fail: { Type 0 };

    /// A call may run out of memory.
    ghost may_starve: { Type 0 };

    /// This many calls led from one state to the other, and none of them reported the end.
    ghost goes_on: { ℕ → Self → Self → Type 0 };

    /// Reads some octets into the chunk's front.
    fn read_some(&mut self, chunk: &mut [u8]) -> Piece
        requires { 0 < length chunk.old }
        ensures piece { IsPiece (rest self.old) (rest self.new) chunk.new result }
        ensures failed { result ≡ pieces.Failed → may_fail }
        ensures starved { result ≡ pieces.OutOfMemory → may_starve }
        ensures counted { (n : ℕ) (first : Self) → goes_on n first self.old → result ≢ pieces.End
            → goes_on (n + 1) first self.new };

    /// No calls lead from a state to itself.
    ghost at_first: { (s : Self) → goes_on 0 s s };
}

/// What the answer of a reader says.
fn piece_of(answer: io::Result<usize>) -> Piece
    ensures { result ≡ piece_of answer }
{
    match answer {
        Ok(0) => Piece::End,
        Ok(n) => Piece::Octets(n),
        Err(e) => match e.kind() {
            ErrorKind::Interrupted => Piece::Interrupted,
            ErrorKind::OutOfMemory => Piece::OutOfMemory,
            _ => Piece::Failed,
        },
    }
}

/// Octets in memory: nothing goes wrong with them, and each call takes one at least.
impl ScriptSource for &[u8] {
    ghost use Rattle.std.proofs.Common.{rules};

    ghost rest = { λ s. Some s.now };

    ghost may_fail = { ⊥ };

    ghost may_starve = { ⊥ };

    ghost goes_on = { λ n first s. n + length s.now ≤ length first.now };

    ghost at_first = { Prim.search rules };

    fn read_some(&mut self, chunk: &mut [u8]) -> Piece {
        match self.read(chunk) {
            Ok(0) => Piece::End,
            Ok(n) => Piece::Octets(n),
            Err(_) => Piece::Failed,
        }
    }
}

/// A reader from outside. Anything may go wrong with it.
#[derive(Drop)]
pub struct Reader<R: Read>(pub R);

impl<R: Read> ScriptSource for Reader<R> {
    ghost rest = { λ s. R.remaining s.0 };

    ghost may_fail = { Unit {0} };

    ghost may_starve = { Unit {0} };

    ghost goes_on = { λ n first s. Unit {0} };

    ghost at_first = { λ s. tt };

    fn read_some(&mut self, chunk: &mut [u8]) -> Piece {
        piece_of(self.0.read(chunk))
    }
}
