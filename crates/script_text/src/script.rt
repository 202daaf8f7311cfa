//! A script between two octets.

ghost use Rattle.std.specs.Prelude.{◌≡◌, ◌≢◌, ◌⊎◌, ◌+◌, ◌^◌, ◌<◌, ◌≤◌, [], ◌∷◌, length, IfOk};
ghost use Rattle.std.specs.Str.Lines.{strip_carriage_return};

use crate::answer::answer;
use crate::beginning::begun;
use crate::fault::RunFault;
use crate::line::is_past;
use crate::sink::TextSink;
use bridge_core::{Core, Settings};
use bytes::Bytes;
use desk_text::Fault;
use std::alloc::{AllocError, Allocator, Global};
use std::marker::Model;

/// The SSRC under which the bridge of a script speaks, where its first line doesn't say it.
pub(crate) const BRIDGE_SSRC: u32 = 1;

/// The canonical name of the bridge of a script, where its first line doesn't say it.
pub(crate) const CNAME: &[u8] = b"bridge";

/// The bridge, the number of the line that is being read, and the part of it that has come.
#[derive(Drop)]
pub(crate) struct Script<A: Allocator + Copy = Global> {
    core: Core<A>,
    line: u64,
    pending: Vec<u8, A>,
}

impl<A: Allocator + Copy> Model for Script<A> {
    ghost use Rattle.std.specs.Prelude.{◌≡◌, ◌==◌, false};
    ghost use Rattle.std.specs.List.{All};
    ghost use Rattle.script_text.specs.inner.Steps.{HasLane, Held};

    ghost Value = { Held };

    ghost view = { λ s. record { core = s.core; line = s.line; pending = s.pending.items } };

    ghost invariant = { λ s. HasLane s.core × All (λ b. (b == 10) ≡ false) s.pending.items };
}

/// A line without the CR at its end.
// So scripts of systems whose lines end in CR LF work. Any other CR is a bad octet of its line, also in a comment.
fn without_cr(line: &[u8]) -> &[u8]
    ensures { result.now ≡ strip_carriage_return line.now }
{
    match line {
        [front @ .., b'\r'] => front,
        _ => line,
    }
}

impl<A: Allocator + Copy> Script<A> {
    ghost use Rattle.script_text.specs.inner.Steps.{IsOpening, IsMidLine, Keeps, Steps, Finishes};

    /// A script from which nothing has come.
    pub(crate) fn new(alloc: A) -> Result<Script<A>, AllocError>
        ensures opening { IfOk result (λ s. IsOpening s) }
        ensures midline { IfOk result (λ s. IsMidLine s) }
    {
        let settings = Settings {
            bridge_ssrc: BRIDGE_SSRC,
            cname: Bytes::copy_from_slice(alloc, CNAME)?,
        };
        let core = begun(alloc, settings)?;
        Ok(Script {
            core,
            line: 1,
            pending: Vec::new(alloc),
        })
    }

    /// Takes an octet that isn't an LF: it extends the line.
    fn extend_line(&mut self, octet: u8) -> Result<(), RunFault>
        requires { octet ≢ 10 }
        ensures step { Keeps self.old (octet ∷ []) self.new result }
        ensures line { self.new.line ≡ self.old.line }
        ensures midline { IsMidLine self.new }
        ensures read { result ≢ Err RunFault.Read }
        ensures write { result ≢ Err RunFault.Write }
    {
        // A CR at the line's end doesn't count, and this octet may be one.
        if is_past(&self.pending) {
            return Err(RunFault::Script {
                line: self.line,
                word: 0,
                fault: Fault::LineTooLong,
            });
        }
        if self.pending.push(octet).is_err() {
            return Err(RunFault::OutOfMemory);
        }
        Ok(())
    }

    /// Takes an LF: answers the line before it.
    // The output of a line is written at its end. So out of memory leaves the output of the whole lines before, and
    // lacks what an accepted call of this line would have said.
    fn end_line<T: TextSink>(&mut self, alloc: A, writer: &mut T) -> Result<(), RunFault>
        requires { self.old.line + 1 < 2 ^ 64 }
        ensures step { Steps self.old (10 ∷ []) self.new (T.held writer.old) (T.held writer.new) result }
        ensures line { self.new.line ≤ self.old.line + 1 }
        ensures midline { IsMidLine self.new }
        ensures read { result ≢ Err RunFault.Read }
        ensures write { result ≡ Err RunFault.Write →
            T.may_fail ⊎ (T.may_starve × T.may_split) ⊎ ((first : T) × T.goes_on (2 ^ 32) first writer.new) }
    {
        let number = self.line;
        let line = without_cr(&self.pending);
        match answer(alloc, &mut self.core, number, line, writer) {
            Err(fault) => Err(fault),
            Ok(()) => {
                self.line += 1;
                self.pending.clear();
                Ok(())
            }
        }
    }

    /// Takes the next octet.
    fn octet<T: TextSink>(&mut self, alloc: A, octet: u8, writer: &mut T) -> Result<(), RunFault>
        requires { self.old.line + 1 < 2 ^ 64 }
        ensures step { Steps self.old (octet ∷ []) self.new (T.held writer.old) (T.held writer.new) result }
        ensures line { self.new.line ≤ self.old.line + 1 }
        ensures midline { IsMidLine self.new }
        ensures read { result ≢ Err RunFault.Read }
        ensures write { result ≡ Err RunFault.Write →
            T.may_fail ⊎ (T.may_starve × T.may_split) ⊎ ((first : T) × T.goes_on (2 ^ 32) first writer.new) }
    {
        if octet == b'\n' {
            self.end_line(alloc, writer)
        } else {
            self.extend_line(octet)
        }
    }

    /// Takes the next octets.
    pub(crate) fn feed<T: TextSink>(
        &mut self,
        alloc: A,
        octets: &[u8],
        writer: &mut T,
    ) -> Result<(), RunFault>
        requires line { self.old.line + length octets.now < 2 ^ 64 }
        requires midline { IsMidLine self.old }
        ensures step { Steps self.old octets.now self.new (T.held writer.old) (T.held writer.new) result }
        ensures line { self.new.line ≤ self.old.line + length octets.now }
        ensures midline { IsMidLine self.new }
        ensures read { result ≢ Err RunFault.Read }
        ensures write { result ≡ Err RunFault.Write →
            T.may_fail ⊎ (T.may_starve × T.may_split) ⊎ ((first : T) × T.goes_on (2 ^ 32) first writer.new) }
    {
        for octet in octets {
            if let Err(fault) = self.octet(alloc, *octet, writer) {
                return Err(fault);
            }
        }
        Ok(())
    }

    /// Takes the end of the input: it ends the last line.
    pub(crate) fn finish<T: TextSink>(&mut self, alloc: A, writer: &mut T) -> Result<(), RunFault>
        ensures end { Finishes self.old (T.held writer.old) (T.held writer.new) result }
        ensures read { result ≢ Err RunFault.Read }
        ensures write { result ≡ Err RunFault.Write →
            T.may_fail ⊎ (T.may_starve × T.may_split) ⊎ ((first : T) × T.goes_on (2 ^ 32) first writer.new) }
    {
        let number = self.line;
        answer(alloc, &mut self.core, number, &self.pending, writer)
    }
}
