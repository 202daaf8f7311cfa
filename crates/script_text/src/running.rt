//! A run over a source and a sink.

ghost use Rattle.std.specs.Prelude.{◌≡◌, ◌≢◌, ◌⊎◌, ℕ, ◌^◌, ◌<◌, ◌≤◌, length, IfSome, IfOk};
ghost use Rattle.desk_text.specs.Lines.{lines_of};
ghost use Rattle.desk_text.specs.declared.fault.Fault.{Fault};
ghost use Rattle.script_text.specs.Decodings.{Decoding, DecodesLines, InEachDecoding};
ghost use Rattle.script_text.specs.Output.{output_of, RunEnds};
ghost use Rattle.script_text.specs.inner.Steps.{IsOpening, IsMidLine};

use crate::fault::RunFault;
use crate::laws::scripts_are_heard;
use crate::script::Script;
use crate::sending::MOST_CALLS;
use crate::sink::TextSink;
use crate::source::{Piece, ScriptSource};
use std::alloc::Allocator;

/// How many octets are asked for at once.
const CHUNK: usize = 4_096;

/// Reads into this chunk, piece by piece.
fn run_with<A: Allocator + Copy, S: ScriptSource, T: TextSink>(
    alloc: A,
    script: &mut Script<A>,
    chunk: &mut [u8],
    reader: &mut S,
    writer: &mut T,
) -> Result<(), RunFault>
    requires script { IsOpening script.old }
    requires midline { IsMidLine script.old }
    requires some { 0 < length chunk.old }
    requires few { length chunk.old ≤ CHUNK }
    ensures run { IfSome (S.rest reader.old) (λ input. (decoding : Decoding) → DecodesLines decoding (lines_of input)
        → RunEnds decoding input (S.rest reader.new) (T.held writer.old) (T.held writer.new) result) }
    ensures read { result ≡ Err RunFault.Read → S.may_fail ⊎ S.goes_on (2 ^ 32) reader.old reader.new }
    ensures write { result ≡ Err RunFault.Write →
        T.may_fail ⊎ (T.may_starve × T.may_split) ⊎ ((first : T) × T.goes_on (2 ^ 32) first writer.new) }
{
    for _ in 0..MOST_CALLS {
        match reader.read_some(chunk) {
            Piece::Octets(n) => {
                if let Err(fault) = script.feed(alloc, &chunk[..n], writer) {
                    return Err(fault);
                }
            }
            Piece::Interrupted => {}
            Piece::End => return script.finish(alloc, writer),
            Piece::OutOfMemory => return Err(RunFault::OutOfMemory),
            Piece::Failed => return Err(RunFault::Read),
        }
    }
    Err(RunFault::Read)
}

/// Reads a script to its end or its first fault.
fn run_script<A: Allocator + Copy, S: ScriptSource, T: TextSink>(
    alloc: A,
    reader: &mut S,
    writer: &mut T,
) -> Result<(), RunFault>
    ensures run { IfSome (S.rest reader.old) (λ input. (decoding : Decoding) → DecodesLines decoding (lines_of input)
        → RunEnds decoding input (S.rest reader.new) (T.held writer.old) (T.held writer.new) result) }
    ensures read { result ≡ Err RunFault.Read → S.may_fail ⊎ S.goes_on (2 ^ 32) reader.old reader.new }
    ensures write { result ≡ Err RunFault.Write →
        T.may_fail ⊎ (T.may_starve × T.may_split) ⊎ ((first : T) × T.goes_on (2 ^ 32) first writer.new) }
{
    let Ok(mut script) = Script::new(alloc) else {
        return Err(RunFault::OutOfMemory);
    };
    match vec![in alloc; 0u8; CHUNK] {
        Err(_) => Err(RunFault::OutOfMemory),
        Ok(mut chunk) => run_with(alloc, &mut script, &mut chunk, reader, writer),
    }
}

/// Reads a script to its end or its first fault, over a new bridge with one lane, and writes what
/// its lines give and nothing else.
///
/// Lines before a fault are answered; the faulty line and those behind it are not. If memory runs out, only the output
/// of the lines before is written.
///
/// The run ends by `Read` if a call of the reader failed, or 2^32 calls brought no end. It ends by `Write` if a call of
/// the writer failed or took nothing, if 2^32 calls didn't take a line's text, or if memory ran out behind a part of
/// it. Out of memory may be reported at any time.
// A source and a sink have facts of what may go wrong, and the clauses let a failure be reported only where one holds.
// So a run that gives up at its first read would be refused.
pub fn run<A: Allocator + Copy, S: ScriptSource, T: TextSink>(
    alloc: A,
    reader: &mut S,
    writer: &mut T,
) -> Result<(), RunFault>
    ensures run { IfSome (S.rest reader.old) (λ input. InEachDecoding (lines_of input)
        (λ decoding. RunEnds decoding input (S.rest reader.new) (T.held writer.old) (T.held writer.new) result)) }
    ensures read { result ≡ Err RunFault.Read → S.may_fail ⊎ S.goes_on (2 ^ 32) reader.old reader.new }
    ensures write { result ≡ Err RunFault.Write →
        T.may_fail ⊎ (T.may_starve × T.may_split) ⊎ ((first : T) × T.goes_on (2 ^ 32) first writer.new) }
{
    scripts_are_heard();
    run_script(alloc, reader, writer)
}

/// The output of a script that is in memory.
fn script_output<A: Allocator + Copy>(alloc: A, script: &[u8]) -> Result<Vec<u8, A>, RunFault>
    ensures ok { (decoding : Decoding) → DecodesLines decoding (lines_of script.now)
        → IfOk result
        (λ out. ((output_of decoding script.now).fault ≡ None) × (out.items ≡ (output_of decoding script.now).text)) }
    ensures fault { (decoding : Decoding) (line word : ℕ) (fault : Fault) → DecodesLines decoding (lines_of script.now)
        → result ≡ Err (RunFault.Script line word fault)
        → (output_of decoding script.now).fault ≡ Some (line, word, fault) }
    ensures read { result ≢ Err RunFault.Read }
    ensures write { result ≢ Err RunFault.Write }
{
    let mut out = Vec::new(alloc);
    let Ok(mut run) = Script::new(alloc) else {
        return Err(RunFault::OutOfMemory);
    };
    if let Err(fault) = run.feed(alloc, script, &mut out) {
        return Err(fault);
    }
    if let Err(fault) = run.finish(alloc, &mut out) {
        return Err(fault);
    }
    Ok(out)
}

/// The output of a script that is in memory, or why the run over it ended: a fault of the script, or out of memory.
pub fn output<A: Allocator + Copy>(alloc: A, script: &[u8]) -> Result<Vec<u8, A>, RunFault>
    ensures ok { InEachDecoding (lines_of script.now) (λ decoding. IfOk result (λ out.
        ((output_of decoding script.now).fault ≡ None) × (out.items ≡ (output_of decoding script.now).text))) }
    ensures fault { (line word : ℕ) (fault : Fault) → result ≡ Err (RunFault.Script line word fault)
        → InEachDecoding (lines_of script.now)
        (λ decoding. (output_of decoding script.now).fault ≡ Some (line, word, fault)) }
    ensures read { result ≢ Err RunFault.Read }
    ensures write { result ≢ Err RunFault.Write }
{
    scripts_are_heard();
    script_output(alloc, script)
}
