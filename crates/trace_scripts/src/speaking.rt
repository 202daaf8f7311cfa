//! A speaker of a trace.

ghost use Rattle.std.specs.Prelude.{◌≡◌, [], ◌++◌, max, map, IfOk, OnOk, IsTrue};
ghost use mathlib.Core.List.{IsPrefix};
ghost use Rattle.trace_text.specs.TraceLines.{marked, first_line, calls_text};
ghost use Rattle.trace_scripts.specs.Scripts.{between, deed_text, GoesOnBy, script_now, ScriptGoesOn};

use crate::deed::Deed;
use operator_desk::DeskBrand;
use operator_threads::Follower;
use std::alloc::{AllocError, Global};
use std::sync::Wait;
use trace_ring::TraceReceiver;
use trace_text::{Speaker, Told};

/// How many deeds are taken at a time at most.
const MOST: usize = 1_024;

/// A speaker of a trace: how many calls it has told, and where its deeds come from.
#[derive(Drop)]
pub struct Speaking<T: Deed> {
    told: Told,
    from: TraceReceiver<T>,
}

/// Tells the calls that lead to a version, where a speaker has not told them. An `Err`: memory ran out, or the desk has
/// no such version.
fn reach<'b, 'a, H: DeskBrand, R: Wait>(
    rt: &R,
    alloc: Global,
    follower: &mut Follower<'b, 'a, H>,
    told: &mut Told,
    version: u64,
    text: &mut Vec<u8>,
) -> Result<(), AllocError>
    ensures seen { OnOk result (IsPrefix follower.old.taken.seat.seen follower.new.taken.seat.seen) }
    ensures told { OnOk result (told.new ≡ record told.old { calls = max told.old.calls version }) }
    ensures text { OnOk result (GoesOnBy follower.new.taken.seat.seen
        (λ calls. calls_text told.old.speaker (between told.old.calls version calls)) text.old.items text.new.items) }
{
    let version = version as usize;
    if version <= told.calls {
        return Ok(());
    }
    let calls = follower.calls_after(rt, alloc, told.calls)?;
    if calls.len() < version - told.calls {
        return Err(AllocError);
    }
    told.reach(&calls, version, text)
}

/// Tells a deed, behind the calls that lead to its version.
fn tell<'b, 'a, H: DeskBrand, R: Wait, T: Deed>(
    rt: &R,
    alloc: Global,
    follower: &mut Follower<'b, 'a, H>,
    told: &mut Told,
    deed: &T,
    text: &mut Vec<u8>,
) -> Result<(), AllocError>
    ensures seen { OnOk result (IsPrefix follower.old.taken.seat.seen follower.new.taken.seat.seen) }
    ensures told { OnOk result
        (told.new ≡ record told.old { calls = max told.old.calls (T.done deed.now).version }) }
    ensures text { OnOk result (GoesOnBy follower.new.taken.seat.seen
        (deed_text told.old.speaker told.old.calls (T.done deed.now)) text.old.items text.new.items) }
{
    reach(rt, alloc, follower, told, deed.version(), text)?;
    deed.append_line(told, text)
}

/// Takes a part of a line off a text, of which so many octets are whole lines, where the rest failed.
fn settled(done: Result<(), AllocError>, whole: usize, text: &mut Vec<u8>) -> Result<(), AllocError>
    ensures same { result ≡ done }
    ensures text { OnOk done (text.new ≡ text.old) }
{
    if done.is_err() {
        text.truncate(whole);
    }
    done
}

impl<T: Deed> Speaking<T> {
    /// A speaker that has told its first line alone: who the bridge is, by its SSRC and its CNAME, which has one word.
    /// An `Err`, out of memory, may leave a part of the line.
    pub fn begin(
        speaker: Speaker,
        ssrc: u32,
        name: &[u8],
        from: TraceReceiver<T>,
        text: &mut Vec<u8>,
    ) -> Result<Self, AllocError>
        ensures told { IfOk result (λ voice. voice.told ≡ record { speaker = speaker; calls = 0 }) }
        ensures from { IfOk result (λ voice. voice.from ≡ from) }
        ensures text { OnOk result (text.new.items
            ≡ text.old.items ++ marked speaker (first_line speaker ssrc name.now)) }
    {
        let told = Told::begin(speaker, ssrc, name, text)?;
        Ok(Self { told, from })
    }

    /// Whether its thread gave the trace up. What it had handed on before may still wait.
    pub fn is_lost(&self) -> bool {
        self.from.is_lost()
    }

    /// Tells the next deed, if one has come. Returns whether one had.
    fn take_next<'b, 'a, H: DeskBrand, R: Wait>(
        &mut self,
        rt: &R,
        alloc: Global,
        follower: &mut Follower<'b, 'a, H>,
        text: &mut Vec<u8>,
    ) -> Result<bool, AllocError>
        ensures tells { OnOk result (ScriptGoesOn
            (script_now self.old.told (map T.done self.old.from) follower.old.taken.seat.seen text.old.items)
            (script_now self.new.told (map T.done self.new.from) follower.new.taken.seat.seen text.new.items)) }
    {
        let Some(next) = self.from.next() else {
            return Ok(false);
        };
        let whole = text.len();
        let done = tell(rt, alloc, follower, &mut self.told, &next, text);
        settled(done, whole, text)?;
        Ok(true)
    }

    /// Tells the deeds that have come, 1,024 at most, each behind the calls that lead to its version. Returns whether
    /// there was any. An `Err`: memory ran out, or the desk has no such version; then the text ends with a whole line.
    pub fn take<'b, 'a, H: DeskBrand, R: Wait>(
        &mut self,
        rt: &R,
        alloc: Global,
        follower: &mut Follower<'b, 'a, H>,
        text: &mut Vec<u8>,
    ) -> Result<bool, AllocError>
        ensures tells { OnOk result (ScriptGoesOn
            (script_now self.old.told (map T.done self.old.from) follower.old.taken.seat.seen text.old.items)
            (script_now self.new.told (map T.done self.new.from) follower.new.taken.seat.seen text.new.items)) }
    {
        for done in 0..MOST {
            if !self.take_next(rt, alloc, follower, text)? {
                return Ok(done > 0);
            }
        }
        Ok(true)
    }
}
