//! Accepted calls that are done, and those that can be redone.

ghost use Rattle.std.specs.Prelude.{◌≡◌, ◌+◌, ◌<◌, ◌≤◌, [], ◌∷◌, ◌++◌, take, reverse, IsOk, IfOk, OnOk};
ghost use Rattle.std.specs.Prelude.{if◌then◌else◌};
ghost use Rattle.desk_edit.specs.Asked.{asked_by};
ghost use Rattle.desk_edit.specs.InForce.{is_struck, struck_by};
ghost use Rattle.call_history.specs.Lists.{no_lists, with_call, deed_in, standing, in_force, last_few};

use crate::accepted_call::AcceptedCall;
use desk_edit::Call;
use std::alloc::{AllocError, Allocator, Global};
use std::marker::Model;

/// The calls that are done, and those that were undone and can be redone.
///
/// Contracts see both lists, and for how many calls there is memory at least.
#[derive(Drop)]
pub struct CallLists<'a, A: Allocator = Global> {
    done: Vec<AcceptedCall<'a>, A>,
    undone: Vec<AcceptedCall<'a>, A>,
}

impl<'a, A: Allocator> Model for CallLists<'a, A> {
    ghost use Rattle.std.specs.Prelude.{◌+◌, ◌-◌, ◌≤◌, min, vec_len, vec_capacity};
    ghost use Rattle.call_history.specs.Lists.{CallListsOf};

    ghost Value = { CallListsOf };

    ghost view = { λ l. record {
      lists = record { done = l.done.items; undone = l.undone.items };
      spare = min (vec_capacity l.done) (vec_capacity l.undone) - (vec_len l.done + vec_len l.undone);
    } };

    ghost invariant = { λ l.
        (vec_len l.done + vec_len l.undone ≤ vec_capacity l.done)
        × (vec_len l.done + vec_len l.undone ≤ vec_capacity l.undone) };
}

impl<'a, A: Allocator + Copy> CallLists<'a, A> {
    /// The lists before any call. They take no memory.
    pub fn new(alloc: A) -> Self
        ensures { result.lists ≡ no_lists }
    {
        Self {
            done: Vec::new(alloc),
            undone: Vec::new(alloc),
        }
    }

    /// Reserves memory for one more call. The only error is out of memory.
    pub fn reserve(&mut self) -> Result<(), AllocError>
        ensures ok { OnOk result (0 < self.new.spare) }
        ensures reserved { 0 < self.old.spare → IsOk result }
        ensures capacity { self.old.spare ≤ self.new.spare }
        ensures same { self.new.lists ≡ self.old.lists }
    {
        let undone = self.undone.len();
        self.done.reserve(undone + 1)?;
        let done = self.done.len();
        self.undone.reserve(done + 1)
    }

    /// Notes an accepted call, for which this stands. It takes no memory.
    pub fn note<C: Allocator + Copy>(&mut self, call: &Call<C>, made: AcceptedCall<'a>)
        requires spare { 0 < self.old.spare }
        ensures lists { self.new.lists ≡ with_call self.old.lists (asked_by call.now) made.entry }
        ensures spare { self.old.spare ≤ self.new.spare + 1 }
    {
        match call {
            Call::Apply(_) | Call::Group(_) | Call::Revert { .. } => {
                self.done.push_reserved(made);
                self.undone.clear();
            }
            Call::Undo { .. } => {
                if let Some(last) = self.done.pop() {
                    self.undone.push_reserved(last);
                }
            }
            Call::Redo { .. } => {
                if let Some(last) = self.undone.pop() {
                    self.done.push_reserved(last);
                }
            }
        }
    }

    /// The last calls that are in force, at most this many, oldest first. The only error is out of memory.
    pub fn in_force<B: Allocator + Copy>(
        &self,
        alloc: B,
        most: usize,
    ) -> Result<Vec<AcceptedCall<'a>, B>, AllocError>
        ensures { IfOk result (λ calls. calls.items ≡ last_few most (in_force self.now.lists.done)) }
    {
        let mut calls = newest_in_force(alloc, &self.done, most)?;
        calls.reverse();
        Ok(calls)
    }

    /// The calls that can be redone next, at most this many. The last one was undone last.
    pub fn undone(&self, most: usize) -> &[AcceptedCall<'a>]
        ensures { result.now ≡ last_few most self.now.lists.undone }
    {
        last_few(&self.undone, most)
    }
}

/// The newest of the calls that are in force, at most this many, the newest first.
// It goes past a call only where it lists the revert that took that call back, so at most twice as many.
fn newest_in_force<'a, B: Allocator + Copy>(
    alloc: B,
    done: &[AcceptedCall<'a>],
    most: usize,
) -> Result<Vec<AcceptedCall<'a>, B>, AllocError>
    ensures { IfOk result (λ calls. calls.items ≡ take most (standing [] (reverse done.now))) }
{
    let mut calls = Vec::new(alloc);
    let mut struck = Vec::new(alloc);
    let mut left = done.len();
    while left > 0 {
        if calls.len() >= most {
            return Ok(calls);
        }
        left -= 1;
        list_one(&mut calls, &mut struck, &done[left])?;
    }
    Ok(calls)
}

/// Lists a call behind newer ones, unless one of these that is in force took it back.
fn list_one<'a, B: Allocator + Copy>(
    calls: &mut Vec<AcceptedCall<'a>, B>,
    struck: &mut Vec<u64, B>,
    made: &AcceptedCall<'a>,
) -> Result<(), AllocError>
    ensures calls { OnOk result (calls.new.items
        ≡ if is_struck struck.old.items made.now.number then calls.old.items
        else calls.old.items ++ made.now ∷ []) }
    ensures struck { OnOk result (struck.new.items
        ≡ if is_struck struck.old.items made.now.number then struck.old.items
        else struck_by (deed_in made.now.call) struck.old.items) }
{
    if is_struck(struck, made.no()) {
        return Ok(());
    }
    calls.push(made.again())?;
    strike(struck, made.call())
}

fn is_struck(struck: &[u64], number: u64) -> bool
    ensures { result ≡ is_struck struck.now number }
{
    struck.iter().any(|taken| number == *taken)
}

/// Notes what a call that is in force takes back.
fn strike<B: Allocator + Copy>(struck: &mut Vec<u64, B>, call: &Call) -> Result<(), AllocError>
    ensures { OnOk result (struck.new.items ≡ struck_by (deed_in (asked_by call.now)) struck.old.items) }
{
    match call {
        Call::Revert { number } => {
            struck.insert(0, *number)?;
            Ok(())
        }
        Call::Apply(_) | Call::Group(_) | Call::Undo { .. } | Call::Redo { .. } => Ok(()),
    }
}

/// The last of these, at most so many.
fn last_few<T>(all: &[T], most: usize) -> &[T]
    ensures { result.now ≡ last_few most all.now }
{
    &all[all.len().saturating_sub(most)..]
}
