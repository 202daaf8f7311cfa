//! The calls that are in force, and those that can be redone.

ghost use Rattle.std.specs.Prelude.{◌≡◌, ◌<◌, length, IfOk};
ghost use Rattle.std.specs.Bool.{OnTrue, OnFalse};
ghost use mathlib.Core.List.{IsPrefix};
ghost use Rattle.operator_desk.specs.inner.Tokens.{marks, shown, AreFirst};

use crate::desk_brand::DeskBrand;
use crate::entry::LogEntry;
use crate::log::Log;
use crate::seat::Seat;
use crate::tokens::{agree, catch_up};
use call_history::AcceptedCall;
use std::alloc::{AllocError, Global};
use std::marker::{Model, PhantomData};
use std::sync::OnceToken;

/// The last calls that were in force after a log, and the last that could be redone.
///
/// Contracts see that log, and both lists.
#[derive(Drop)]
pub struct Past<'a, H: DeskBrand> {
    log: &'a Log,
    /// A token of each entry. Tokens have no bytes.
    entries: Vec<OnceToken<'a, LogEntry>>,
    done: Vec<AcceptedCall<'a>>,
    undone: Vec<AcceptedCall<'a>>,
    desk: PhantomData<H>,
}

impl<'a, H: DeskBrand> Model for Past<'a, H> {
    ghost use Rattle.std.specs.Prelude.{◌≡◌};
    ghost use Rattle.operator_desk.specs.PastCalls.{PastOf};
    ghost use Rattle.operator_desk.specs.inner.Tokens.{shown, AreFirst};

    ghost Value = { PastOf };

    ghost view = { λ p. record {
      log = shown p.entries.items;
      done = p.done.items;
      undone = p.undone.items;
    } };

    ghost invariant = { λ p. (p.log.now ≡ H.cells) × AreFirst H.cells p.entries.items };
}

impl<'a, H: DeskBrand> Past<'a, H> {
    /// These calls after a log with these entries.
    #[tactic(auto, using(crate::proofs::TokenLemmas::first_same))]
    pub(crate) fn new(
        alloc: Global,
        log: &'a Log,
        entries: &Vec<OnceToken<'a, LogEntry>>,
        done: &[AcceptedCall<'a>],
        undone: &[AcceptedCall<'a>],
    ) -> Result<Self, AllocError>
        requires log { log.now ≡ H.cells }
        requires entries { AreFirst H.cells entries.now.items }
        ensures { IfOk result (λ past. past ≡ record {
          log = shown entries.now.items;
          done = done.now;
          undone = undone.now;
        }) }
    {
        Ok(Past {
            log,
            entries: tokens_again(alloc, entries)?,
            done: calls_again(alloc, done)?,
            undone: calls_again(alloc, undone)?,
            desk: PhantomData,
        })
    }

    /// How many entries the log has, which is its version.
    pub fn version(&self) -> u64
        ensures { result ≡ length self.now.log }
    {
        self.entries.len() as u64
    }

    /// The last calls that were in force, oldest first.
    pub fn done(&self) -> &[AcceptedCall<'a>]
        ensures { result.now ≡ self.now.done }
    {
        &self.done
    }

    /// The last calls that could be redone. The last one was undone last.
    pub fn undone(&self) -> &[AcceptedCall<'a>]
        ensures { result.now ≡ self.now.undone }
    {
        &self.undone
    }

    /// Whether the log goes on from what a seat has seen. It does, unless the seat has seen more.
    pub fn goes_on_from(&self, seat: &Seat<'a, H>) -> bool
        ensures begins { OnTrue result (IsPrefix seat.now.seen self.now.log) }
        ensures shorter { OnFalse result (length self.now.log < length seat.now.seen) }
    {
        if self.entries.len() < seat.seen.len() {
            return false;
        }
        agree(self.log, &seat.seen, &self.entries);
        true
    }
}

/// Tokens of the same cells.
fn tokens_again<'a>(
    alloc: Global,
    entries: &Vec<OnceToken<'a, LogEntry>>,
) -> Result<Vec<OnceToken<'a, LogEntry>>, AllocError>
    ensures marks { IfOk result (λ again. marks again.items ≡ marks entries.now.items) }
    ensures shown { IfOk result (λ again. shown again.items ≡ shown entries.now.items) }
{
    let mut again = Vec::with_capacity(alloc, entries.len())?;
    catch_up(&mut again, entries);
    Ok(again)
}

/// The same calls.
fn calls_again<'a>(
    alloc: Global,
    calls: &[AcceptedCall<'a>],
) -> Result<Vec<AcceptedCall<'a>>, AllocError>
    ensures { IfOk result (λ again. again.items ≡ calls.now) }
{
    let mut again = Vec::with_capacity(alloc, calls.len())?;
    for made in calls {
        again.push(made.again())?;
    }
    Ok(again)
}
