//! Seats of operators.

ghost use Rattle.std.specs.Prelude.{◌≡◌, ◌+◌, ◌≤◌, length, drop, IfOk, OnOk};
ghost use mathlib.Core.List.{IsPrefix};
ghost use Rattle.operator_desk.specs.LegalLogs.{IsLegal};
ghost use Rattle.operator_desk.specs.PastCalls.{made_of, stamped_of};
ghost use Rattle.operator_desk.specs.Seats.{new_seat, new_seats};
ghost use Rattle.operator_desk.specs.inner.Tokens.{shown, AreFirst};

use crate::desk_brand::DeskBrand;
use crate::entry::LogEntry;
use crate::log::Log;
use crate::tokens::{accepted_after, agree, stamped_after};
use call_history::{AcceptedCall, StampedCall};
use std::alloc::{AllocError, Global};
use std::marker::Model;
use std::sync::OnceToken;
use std::sync::ledger::Share;

/// An operator's handle of the desk.
///
/// Contracts see its operator, the log that it has seen, how many of its calls were accepted, and an entry behind
/// that log if it met one.
// What a seat has seen shows which calls are its own. The share adds the sum: once all shares are merged, their amount
// is the length of the log, so together the seats made all of its calls.
#[derive(Drop)]
pub struct Seat<'a, H: DeskBrand> {
    pub(crate) op: u32,
    /// A token of each entry that it has seen. Tokens have no bytes.
    pub(crate) seen: Vec<OnceToken<'a, LogEntry>>,
    pub(crate) next: Option<OnceToken<'a, LogEntry>>,
    /// Its share of the count of accepted calls.
    pub(crate) mine: Share<H>,
}

impl<'a, H: DeskBrand> Model for Seat<'a, H> {
    ghost use Rattle.std.specs.Prelude.{◌≡◌, length, vec_capacity};
    ghost use Rattle.operator_desk.specs.LegalLogs.{IsLegal};
    ghost use Rattle.operator_desk.specs.OwnCalls.{numbers};
    ghost use Rattle.operator_desk.specs.Seats.{SeatOf};
    ghost use Rattle.operator_desk.specs.inner.Tokens.{shown, shown_next, AreTokens};

    ghost Value = { SeatOf };

    ghost view = { λ s. record {
      op = s.op;
      seen = shown s.seen.items;
      count = s.mine.amount;
      beyond = shown_next s.next;
    } };

    ghost invariant = { λ s.
        AreTokens H.cells s.seen.items (vec_capacity s.seen) s.next
        × IsLegal H.start (shown s.seen.items)
        × (length (numbers s.op (shown s.seen.items)) ≡ s.mine.amount)
        × (s.mine.parts ≡ 1) };
}

impl<'a, H: DeskBrand> Seat<'a, H> {
    /// A seat that has seen nothing, with capacity for tokens of the whole log.
    // Tokens have no bytes, so their memory is taken at once. A call that is refused on out of memory has still shown
    // the seat the whole log.
    pub(crate) fn new(
        alloc: Global,
        log: &'a Log,
        op: u32,
        mine: Share<H>,
    ) -> Result<Self, AllocError>
        requires log { log.now ≡ H.cells }
        requires mine { (mine.parts ≡ 1) × (mine.amount ≡ 0) }
        ensures { IfOk result (λ seat. seat ≡ new_seat op) }
    {
        Ok(Seat {
            op,
            seen: Vec::with_capacity(alloc, log.len())?,
            next: None,
            mine,
        })
    }

    /// The number of its operator.
    pub fn op(&self) -> u32
        ensures { result ≡ self.now.op }
    {
        self.op
    }

    /// How many entries of the log it has seen. They are a legal log.
    pub fn has_seen(&self) -> usize
        ensures count { result ≡ length self.now.seen }
        ensures legal { IsLegal H.start self.now.seen }
    {
        self.seen.len()
    }

    /// The accepted calls that it has seen, but for so many first ones.
    pub(crate) fn calls_after(
        &self,
        alloc: Global,
        log: &'a Log,
        version: usize,
    ) -> Result<Vec<AcceptedCall<'a>>, AllocError>
        requires log { log.now ≡ H.cells }
        ensures { IfOk result (λ calls. calls.items ≡ drop version (made_of self.now.seen)) }
    {
        accepted_after(alloc, log, &self.seen, version)
    }

    /// The same with their stamps.
    pub(crate) fn stamped_after(
        &self,
        alloc: Global,
        log: &'a Log,
        version: usize,
    ) -> Result<Vec<StampedCall<'a>>, AllocError>
        requires log { log.now ≡ H.cells }
        ensures { IfOk result (λ calls. calls.items ≡ drop version (stamped_of self.now.seen)) }
    {
        stamped_after(alloc, log, &self.seen, version)
    }

    /// Gives its share back. What it has seen is a beginning of the log.
    pub(crate) fn give_back(
        self,
        log: &'a Log,
        entries: &Vec<OnceToken<'a, LogEntry>>,
        rest: &mut Share<H>,
    )
        requires log { log.now ≡ H.cells }
        requires entries { AreFirst H.cells entries.now.items }
        requires few { length self.seen ≤ length entries.now.items }
        ensures begins { IsPrefix self.entry.seen (shown entries.now.items) }
        ensures parts { rest.new.parts ≡ rest.old.parts + 1 }
        ensures amount { rest.new.amount ≡ rest.old.amount + self.entry.count }
        ensures apart { rest.new.parts ≤ H.parts }
    {
        let Seat { seen, mine, .. } = self;
        agree(log, &seen, entries);
        rest.merge(mine);
    }
}

/// One seat for each operator, each with a part of the count.
pub fn seats_for<'a, H: DeskBrand>(
    alloc: Global,
    log: &'a Log,
    all: &mut Share<H>,
    operators: u32,
) -> Result<Vec<Seat<'a, H>>, AllocError>
    requires log { log.now ≡ H.cells }
    requires all { (all.old.parts ≡ operators) × (all.old.amount ≡ 0) }
    ensures seats { IfOk result (λ seats. seats.items ≡ new_seats operators) }
    ensures rest { OnOk result ((all.new.parts ≡ 0) × (all.new.amount ≡ 0)) }
{
    let mut seats = Vec::with_capacity(alloc, operators as usize)?;
    for op in 0..operators {
        let mine = all.split_off(1, 0);
        seats.push_reserved(Seat::new(alloc, log, op, mine)?);
    }
    Ok(seats)
}
