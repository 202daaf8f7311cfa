//! The lease of a desk: how long it takes the calls of all.

ghost use Rattle.std.specs.Prelude.{◌≡◌, ◌++◌, [], OnOk, OnErr};
ghost use Rattle.operator_threads.specs.Lease.{
  IsJudged,
  has_ended,
  is_holder,
  last_lease,
  lease_line,
  leases_after,
  looked_at,
  millisecond_of,
  takes_calls,
  told_lease,
};

use crate::leases::{LeaseHead, Leases};
use desk_text::{Value, Word, print_line};
use operator_lines::LeaseAsk;
use std::alloc::{AllocError, Global};
use std::marker::Model;

/// How many nanoseconds a millisecond has.
const MILLISECOND: u64 = 1_000_000;

/// The millisecond of a moment, in nanoseconds.
pub(crate) fn millisecond_of(moment: u64) -> u64
    ensures { result ≡ millisecond_of moment }
{
    moment / MILLISECOND
}

/// A lease that was given.
#[derive(Drop)]
pub(crate) struct Held {
    /// When it ends, in milliseconds since 1970.
    until: u64,
    /// The name of the connection that gave it, as it is told.
    holder: Vec<u8>,
}

impl Model for Held {
    ghost use Rattle.operator_threads.specs.Lease.{LeaseOf};

    ghost Value = { LeaseOf };

    ghost view = { λ h. record { until = h.until; holder = h.holder.items } };
}

impl Held {
    /// Whether it has ended.
    fn has_ended(&self, moment: u64) -> bool
        ensures { result ≡ has_ended self.now moment }
    {
        self.until <= millisecond_of(moment)
    }

    /// Whether a connection that is told by this name holds it.
    fn is_holder(&self, name: &[u8]) -> bool
        ensures { result ≡ is_holder self.now name.now }
    {
        name != b"-".as_slice() && name == self.holder.as_slice()
    }
}

/// The lease of a desk, if it has one, and the latest moment at which it was looked at. Contracts see all leases that
/// the desk was told, of which it is the last, and that moment.
///
/// Connections look at it in the order of its lock, which isn't that of their moments. It is judged by the latest one,
/// so that a lease which was told as ended stays ended.
#[derive(Drop)]
pub(crate) struct Lease {
    held: Option<Held>,
    /// In nanoseconds.
    latest: u64,
    told: Leases,
    head: LeaseHead,
}

impl Model for Lease {
    ghost use Rattle.std.specs.Prelude.{◌≡◌};
    ghost use Rattle.published_desk.specs.inner.BookRule.{head_of};
    ghost use Rattle.operator_threads.specs.Lease.{DeskLeaseOf, last_lease};

    ghost Value = { DeskLeaseOf };

    ghost view = { λ l. record { told = l.told; latest = l.latest } };

    ghost invariant = { λ l. (l.held ≡ last_lease l.told.list) × (l.head ≡ head_of l.told.book) };
}

impl Lease {
    /// There is none, and none was told.
    pub fn none() -> Self
        ensures told { result.told.list ≡ [] }
        ensures latest { result.latest ≡ 0 }
    {
        let (head, told) = Leases::none();
        Self {
            held: None,
            latest: 0,
            told,
            head,
        }
    }

    /// The leases that the desk was told.
    pub fn told(&self) -> &Leases
        ensures { result.now ≡ self.now.told }
    {
        &self.told
    }

    /// It is looked at, at a moment in nanoseconds.
    pub fn look(&mut self, moment: u64)
        ensures { self.new ≡ looked_at moment self.old }
    {
        self.latest = moment.max(self.latest);
    }

    /// Whether the desk takes the calls of a connection that is told by this name, as of the latest look.
    fn is_open_to(&self, name: &[u8]) -> bool
        ensures { result ≡ takes_calls (last_lease self.now.told.list) self.now.latest name.now }
    {
        match &self.held {
            None => true,
            Some(held) => !held.has_ended(self.latest) || held.is_holder(name),
        }
    }

    /// Whether the desk takes a call of this moment, in nanoseconds, of a connection that is told by this name.
    pub fn takes_calls(&mut self, moment: u64, name: &[u8]) -> bool
        ensures looked { self.new ≡ looked_at moment self.old }
        ensures takes { result ≡ takes_calls (last_lease self.new.told.list) self.new.latest name.now }
        ensures judged { IsJudged self.old.told.list moment name.now result }
    {
        self.look(moment);
        self.is_open_to(name)
    }

    /// It is this one from now on. An `Err` changes nothing.
    // No clause says that the book is written here alone, so it has an error where the book has another lease.
    #[tactic(auto, using(crate::proofs::LeaseLemmas::last_told))]
    fn become_lease(&mut self, lease: Option<Held>) -> Result<(), AllocError>
        ensures ok { OnOk result (self.new ≡ record self.old { told = told_lease lease self.old.told }) }
        ensures err { OnErr result (self.new ≡ self.old) }
    {
        let mut told = self.told.again();
        if !told.add(&self.head, &lease) {
            return Err(AllocError);
        }
        self.told = told;
        self.held = lease;
        Ok(())
    }

    /// What a connection that is told by this name asks. An `Err` changes nothing.
    pub fn change(&mut self, alloc: Global, name: &[u8], ask: LeaseAsk) -> Result<(), AllocError>
        ensures ok { OnOk result (self.new
            ≡ record self.old { told = leases_after ask self.old.latest name.now self.old.told }) }
        ensures err { OnErr result (self.new ≡ self.old) }
    {
        match ask {
            LeaseAsk::Tell => Ok(()),
            LeaseAsk::Off => self.become_lease(None),
            LeaseAsk::Lasts { milliseconds } => {
                let holder = Vec::from_slice(alloc, name)?;
                let until = millisecond_of(self.latest).saturating_add(milliseconds);
                self.become_lease(Some(Held { until, holder }))
            }
        }
    }

    /// Appends the line of what is left of it. An `Err` appends nothing.
    pub fn print(&self, out: &mut Vec<u8>) -> Result<(), AllocError>
        ensures ok { OnOk result (out.new.items
            ≡ out.old.items ++ lease_line (last_lease self.now.told.list) self.now.latest) }
        ensures err { OnErr result (out.new.items ≡ out.old.items) }
    {
        match &self.held {
            None => print_line(b"lease", &[Word::Fixed(b"off")], out),
            Some(held) => {
                let left = held.until.saturating_sub(millisecond_of(self.latest));
                let words = [Word::Value(Value::U64(left)), Word::Fixed(&held.holder)];
                print_line(b"lease", &words, out)
            }
        }
    }
}
