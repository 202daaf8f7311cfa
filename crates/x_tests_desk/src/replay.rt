//! A desk with one operator, at which the log of several is replayed.

use crate::calls::{Reply, call_of, version_of};
use desk_calls::Desk;
use desk_edit::Call;
use desk_rows::{Kind, Rows};
use operator_desk::LogEntry;
use std::alloc::Global;

/// How an operator was answered, and how many of its calls were replayed.
// The desk of one operator is a `Desk`, by `prepare` and `commit`: `Core::desk` is these two calls and no more.
#[derive(Drop)]
pub struct Operator {
    op: u32,
    replies: Vec<Reply>,
    made: usize,
    last: u64,
}

impl Operator {
    pub fn new(op: u32, replies: Vec<Reply>) -> Operator {
        Operator {
            op,
            replies,
            made: 0,
            last: 0,
        }
    }

    /// The reply to the next call, if there is one.
    fn next(&self) -> Option<Reply> {
        self.replies.get(self.made).copied()
    }

    /// Takes a reply of the other desk. Says whether the operator had the same.
    fn takes(&mut self, reply: Reply) -> bool {
        let same = self.next() == Some(reply);
        self.made = self.made.saturating_add(1);
        self.last = version_of(reply);
        same
    }

    /// Makes all calls that were refused at the version of the other desk. Says whether it refuses them alike.
    fn is_refused_alike(&mut self, alloc: Global, one: &mut Desk) -> bool {
        for _ in self.made..self.replies.len() {
            match self.next() {
                Some(Reply::Refused { at, .. }) if at == one.version() => {
                    let call = call_of(self.op, self.made, self.last);
                    if !self.takes(asked(alloc, one, &call)) {
                        return false;
                    }
                }
                _ => break,
            }
        }
        true
    }
}

/// The reply of the desk.
pub fn asked(alloc: Global, one: &mut Desk, call: &Call) -> Reply {
    match one.prepare(alloc, call) {
        Ok(prepared) => Reply::Accepted {
            no: one.commit(call, prepared),
        },
        Err(why) => Reply::Refused {
            at: one.version(),
            why,
        },
    }
}

/// Whether the desk refuses alike what was refused at its version.
fn all_refused_alike(alloc: Global, one: &mut Desk, operators: &mut Vec<Operator>) -> bool {
    for operator in operators.iter_mut() {
        if !operator.is_refused_alike(alloc, one) {
            return false;
        }
    }
    true
}

/// A desk at which the log was replayed, if it answered each call of each operator as the operator was answered.
pub fn replayed(alloc: Global, log: Vec<LogEntry>, operators: Vec<Operator>) -> Option<Desk> {
    let mut one = Desk::new(alloc, Rows::new(alloc, 1).ok()?);
    let mut operators = operators;
    for entry in log {
        if !all_refused_alike(alloc, &mut one, &mut operators) {
            return None;
        }
        let op = entry.op();
        let reply = asked(alloc, &mut one, entry.call());
        if !operators.get_mut(op as usize)?.takes(reply) {
            return None;
        }
    }
    let alike = all_refused_alike(alloc, &mut one, &mut operators);
    let ended = operators.iter().all(|operator| operator.next().is_none());
    (alike && ended).then_some(one)
}

/// Whether two desks have the same rooms and nothing else.
pub fn is_same(one: &Rows, other: &Rows) -> bool {
    one.members().is_empty()
        && other.members().is_empty()
        && one.count(Kind::Room) == other.count(Kind::Room)
        && (0..one.count(Kind::Room)).all(|place| one.at(Kind::Room, place)
            == other.at(Kind::Room, place))
}
