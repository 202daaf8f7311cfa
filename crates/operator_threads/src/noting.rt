//! What is noted of an operator's connection.

ghost use Rattle.std.specs.Prelude.{◌≡◌, ◌++◌, ℕ, List, IfOk, OnOk, OnErr};
ghost use Rattle.operator_threads.specs.Told.{
  IsKnown,
  IsTelling,
  TellsWhy,
  shown_name,
  stamp_at,
  trouble_after,
  wrong_by,
};

use crate::at_desk::AtDesk;
use crate::lease::millisecond_of;
use crate::wake::Wake;
use call_history::CallStamp;
use operator_desk::{Answer, DeskBrand, Why};
use operator_lines::{Trouble, Wrong, print_why};
use std::alloc::{AllocError, Global};
use std::sync::{MutexGuard, Wait};

/// What was wrong with the line of a call that is refused.
fn wrong_by(why: Why) -> Wrong
    ensures { result ≡ wrong_by why }
{
    match why {
        Why::Told(refusal) => Wrong::Refused { refusal },
        Why::LogTaken => Wrong::Taken,
    }
}

impl<'b, 'a, H: DeskBrand, R: Wait, F: Wake> AtDesk<'b, 'a, H, R, F> {
    /// Learns the notice of an accepted call, and wakes the front.
    pub(crate) fn note(&mut self, answer: &Answer)
        requires tells { IsTelling H.start H.publisher answer.now }
        ensures known { IsKnown answer.now self.new.known }
        ensures seat { self.new.taken ≡ self.old.taken }
        ensures told { self.new.told ≡ self.old.told }
        ensures named { self.new.is_named ≡ self.old.is_named }
        ensures name { self.new.name ≡ self.old.name }
        ensures trouble { self.new.trouble ≡ self.old.trouble }
        ensures learnt { self.new.learnt ≡ self.old.learnt }
    {
        if let Answer::Accepted { notice, .. } = answer {
            self.known = self.operators.learn(self.rt, notice);
            self.front.wake();
        }
    }

    /// Notes that the call of this line was refused, if it was.
    pub(crate) fn note_refusal(&mut self, line: Vec<u8>, answer: &Answer)
        ensures trouble { self.new.trouble ≡ trouble_after line.items answer.now self.old.trouble }
        ensures known { self.new.known ≡ self.old.known }
        ensures seat { self.new.taken ≡ self.old.taken }
        ensures told { self.new.told ≡ self.old.told }
        ensures named { self.new.is_named ≡ self.old.is_named }
        ensures name { self.new.name ≡ self.old.name }
        ensures learnt { self.new.learnt ≡ self.old.learnt }
    {
        if let Answer::Refused { why, .. } = answer {
            self.trouble = Some(Trouble::new(line, wrong_by(*why)));
        }
    }

    /// The connection's name as it is told.
    pub(crate) fn shown_name(&self) -> &[u8]
        ensures { result.now ≡ shown_name self.now.name.items }
    {
        if self.name.is_empty() {
            b"-"
        } else {
            &self.name
        }
    }

    /// The stamp of a call that is given at this moment.
    pub(crate) fn stamp(&self, alloc: Global, moment: u64) -> Result<CallStamp, AllocError>
        ensures { IfOk result (λ stamp. stamp ≡ stamp_at moment self.now.name.items) }
    {
        CallStamp::new(alloc, millisecond_of(moment), self.shown_name())
    }

    /// Appends what was wrong with the last line that was faulty or refused, by a copy of the rows. An `Err` appends
    /// nothing.
    fn print_trouble(&self, alloc: Global, asked: u64, out: &mut Vec<u8>) -> Result<(), AllocError>
        ensures ok { OnOk result ((text : List ℕ) × (out.new.items ≡ out.old.items ++ text)
            × TellsWhy H.start asked self.now.trouble text) }
        ensures err { OnErr result (out.new.items ≡ out.old.items) }
    {
        let (version, rows) = self.operators.desk.rows(self.rt, alloc)?;
        // No clause of the desk says that it is published.
        if version < asked {
            return Err(self.give_up());
        }
        print_why(alloc, &rows, version, self.trouble.as_ref(), out)
    }

    /// Appends what was wrong with the last line that was faulty or refused, in the operator's turn. An `Err` appends
    /// nothing.
    // A copy of a full desk keeps calls waiting for milliseconds, so one operator at a time makes one.
    pub(crate) fn show_why(
        &self,
        alloc: Global,
        asked: u64,
        out: &mut Vec<u8>,
    ) -> Result<(), AllocError>
        ensures ok { OnOk result ((text : List ℕ) × (out.new.items ≡ out.old.items ++ text)
            × TellsWhy H.start asked self.now.trouble text) }
        ensures err { OnErr result (out.new.items ≡ out.old.items) }
    {
        let printed = self.operators.printed.lock(self.rt);
        let answer = self.print_trouble(alloc, asked, out);
        MutexGuard::unlock(printed);
        answer
    }
}
