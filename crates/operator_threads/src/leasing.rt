//! How calls are taken by the lease of the desk.

ghost use Rattle.std.specs.Prelude.{◌≡◌, OnOk, OnErr};
ghost use Rattle.desk_edit.specs.Asked.{asked_by};
ghost use Rattle.desk_edit.specs.Told.{told_in};
ghost use Rattle.operator_threads.specs.Lease.{closed};
ghost use Rattle.operator_threads.specs.Watches.{
  AppendsCall,
  AppendsClosed,
  AppendsJudged,
  AppendsLease,
};

use crate::at_desk::AtDesk;
use crate::lease::Lease;
use crate::printing::print_answer;
use crate::wake::Wake;
use desk_edit::{Call, Carried, RefusalRow};
use desk_text::print_refused;
use operator_desk::DeskBrand;
use operator_lines::{LeaseAsk, Trouble, Wrong};
use std::alloc::{AllocError, Global};
use std::sync::Wait;

/// The refusal of a call that the desk doesn't take.
fn closed() -> RefusalRow
    ensures { told_in result ≡ closed }
{
    RefusalRow {
        number: 27,
        name: b"Closed",
        carried: Carried::Nothing,
    }
}

impl<'b, 'a, H: DeskBrand, R: Wait, F: Wake> AtDesk<'b, 'a, H, R, F> {
    /// Gives the call of a line to the desk, and appends the line of its answer. An `Err` appends nothing, but the call
    /// may be carried out.
    fn give_call(
        &mut self,
        alloc: Global,
        moment: u64,
        line: &[u8],
        call: Call,
        out: &mut Vec<u8>,
    ) -> Result<(), AllocError>
        ensures ok { OnOk result (AppendsCall H.start H.publisher moment
            (record {
              seat = self.old.taken.seat;
              known = self.old.known;
              told = self.old.told;
              is_named = self.old.is_named;
              name = self.old.name.items;
              trouble = self.old.trouble;
              learnt = self.old.learnt;
            })
            (record {
              seat = self.new.taken.seat;
              known = self.new.known;
              told = self.new.told;
              is_named = self.new.is_named;
              name = self.new.name.items;
              trouble = self.new.trouble;
              learnt = self.new.learnt;
            })
            line.now (asked_by call) out.old.items out.new.items) }
        ensures err { OnErr result (out.new.items ≡ out.old.items) }
    {
        let kept = Vec::from_slice(alloc, line)?;
        let stamp = self.stamp(alloc, moment)?;
        let desk = &self.operators.desk;
        match desk.call(self.rt, alloc, &mut self.taken.seat, call, stamp) {
            Ok(answer) => {
                self.note(&answer);
                self.note_refusal(kept, &answer);
                print_answer(&answer, out)
            }
            // It has no answer for a seat of another desk, nor once it has ended.
            Err(_) => Err(self.give_up()),
        }
    }

    /// Refuses the call of a line, which the desk doesn't take, and appends the line that says so. An `Err` appends
    /// nothing.
    fn refuse_call(
        &mut self,
        alloc: Global,
        line: &[u8],
        out: &mut Vec<u8>,
    ) -> Result<(), AllocError>
        ensures ok { OnOk result (AppendsClosed
            (record {
              seat = self.old.taken.seat;
              known = self.old.known;
              told = self.old.told;
              is_named = self.old.is_named;
              name = self.old.name.items;
              trouble = self.old.trouble;
              learnt = self.old.learnt;
            })
            (record {
              seat = self.new.taken.seat;
              known = self.new.known;
              told = self.new.told;
              is_named = self.new.is_named;
              name = self.new.name.items;
              trouble = self.new.trouble;
              learnt = self.new.learnt;
            })
            line.now out.old.items out.new.items) }
        ensures err { OnErr result (out.new.items ≡ out.old.items) }
    {
        let kept = Vec::from_slice(alloc, line)?;
        print_refused(self.asked(), closed(), out)?;
        self.trouble = Some(Trouble::new(kept, Wrong::Closed));
        Ok(())
    }

    /// Gives the call of a line to the desk, or refuses it where the lease says so, and appends the line of the answer.
    /// An `Err` appends nothing, but the call may be carried out.
    pub(crate) fn judge_call(
        &mut self,
        alloc: Global,
        moment: u64,
        line: &[u8],
        call: Call,
        lease: &mut Lease,
        out: &mut Vec<u8>,
    ) -> Result<(), AllocError>
        ensures ok { OnOk result (AppendsJudged H.start H.publisher moment
            (record {
              seat = self.old.taken.seat;
              known = self.old.known;
              told = self.old.told;
              is_named = self.old.is_named;
              name = self.old.name.items;
              trouble = self.old.trouble;
              learnt = self.old.learnt;
            })
            (record {
              seat = self.new.taken.seat;
              known = self.new.known;
              told = self.new.told;
              is_named = self.new.is_named;
              name = self.new.name.items;
              trouble = self.new.trouble;
              learnt = self.new.learnt;
            })
            line.now (asked_by call) out.old.items out.new.items) }
        ensures err { OnErr result (out.new.items ≡ out.old.items) }
    {
        // It never knows of more, but no clause says so.
        if !self.learnt.learn(lease.told()) {
            return Err(self.give_up());
        }
        if lease.takes_calls(moment, self.shown_name()) {
            self.give_call(alloc, moment, line, call, out)
        } else {
            self.refuse_call(alloc, line, out)
        }
    }

    /// Tells the desk's lease what is asked, and appends the line of what is left of it. An `Err` appends nothing.
    pub(crate) fn ask_lease(
        &mut self,
        alloc: Global,
        moment: u64,
        ask: LeaseAsk,
        lease: &mut Lease,
        out: &mut Vec<u8>,
    ) -> Result<(), AllocError>
        ensures ok { OnOk result (AppendsLease moment ask
            (record {
              seat = self.old.taken.seat;
              known = self.old.known;
              told = self.old.told;
              is_named = self.old.is_named;
              name = self.old.name.items;
              trouble = self.old.trouble;
              learnt = self.old.learnt;
            })
            (record {
              seat = self.new.taken.seat;
              known = self.new.known;
              told = self.new.told;
              is_named = self.new.is_named;
              name = self.new.name.items;
              trouble = self.new.trouble;
              learnt = self.new.learnt;
            })
            out.old.items out.new.items) }
        ensures err { OnErr result (out.new.items ≡ out.old.items) }
    {
        if !self.learnt.learn(lease.told()) {
            return Err(self.give_up());
        }
        lease.look(moment);
        lease.change(alloc, self.shown_name(), ask)?;
        self.learnt = lease.told().again();
        lease.print(out)
    }
}
