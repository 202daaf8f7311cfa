//! The desk that an operator's lines ask.

ghost use Rattle.std.specs.Prelude.{◌≡◌, ℕ, List, [], OnOk, OnErr};
ghost use Rattle.desk_edit.specs.Asked.{asked_by};
ghost use Rattle.operator_lines.specs.DeskAsk.{DeskAsk, calls, watches, news, lists, renames, leases, faults};
ghost use Rattle.operator_lines.specs.declared.line_desk.View.{View};
ghost use Rattle.operator_lines.specs.Operators.{AppendsReply, AppendsShown};

use desk_edit::Call;
use desk_text::Fault;
use std::alloc::{AllocError, Global};

/// What is shown of a desk.
#[derive(Clone, Copy, Debug, PartialEq, Eq)]
pub enum View {
    /// Its rows.
    Rows,
    /// Groups of commands that make its rows again.
    Groups,
    /// The last calls that are in force, and the last of those that can be redone.
    History {
        /// How many of each at most.
        most: u64,
    },
    /// What the bridge counts.
    Stats,
    /// How loud the sources of sound are.
    Levels,
    /// What was wrong with the last line that was faulty or refused.
    Why,
}

/// What a line asks of the desk's lease. Once a lease has ended, no connection of another name may call.
#[derive(Clone, Copy, Debug, PartialEq, Eq)]
pub enum LeaseAsk {
    /// What is left of it.
    Tell,
    /// That there is none.
    Off,
    /// That it lasts so long from now on, and is of the connection that asks.
    Lasts {
        /// How many milliseconds, 0 to 4294967295 in a line.
        milliseconds: u64,
    },
}

/// A desk that answers the lines of one operator. A moment is that at which a line is answered, in nanoseconds since
/// 1970.
pub trait LineDesk {
    /// Whether it may be answered so at a moment: the desk before and after, what it is asked, and the text.
    ghost replies: { ℕ → Self → Self → DeskAsk → List ℕ → Type 0 };

    /// Whether these octets may show this of the desk.
    ghost shows: { Self → View → List ℕ → Type 0 };

    /// Carries out the call of a line, and appends the line of its reply. An `Err` appends nothing, but the call may be
    /// carried out.
    fn reply(
        &mut self,
        alloc: Global,
        moment: u64,
        line: &[u8],
        call: Call,
        out: &mut Vec<u8>,
    ) -> Result<(), AllocError>
        ensures ok { OnOk result (AppendsReply (replies moment) self.old self.new (calls line.now (asked_by call))
            out.old.items out.new.items) }
        ensures err { OnErr result (out.new.items ≡ out.old.items) };

    /// Begins a watch: from now on [`LineDesk::tell_news`] tells of accepted calls, with their moments and names or
    /// without them. Appends the line of the version up to which it tells of none. A desk that has a watch goes on with
    /// it. An `Err` appends nothing.
    fn watch(
        &mut self,
        alloc: Global,
        moment: u64,
        is_named: bool,
        out: &mut Vec<u8>,
    ) -> Result<(), AllocError>
        ensures ok { OnOk result (AppendsReply (replies moment) self.old self.new (watches is_named)
            out.old.items out.new.items) }
        ensures err { OnErr result (out.new.items ≡ out.old.items) };

    /// Appends a line for each call that was accepted since the last news of a watch, or since it began. Without a
    /// watch there are none. An `Err` appends nothing.
    fn tell_news(&mut self, alloc: Global, moment: u64, out: &mut Vec<u8>) -> Result<(), AllocError>
        ensures ok { OnOk result (AppendsReply (replies moment) self.old self.new news out.old.items out.new.items) }
        ensures err { OnErr result (out.new.items ≡ out.old.items) };

    /// Appends a line for each of the last accepted calls, at most so many, and the version. An `Err` appends nothing.
    fn tell_calls(
        &mut self,
        alloc: Global,
        moment: u64,
        most: u64,
        out: &mut Vec<u8>,
    ) -> Result<(), AllocError>
        ensures ok { OnOk result (AppendsReply (replies moment) self.old self.new (lists most)
            out.old.items out.new.items) }
        ensures err { OnErr result (out.new.items ≡ out.old.items) };

    /// Gives the connection this name, and appends a line that says so. An `Err` appends nothing.
    fn rename(
        &mut self,
        alloc: Global,
        moment: u64,
        name: &[u8],
        out: &mut Vec<u8>,
    ) -> Result<(), AllocError>
        ensures ok { OnOk result (AppendsReply (replies moment) self.old self.new (renames name.now)
            out.old.items out.new.items) }
        ensures err { OnErr result (out.new.items ≡ out.old.items) };

    /// Gives the desk a lease, or takes it away, and appends the line that tells what is left of it then. An `Err`
    /// appends nothing.
    fn lease(
        &mut self,
        alloc: Global,
        moment: u64,
        ask: LeaseAsk,
        out: &mut Vec<u8>,
    ) -> Result<(), AllocError>
        ensures ok { OnOk result (AppendsReply (replies moment) self.old self.new (leases ask)
            out.old.items out.new.items) }
        ensures err { OnErr result (out.new.items ≡ out.old.items) };

    /// Notes that a line is faulty, and the place of the word.
    fn note_fault(
        &mut self,
        alloc: Global,
        moment: u64,
        line: &[u8],
        word: u32,
        fault: Fault,
    ) -> Result<(), AllocError>
        ensures { OnOk result (replies moment self.old self.new (faults line.now word fault) []) };

    /// Appends the rows or calls of one version, a line for each, and the version; or the groups that make these rows
    /// again; or the lines that tell what the bridge counts, or how loud the sources of sound are; or what was wrong
    /// with the last line that was faulty or refused. An `Err` appends nothing.
    fn show(&self, alloc: Global, view: View, out: &mut Vec<u8>) -> Result<(), AllocError>
        ensures ok { OnOk result (AppendsShown shows self.now view out.old.items out.new.items) }
        ensures err { OnErr result (out.new.items ≡ out.old.items) };
}
