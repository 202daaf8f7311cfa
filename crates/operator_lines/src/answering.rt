//! Answers operators' lines.

ghost use Rattle.std.specs.Prelude.{◌≡◌, ◌++◌, ℕ, List, Ok, IfOk, OnOk, OnErr};
ghost use Rattle.desk_text.specs.declared.fault.Fault.TheVariants.{LineTooLong};
ghost use Rattle.operator_lines.specs.Operators.{fault_line, after_fault, busy_line, alone, AppendsAnswer, AnswersLine};

use crate::asking::{LineAsk, Verb, parse_line};
use crate::helping::print_help;
use crate::line_desk::LineDesk;
use desk_text::{Fault, ParseFault};
use std::alloc::{AllocError, Allocator, Global};

/// What happens to a connection after a line.
#[derive(Clone, Copy, Debug, PartialEq, Eq)]
pub enum Next {
    /// It stays.
    Stay,
    /// It is closed.
    Quit,
    /// The bridge ends.
    Stop,
}

/// The answer to a connection when no seat is free.
pub fn busy() -> &'static [u8]
    ensures { result.now ≡ busy_line }
{
    b"busy\n"
}

/// Appends the line of a fault of a word, counted from 1; word 0 is the whole line. An `Err` appends nothing.
pub(crate) fn print_fault<A: Allocator + Copy>(
    alloc: A,
    word: u32,
    fault: Fault,
    out: &mut Vec<u8, A>,
) -> Result<(), AllocError>
    ensures ok { OnOk result (out.new.items ≡ out.old.items ++ fault_line word fault) }
    ensures err { OnErr result (out.new.items ≡ out.old.items) }
{
    let line = format!(in alloc; "fault {word} {fault}\n")?;
    out.extend_from_slice(line.as_bytes())
}

/// What happens to a connection behind a faulty line. Who sends an octet that no line may hold speaks another protocol,
/// and what follows may be lines that somebody else chose.
fn after_fault(fault: Fault) -> Next
    ensures { result ≡ after_fault fault }
{
    match fault {
        Fault::LineTooLong | Fault::BadByte => Next::Quit,
        Fault::UnknownWord
        | Fault::MissingWord
        | Fault::ExtraWord
        | Fault::BadNumber
        | Fault::BadAddress
        | Fault::BadHex
        | Fault::BadFrame => Next::Stay,
    }
}

/// Appends the answer to a line of more octets than a line may have. An `Err` appends nothing.
pub fn print_too_long<A: Allocator + Copy>(alloc: A, out: &mut Vec<u8, A>) -> Result<(), AllocError>
    ensures ok { OnOk result (out.new.items ≡ out.old.items ++ fault_line 0 LineTooLong) }
    ensures err { OnErr result (out.new.items ≡ out.old.items) }
{
    print_fault(alloc, 0, Fault::LineTooLong, out)
}

/// Carries out a line without octets of its own, and appends the answer. An `Err` appends nothing.
fn answer_verb<D: LineDesk>(
    alloc: Global,
    desk: &mut D,
    moment: u64,
    verb: Verb,
    out: &mut Vec<u8>,
) -> Result<Next, AllocError>
    ensures answer { IfOk result (λ next. (line : List ℕ) → AppendsAnswer (D.replies moment) D.shows line desk.old
        (Ok (alone verb)) desk.new out.old.items out.new.items next) }
    ensures err { OnErr result (out.new.items ≡ out.old.items) }
{
    match verb {
        Verb::Show(view) => {
            desk.show(alloc, view, out)?;
            Ok(Next::Stay)
        }
        Verb::Calls { most } => {
            desk.tell_calls(alloc, moment, most, out)?;
            Ok(Next::Stay)
        }
        Verb::Watch { is_named } => {
            desk.watch(alloc, moment, is_named, out)?;
            Ok(Next::Stay)
        }
        Verb::Lease { ask } => {
            desk.lease(alloc, moment, ask, out)?;
            Ok(Next::Stay)
        }
        Verb::Help { topic } => {
            print_help(alloc, topic, out)?;
            Ok(Next::Stay)
        }
        Verb::Quit => Ok(Next::Quit),
        Verb::Stop => Ok(Next::Stop),
    }
}

/// Answers an operator's line, without its LF, at this moment, in nanoseconds since 1970: carries it out, and appends
/// the answer.
///
/// On out of memory nothing is appended, but a call may have been carried out.
pub fn answer<D: LineDesk>(
    alloc: Global,
    desk: &mut D,
    moment: u64,
    line: &[u8],
    out: &mut Vec<u8>,
) -> Result<Next, AllocError>
    ensures answer { IfOk result (λ next.
        AnswersLine (D.replies moment) D.shows desk.old desk.new line.now out.old.items out.new.items next) }
    ensures err { OnErr result (out.new.items ≡ out.old.items) }
{
    match parse_line(alloc, line) {
        Ok(LineAsk::Call(call)) => {
            desk.reply(alloc, moment, line, call, out)?;
            Ok(Next::Stay)
        }
        Ok(LineAsk::Name(name)) => {
            desk.rename(alloc, moment, name, out)?;
            Ok(Next::Stay)
        }
        Ok(LineAsk::Verb(verb)) => answer_verb(alloc, desk, moment, verb, out),
        Err(ParseFault::Line { word, fault }) => {
            desk.note_fault(alloc, moment, line, word, fault)?;
            print_fault(alloc, word, fault, out)?;
            Ok(after_fault(fault))
        }
        Err(ParseFault::OutOfMemory) => Err(AllocError),
    }
}
