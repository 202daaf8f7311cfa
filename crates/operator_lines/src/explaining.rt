//! What `why` tells.

ghost use Rattle.std.specs.Prelude.{◌≡◌, ◌++◌, IfOk, OnOk, OnErr};
ghost use Rattle.std.specs.Option.{option_map};
ghost use Rattle.operator_lines.specs.Why.{word_lines, holder_lines, last_lines, fault_advice_line, told_lines};
ghost use Rattle.operator_lines.specs.Why.{part_lines, reason_lines, trouble_lines, why_text};

use crate::advice::fault_advice;
use crate::blaming::{command_in, is_free, meant_at, topic_at, word_behind, wrong_word};
use crate::helping::append_refusal;
use crate::topic::Topic;
use crate::trouble::{Trouble, Wrong};
use desk_edit::{Command, Refusal};
use desk_rows::Rows;
use desk_text::{Fault, Head, Value, Word, print_line};
use std::alloc::{AllocError, Global};

/// Appends the line of the word at a place, and of what may stand there; of place 0 nothing.
fn append_word(line: &[u8], place: u32, out: &mut Vec<u8>) -> Result<(), AllocError>
    ensures { OnOk result (out.new.items ≡ out.old.items ++ word_lines line.now place) }
{
    if place == 0 {
        return Ok(());
    }
    let at = Word::Value(Value::U64(u64::from(place)));
    let word = Word::Fixed(word_behind(line, place - 1));
    let meant = Word::Fixed(meant_at(topic_at(line), place));
    print_line(b"word", &[at, word, meant], out)
}

/// Appends the line of the member that has the address of one that is added, if there is one.
fn append_holder(rows: &Rows, command: Option<Command>, out: &mut Vec<u8>) -> Result<(), AllocError>
    ensures { OnOk result (out.new.items ≡ out.old.items ++ holder_lines rows.now command) }
{
    match command {
        Some(Command::AddMember(member)) => match rows.member_at_address(&member.address) {
            None => Ok(()),
            Some(holder) => {
                let number = Word::Value(Value::U32(holder.member));
                let address = Word::Value(Value::Address(member.address));
                print_line(b"member", &[number, Word::Fixed(b"has"), address], out)
            }
        },
        _ => Ok(()),
    }
}

/// Appends the line of the number of the last accepted call, where a line names it.
fn append_last(topic: Option<Topic>, version: u64, out: &mut Vec<u8>) -> Result<(), AllocError>
    ensures { OnOk result (out.new.items ≡ out.old.items ++ last_lines topic version) }
{
    match topic {
        Some(Topic::Head(Head::Undo | Head::Redo)) => {
            print_line(b"last", &[Word::Value(Value::U64(version))], out)
        }
        _ => Ok(()),
    }
}

/// Appends the line of a fault, and what to do.
fn append_fault(alloc: Global, fault: Fault, out: &mut Vec<u8>) -> Result<(), AllocError>
    ensures { OnOk result (out.new.items ≡ out.old.items ++ fault_advice_line fault) }
{
    let text = format!(in alloc; "{fault}")?;
    let advice = Word::Fixed(fault_advice(fault));
    print_line(b"fault", &[Word::Fixed(text.as_bytes()), advice], out)
}

/// Appends the line of what was told, and what to do.
fn append_told(alloc: Global, wrong: Wrong, out: &mut Vec<u8>) -> Result<(), AllocError>
    ensures { OnOk result (out.new.items ≡ out.old.items ++ told_lines wrong) }
{
    match wrong {
        Wrong::Faulty { fault, .. } => append_fault(alloc, fault, out),
        Wrong::Refused { refusal } => append_refusal(refusal, out),
        Wrong::Taken => out.extend_from_slice(
            b"refused 22 LogTaken the log is another bridge's: start the bridge anew\n",
        ),
        Wrong::Closed => out.extend_from_slice(
            b"refused 27 Closed the lease has ended: only its holder may call, till a new one or `lease off`\n",
        ),
    }
}

/// Appends the line of the command of a group that is refused.
fn append_part(wrong: Wrong, out: &mut Vec<u8>) -> Result<(), AllocError>
    ensures { OnOk result (out.new.items ≡ out.old.items ++ part_lines wrong) }
{
    match wrong {
        Wrong::Refused {
            refusal: Refusal::PartRefused { part, .. },
        } => print_line(b"part", &[Word::Value(Value::U32(part))], out),
        Wrong::Refused {
            refusal: Refusal::Conflict { call, part, .. },
        } => {
            let call = Word::Value(Value::U64(call));
            let part = Word::Value(Value::U32(part));
            print_line(b"call", &[call, Word::Fixed(b"part"), part], out)
        }
        _ => Ok(()),
    }
}

/// Appends the line of the reason against that command.
fn append_reason(wrong: Wrong, out: &mut Vec<u8>) -> Result<(), AllocError>
    ensures { OnOk result (out.new.items ≡ out.old.items ++ reason_lines wrong) }
{
    match wrong {
        Wrong::Refused {
            refusal: Refusal::PartRefused { why, .. } | Refusal::Conflict { why, .. },
        } => append_refusal(why.refusal(), out),
        _ => Ok(()),
    }
}

/// What was wrong with a line, by the command that it is and what the desk has by now.
fn trouble_text(
    alloc: Global,
    rows: &Rows,
    version: u64,
    command: Option<Command>,
    trouble: &Trouble,
) -> Result<Vec<u8>, AllocError>
    ensures { IfOk result (λ text. text.items ≡ trouble_lines rows.now version command trouble.now) }
{
    let (line, wrong) = (trouble.line(), trouble.wrong());
    let mut text = Vec::new(alloc);
    print_line(b"line", &[Word::Fixed(line)], &mut text)?;
    append_word(
        line,
        wrong_word(is_free(rows, command), line, wrong),
        &mut text,
    )?;
    append_holder(rows, command, &mut text)?;
    append_last(topic_at(line), version, &mut text)?;
    append_told(alloc, wrong, &mut text)?;
    append_part(wrong, &mut text)?;
    append_reason(wrong, &mut text)?;
    Ok(text)
}

/// The text of `why`.
fn why(
    alloc: Global,
    rows: &Rows,
    version: u64,
    trouble: Option<&Trouble>,
) -> Result<Vec<u8>, AllocError>
    ensures { IfOk result (λ text. text.items ≡ why_text rows.now version (option_map (λ t. t.now) trouble.entry)) }
{
    match trouble {
        None => Vec::from_slice(alloc, b"end\n"),
        Some(trouble) => {
            let command = command_in(alloc, trouble.line())?;
            let mut text = trouble_text(alloc, rows, version, command, trouble)?;
            text.extend_from_slice(b"end\n")?;
            Ok(text)
        }
    }
}

/// Appends what was wrong with the last line that was faulty or refused, if there is one: the line, the word that is
/// wrong and what may stand there, what the desk of this version has, and what to do. An `Err` appends nothing.
pub fn print_why(
    alloc: Global,
    rows: &Rows,
    version: u64,
    trouble: Option<&Trouble>,
    out: &mut Vec<u8>,
) -> Result<(), AllocError>
    ensures ok { OnOk result
        (out.new.items ≡ out.old.items ++ why_text rows.now version (option_map (λ t. t.now) trouble.entry)) }
    ensures err { OnErr result (out.new.items ≡ out.old.items) }
{
    let text = why(alloc, rows, version, trouble)?;
    out.extend_from_slice(&text)
}
