//! Calls of operators to a bridge, and the rows of its desk.

use crate::lines::{Answer, MOST, first_word, unread};
use crate::saying::{say, say_reply};
use bridge_core::Core;
use desk_calls::Reply;
use desk_edit::{Call, Refusal};
use desk_text::{ParseFault, parse_desk, print_rows};
use std::io;
use x_refusing::Refusing;

/// What the line of a call comes to.
enum Judged {
    Told(Reply),
    Refused,
    Unread,
}

fn asked<'a>(heap: &'a Refusing, core: &mut Core<&'a Refusing>, words: &str) -> Judged {
    let (op, text) = first_word(words);
    let Ok(op) = op.parse::<u8>() else {
        return Judged::Unread;
    };
    let call = match parse_desk(heap, text.as_bytes()) {
        Ok(call) => call,
        Err(ParseFault::OutOfMemory) => return Judged::Refused,
        Err(_) => return Judged::Unread,
    };
    match core.desk(heap, op, call) {
        Reply::Refused {
            why: Refusal::OutOfMemory,
            ..
        } => Judged::Refused,
        reply => Judged::Told(reply),
    }
}

/// A call of an operator.
pub fn call<'a>(
    heap: &'a Refusing,
    core: &mut Core<&'a Refusing>,
    nth: u64,
    words: &str,
    out: &mut String,
) -> io::Result<Answer> {
    heap.refuse(nth);
    let judged = asked(heap, core, words);
    let met = heap.end(nth);
    match judged {
        Judged::Told(reply) => {
            say_reply(heap, &reply, out)?;
            Ok(Answer::after(met))
        }
        Judged::Refused => Ok(Answer::Refused),
        Judged::Unread => unread(out),
    }
}

/// The rows of the desk.
pub fn show<'a>(
    heap: &'a Refusing,
    core: &Core<&'a Refusing>,
    nth: u64,
    out: &mut String,
) -> io::Result<Answer> {
    let mut text = Vec::new(heap);
    text.push(b'|')?;
    heap.refuse(nth);
    let is_shown = print_rows(core.rows(), core.version(), &mut text).is_ok();
    let met = heap.end(nth);
    if is_shown {
        say(text.get(1..).unwrap_or(b""), out)?;
        return Ok(Answer::after(met));
    }
    if text.as_slice() != b"|".as_slice() {
        out.push_str("a part of ")?;
    }
    Ok(Answer::Refused)
}

/// Undoes all that is done, and says how much that was.
pub fn undo_all<'a>(
    heap: &'a Refusing,
    core: &mut Core<&'a Refusing>,
    out: &mut String,
) -> io::Result<Answer> {
    let mut count: u64 = 0;
    for _ in 0..MOST {
        let last = core.version();
        if let Reply::Refused { .. } = core.desk(heap, 0, Call::Undo { last }) {
            break;
        }
        count = count.saturating_add(1);
    }
    write!(out, "undone {count}\n")?;
    Ok(Answer::Whole)
}

/// Does again all that was undone, and says how much that was.
pub fn redo_all<'a>(
    heap: &'a Refusing,
    core: &mut Core<&'a Refusing>,
    out: &mut String,
) -> io::Result<Answer> {
    let mut count: u64 = 0;
    for _ in 0..MOST {
        let last = core.version();
        if let Reply::Refused { .. } = core.desk(heap, 0, Call::Redo { last }) {
            break;
        }
        count = count.saturating_add(1);
    }
    write!(out, "redone {count}\n")?;
    Ok(Answer::Whole)
}
