//! What is printed for replies.

ghost use Rattle.std.specs.Prelude.{◌≡◌, ◌+◌, ◌<◌, [], ◌∷◌, ◌++◌, codes, length, map, OnOk, OnErr};
ghost use Rattle.std.specs.Prelude.{vec_len, vec_capacity};
ghost use Rattle.desk_text.specs.Text.{fixed, value, line_text, reason_words, reply_text, refused_text};
ghost use Rattle.desk_text.specs.declared.value.Value.TheVariants.{U32};
ghost use Rattle.desk_text.specs.Shown.{said};
ghost use Rattle.desk_edit.specs.Told.{told_in};

use crate::appending::{Word, append_line};
use crate::value::Value;
use desk_calls::Reply;
use desk_edit::{Carried, Reason, RefusalRow};
use std::alloc::{AllocError, Allocator};

/// Appends the line of these words, of which the first is given apart. An `Err` changes nothing.
pub fn print_line<A: Allocator>(
    first: &[u8],
    words: &[Word<'_>],
    out: &mut Vec<u8, A>,
) -> Result<(), AllocError>
    ensures ok { OnOk result (out.new.items ≡ out.old.items ++ line_text (fixed first.now ∷ map said words.now)) }
    ensures err { OnErr result (out.new.items ≡ out.old.items) }
    ensures full { OnErr result (vec_capacity out.old
        < vec_len out.old + length (line_text (fixed first.now ∷ map said words.now))) }
{
    let before = out.len();
    let answer = append_line(first, words, out);
    if answer.is_err() {
        out.truncate(before);
    }
    answer
}

/// Appends the line of a reply. On out of memory, the only error, nothing changes.
pub fn print_reply<A: Allocator>(reply: &Reply, out: &mut Vec<u8, A>) -> Result<(), AllocError>
    ensures ok { OnOk result (out.new.items ≡ out.old.items ++ reply_text reply.now) }
    ensures err { OnErr result (out.new.items ≡ out.old.items) }
    ensures full { OnErr result (vec_capacity out.old < vec_len out.old + length (reply_text reply.now)) }
{
    match *reply {
        Reply::Accepted { no } => print_line(b"ok", &[Word::Value(Value::U64(no))], out),
        Reply::Refused { at, why } => print_refused(at, why.told(), out),
    }
}

/// Appends the line of a call that is refused at this version: the refusal's number, its name, and what it carries. On
/// out of memory, the only error, nothing changes.
pub fn print_refused<A: Allocator>(
    at: u64,
    row: RefusalRow,
    out: &mut Vec<u8, A>,
) -> Result<(), AllocError>
    ensures ok { OnOk result (out.new.items ≡ out.old.items ++ refused_text at (told_in row)) }
    ensures err { OnErr result (out.new.items ≡ out.old.items) }
    ensures full { OnErr result (vec_capacity out.old < vec_len out.old + length (refused_text at (told_in row))) }
{
    let at = Word::Value(Value::U64(at));
    let number = Word::Value(Value::U16(row.number));
    let name = Word::Fixed(row.name);
    match row.carried {
        Carried::Nothing => print_line(b"no", &[at, number, name], out),
        Carried::Limit(table, limit) => { print_pair([at, number, name], table.text(), limit, out) }
        Carried::Last(last) => {
            let last = Word::Value(Value::U64(last));
            print_line(b"no", &[at, number, name, last], out)
        }
        Carried::Most(limit) => {
            let limit = Word::Value(Value::U32(limit));
            print_line(b"no", &[at, number, name, limit], out)
        }
        Carried::Part(part, why) => {
            let part = Word::Value(Value::U32(part));
            print_part([at, number, name, part], why, out)
        }
        Carried::InCall(call, part, why) => {
            let call = Word::Value(Value::U64(call));
            let part = Word::Value(Value::U32(part));
            print_in_call([at, number, name, call, part], why, out)
        }
        Carried::Row(kind, row) => print_pair([at, number, name], kind.text(), row, out),
    }
}

/// Appends the line of a refusal: these words, and then a text and a number.
fn print_pair<A: Allocator>(
    words: [Word<'_>; 3],
    text: &'static [u8],
    number: u32,
    out: &mut Vec<u8, A>,
) -> Result<(), AllocError>
    ensures ok { OnOk result (out.new.items ≡ out.old.items
        ++ line_text (fixed (codes "no") ∷ map said words.entry ++ fixed text.now ∷ value (U32 number) ∷ [])) }
    ensures err { OnErr result (out.new.items ≡ out.old.items) }
    ensures full { OnErr result (vec_capacity out.old < vec_len out.old
        + length (line_text (fixed (codes "no")
        ∷ map said words.entry ++ fixed text.now ∷ value (U32 number) ∷ []))) }
{
    let [at, refusal, name] = words;
    let number = Word::Value(Value::U32(number));
    print_line(b"no", &[at, refusal, name, Word::Fixed(text), number], out)
}

/// Appends the line of a refused group: these words, and then the reason against one of its commands.
fn print_part<A: Allocator>(
    words: [Word<'_>; 4],
    why: Reason,
    out: &mut Vec<u8, A>,
) -> Result<(), AllocError>
    ensures ok { OnOk result (out.new.items ≡ out.old.items
        ++ line_text (fixed (codes "no") ∷ map said words.entry ++ reason_words why)) }
    ensures err { OnErr result (out.new.items ≡ out.old.items) }
    ensures full { OnErr result (vec_capacity out.old
        < vec_len out.old + length (line_text (fixed (codes "no") ∷ map said words.entry ++ reason_words why))) }
{
    let [at, number, name, part] = words;
    let row = why.refusal().told();
    let reason = Word::Value(Value::U16(row.number));
    let text = Word::Fixed(row.name);
    match why {
        Reason::Full { table, limit } => {
            let table = Word::Fixed(table.text());
            let limit = Word::Value(Value::U32(limit));
            print_line(
                b"no",
                &[at, number, name, part, reason, text, table, limit],
                out,
            )
        }
        _ => print_line(b"no", &[at, number, name, part, reason, text], out),
    }
}

/// Appends the line of a revert that a later call stands in the way of: these words, and then the reason against one of
/// its commands.
fn print_in_call<A: Allocator>(
    words: [Word<'_>; 5],
    why: Reason,
    out: &mut Vec<u8, A>,
) -> Result<(), AllocError>
    ensures ok { OnOk result (out.new.items ≡ out.old.items
        ++ line_text (fixed (codes "no") ∷ map said words.entry ++ reason_words why)) }
    ensures err { OnErr result (out.new.items ≡ out.old.items) }
    ensures full { OnErr result (vec_capacity out.old
        < vec_len out.old + length (line_text (fixed (codes "no") ∷ map said words.entry ++ reason_words why))) }
{
    let [at, number, name, call, part] = words;
    let row = why.refusal().told();
    let reason = Word::Value(Value::U16(row.number));
    let text = Word::Fixed(row.name);
    match why {
        Reason::Full { table, limit } => {
            let table = Word::Fixed(table.text());
            let limit = Word::Value(Value::U32(limit));
            print_line(
                b"no",
                &[at, number, name, call, part, reason, text, table, limit],
                out,
            )
        }
        _ => print_line(b"no", &[at, number, name, call, part, reason, text], out),
    }
}
