//! Lines about the desk: how calls are read from words, and how replies, refusals, rows and accepted calls are printed.
//!
//! Begin with [`parse_desk`], which reads one call, and with [`print_reply`] and [`print_rows`], which append lines.
//! [`print_history`] appends the lines of the calls that are in force, and of those that can be redone; [`print_told`]
//! those that tell of calls as they are accepted, with their moments and names or without; [`print_calls`] those of a
//! log; [`print_called`] one that a script has; [`print_groups`] those of groups of commands.
//!
//! Whoever has other lines reads them by the same words: [`next_word`] and [`end_of_words`] go from word to word,
//! [`read_values`] reads the values of fields, and [`read_call`] a call behind other words. [`print_line`] appends a
//! line of words. A contract sees a text as its octets, and what is left of a line as its words.
//!
//! ```rust
//! let call = parse_desk(alloc, b"pin 1 101")?;
//! let mut out = Vec::new(alloc);
//! print_reply(&core.desk(alloc, 1, call), &mut out)?; // the line of the reply
//! print_history(lists.done(20), lists.undone(20), 1, &mut out)?; // of a `CallLists`, the last 20 of each
//! ```
//!
//! `spells_an_undo` and `prints_an_answer` of worked_bridge are such calls, with their texts proved.
#![tactic(auto)]

mod appending;
mod building;
mod calling;
mod fault;
mod groups;
mod history;
mod laws;
mod name;
mod naming;
mod news;
mod number;
mod parts;
mod print;
mod reading;
mod shaping;
mod showing;
mod spelling;
mod stamped;
mod telling;
mod value;
mod words;

pub use self::appending::Word;
pub use self::calling::{parse_desk, read_call};
pub use self::fault::{Fault, ParseFault};
pub use self::groups::print_groups;
pub use self::history::print_history;
pub use self::laws::{
    address_words, call_lines, ext_words, number_words, pieces_join, refusal_words,
};
pub use self::name::{Head, Name, parse_head, parse_name};
pub use self::news::{print_called, print_end};
pub use self::number::{parse_ext, parse_number};
pub use self::print::{print_line, print_refused, print_reply};
pub use self::reading::{ReadPrefix, read_values};
pub use self::showing::print_rows;
pub use self::spelling::parse_address;
pub use self::stamped::{print_calls, print_told};
pub use self::value::{Field, Value, address_at, operator_at, u32_at, u64_at};
pub use self::words::{LINE_LIMIT, cut, end_of_words, first_word, is_printable, next_word};
