//! Scripts of a bridge: how their lines are read, what is printed for each, and the run that answers a whole script.
//!
//! Begin with [`run`] for a script from a reader, or [`output`] for one in memory. [`print_egress`] appends a line of
//! output, and [`append_item_line`] and its neighbours lines of a script. Calls, replies and rows are those of
//! desk_text. A contract sees a text as its octets.
//! The crate opens no file and no socket: a script comes from a [`ScriptSource`], and its output goes to a
//! [`TextSink`].
//!
//! ```rust
//! run(alloc, &mut reader, &mut writer)?; // a whole script, over a new bridge with one lane
//! ```
//!
//! `a_script_adds_a_room` of worked_bridge is such a call of `output`, with its text proved.
#![tactic(auto)]

mod answer;
mod beginning;
mod bridge_line;
mod exits;
mod fault;
mod first_line;
mod framing;
mod handed_item;
mod handing;
mod item_text;
mod laws;
mod line;
mod name;
mod outcomes;
mod packet;
mod pairs;
mod print;
mod running;
mod script;
mod script_lines;
mod sending;
mod sink;
mod source;

pub use self::exits::{Ask, Exit, asked, exit_status, status, unread};
pub use self::fault::RunFault;
pub use self::item_text::append_item_line;
pub use self::laws::{
    bridge_lines, datagram_lines, datagrams_are_heard, desk_lines, frame_lines, hex_words,
    made_lines_are_read, packet_words, report_lines, script_bridge, script_sends,
    script_streams_have_no_gap, scripts_are_heard, tick_lines, wait_lines,
};
pub use self::print::print_egress;
pub use self::running::{output, run};
pub use self::script_lines::{
    append_report_line, append_rx_line, append_tick_line, append_wait_line,
};
pub use self::sink::{Portion, TextSink, Writer};
pub use self::source::{Piece, Reader, ScriptSource};
