//! The laws of the lines of a trace: what is printed of a lane is read as what the lane was handed.
//!
//! [`item_lines_are_read`] says it of every item whose numbers are in range, which `IsInput` tells: of the words of its
//! line, and of the line itself where that has at most 8,388,608 octets. A trace has such a line for each item that a
//! lane was handed, so whoever replays it reads the same items.
//!
//! The lines of a lane's part of a trace are those of a script, each behind the words that name the lane
//! ([`a_lanes_lines_are_its_script`]). By [`a_trace_is_read`] the script begins a bridge of the same name, and asks for
//! the lane's items, each behind the calls that lead to its version.
//! [`a_trace_sends_what_its_lane_sent`] says what the script sends: what a bridge of one lane sends for these items.
//! What of that is about the lane's streams is what the lane sent. [`a_trace_replays_its_lane`] says that of the lanes
//! of a bridge that has ended.
//!
//! ```rust
//! append_item_line(&item, &mut out)?; // out: `item tick 40000000` and an LF
//! output(alloc, out.as_slice())?; // hands the same item to the lane of a new bridge
//! ```
#![tactic(auto)]

mod laws;
mod replaying;

pub use self::laws::{
    a_lanes_lines_are_its_script, a_trace_is_read, a_trace_sends_what_its_lane_sent,
    item_lines_are_read,
};
pub use self::replaying::a_trace_replays_its_lane;
