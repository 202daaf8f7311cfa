//! The parts of taking one call of a desk back alone, while later ones go on.
//!
//! Begin with [`carry_out_again`], which carries the commands of later calls out on a copy of the rows as they were
//! before the call, and [`difference`], the one edit that leads from the desk's rows to that copy. A contract sees rows
//! as a desk. The laws say which entries of a history with reverts are in force, and what desk they lead to.
//!
//! ```rust
//! // `rows` has a mute of source 201 and, made later, member 12. `copy` has neither.
//! carry_out_again(alloc, &mut copy, &[Command::AddMember(member)])?; // or the first command that stands in the way
//! let edit = difference(alloc, &rows, &copy)?; // takes the mute, and nothing else
//! rows.absorb_fitting(&edit); // the desk of `copy`
//! ```
#![tactic(auto)]

mod again;
mod differing;
mod laws;
mod moving;

pub use self::again::{carry_out_again, is_idle};
pub use self::differing::difference;
pub use self::laws::{
    edits_lead_with_entries, edits_move_with_entries, histories_stay_sound,
    idle_commands_change_nothing, no_reverts_no_change, one_edit_leads,
    reverted_calls_were_never_made, reverts_carry_out_again, reverts_commute,
    the_newest_call_reverted,
};
pub use self::moving::{bring_or_take, moved_keys};
