//! Who gets what, by the rows of a desk: the source that each slot chooses, the receivers of a source, the sources of a
//! mix.
//!
//! Begin with [`receivers_of`] for a source, [`choice`] for a slot, and [`mix_plan`] and [`rate_of`] for a member. A
//! contract sees the rows as a desk. Each answer is a definition over the whole desk.
//!
//! ```rust
//! // Slots 504 and 508, of members 11 and 13, have subscribed to source 101 of member 10 at this address.
//! let address = Address { ip: [127, 0, 0, 1], port: 5010 };
//! let source = choice(&rows, 504); // Some(101)
//! let receivers = receivers_of(alloc, &rows, 101, &address)?; // both slots, with the addresses of their members
//! ```
//!
//! `choice` and `receivers_of` of worked_desk are these calls on such a desk, with their answers proved.
#![tactic(auto)]

mod choosing;
mod hearing;
mod laws;
mod looking;
mod receivers;
mod seating;

pub use self::choosing::choice;
pub use self::hearing::{
    AudioSource, MixSource, audio_sources, hears_in_full, mix_plan, write_gains,
};
pub use self::laws::{
    all_who_chose_receive, choices_stay_in_the_room, first_videos_are_least, gains_are_small,
    mixes_are_apart, mixes_have_one_member, mixes_stay_in_the_room, nothing_falls_through,
    rates_are_of_rooms, receivers_are_distinct, rooms_are_small,
};
pub use self::looking::{
    member_at, member_from, rate_of, room_rate, sender_of, slot_at, slots_to, source_from,
};
pub use self::receivers::{Receiver, receivers_of};
