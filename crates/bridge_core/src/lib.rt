//! The core of the bridge: the desk, the receive side, and the lanes that send by the desk's versions.
//!
//! Begin with [`Core::new`]. [`Core::desk`] takes calls, [`Core::datagram`] takes datagrams, and [`Core::item`] takes
//! an item for a lane. A contract sees a core as its desk, its version, its lists of edits, its ingress and its lanes.
//! The core has no socket, clock or thread: moments and octets come in, and lists go out. A bridge whose lanes run on
//! threads uses [`LaneState`] alone.
//!
//! ```rust
//! let settings = Settings { bridge_ssrc: 1, cname: Bytes::from_static(b"bridge") };
//! let mut core = Core::new(alloc, 1, settings)?;
//! let reply = core.desk(alloc, 1, call); // the version that the call led to, or why it is refused
//! let ingest = core.datagram(alloc, &from, moment, &octets)?; // what it was, items, and datagrams to send
//! let sent = core.item(alloc, 0, &item)?; // what lane 0 sends for one of the items
//! let answer = core.wait(alloc, &from, 1001, moment)?; // every 20 ms: items, and datagrams to send
//! let reports = core.reports(alloc, moment)?; // receiver reports, with the addresses that they go to
//! ```
//!
//! `sends_what_was_promised` of worked_bridge calls `new`, `desk` and `item` so, with the headline of what is sent
//! proved. `a_core_drops_an_empty_datagram` of worked_bridge calls `datagram`.
#![tactic(auto)]

mod audio;
mod bridge;
mod control;
mod egress;
mod fault;
mod lane;
mod laws;
mod parts;
mod preparing;
mod reporting;
mod video;
mod visit;

pub use self::bridge::Core;
pub use self::egress::Egress;
pub use self::fault::{CoreFault, LaneFault};
pub use self::lane::LaneState;
pub use self::laws::{
    all_that_is_sent, all_who_hear_get_it, calls_are_legal, commands_come_back, edits_lead_back,
    frames_go_whole, lane_count_does_not_matter, mixes_are_heard, mixes_are_mix_lists,
    notes_lead_back, packets_are_chosen, picture_losses_go_to_the_chosen,
    reports_count_first_sendings, resends_lead_back, streams_are_routed_lists, streams_have_no_gap,
    the_headline, undos_and_redos_are_accepted, undos_are_redone,
};
pub use frame_gate::{Frame, FrameFault, FramePacket};
pub use ingress::{Ingest, Ingress, Outcome, Received, Settings, WaitAnswer};
pub use media_items::{Item, MediaFrame};
pub use receiver_feedback::LossNote;
pub use retransmit::PacketBytes;
