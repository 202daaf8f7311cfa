//! The receive side. It takes in each datagram from the wire, and returns its outcome, the items for the lanes, and the
//! datagrams that ask its sender for something.
//!
//! Begin with [`Ingress::new`], then [`Ingress::datagram`], [`Ingress::wait`] and [`Ingress::reports`]. What an outcome
//! says of its datagram is its row in a table, [`Outcome::class`]. A contract sees the sources that the receive side
//! knows, as a function of the datagrams, waits and reports so far.
//!
//! ```rust
//! let settings = Settings { bridge_ssrc: 1, cname: Bytes::from_static(b"bridge") };
//! let mut ingress = Ingress::new(alloc, settings)?;
//! let ingest = ingress.datagram(alloc, &rows, &from, moment, &octets)?; // what it was, items, and datagrams to send
//! let answer = ingress.wait(alloc, &rows, &from, 1001, moment)?; // every 20 ms: items, and datagrams to send
//! let reports = ingress.reports(alloc, &rows, moment)?; // receiver reports, with the addresses that they go to
//! ```
//!
//! `an_empty_datagram_is_dropped` of worked_bridge makes the first two calls, with the answer proved.
//! `reports_leave_others_alone` of worked_bridge makes the last one, with a law of it proved.
#![tactic(auto)]

mod admitting;
mod advancing;
mod asking;
mod control;
mod gating;
mod ingest;
mod ingress;
mod known;
mod laws;
mod media;
mod media_packet;
mod outcome;
mod outcome_class;
mod outcome_kind;
mod payloads;
mod received;
mod reception;
mod reporting;
mod requesting;
mod settings;
mod sound_count;
mod sounding;
mod source_entry;
mod validating;
mod waiting;

pub use self::ingest::{Ingest, WaitAnswer};
pub use self::ingress::Ingress;
pub use self::laws::{
    datagrams_are_read, gates_without_waits, readings_agree, reports_begin_intervals,
    voices_are_there, waits_leave_others_alone,
};
pub use self::outcome::Outcome;
pub use self::outcome_class::{Disposition, OutcomeClass, Whose};
pub use self::outcome_kind::OutcomeKind;
pub use self::received::Received;
pub use self::reception::Reception;
pub use self::settings::Settings;
pub use self::sound_count::SoundCount;
