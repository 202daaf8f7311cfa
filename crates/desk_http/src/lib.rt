//! The operators' page: which route a browser's request takes, how its line reaches the bridge once, and how the
//! request is responded to.
//!
//! Begin with [`route_of`]. A [`Router`] responds to a request that needs no bridge, and names the line of any other. A
//! [`PendingLine`] hands that line over once, a [`BridgeRequest`] takes in the bridge's reply, and a [`Responder`]
//! responds with it. A contract sees requests, lines and replies as octets. The crate has no socket and no clock.
//!
//! Answers to queries go on as the bridge's lines, as JSON or as metrics ([`AnswerForm`]). The tables of the page
//! ([`page_tables`]) have a row for each key and for each metric.
//!
//! ```rust
//! let mut request = BridgeRequest::new(alloc, Vec::from_slice(alloc, b"mute 201")?);
//! let octets = request.encode(alloc)?; // the line and an LF
//! let first = request.feed(b"ok ")?; // ReplyProgress::Partial
//! let last = request.feed(b"9\n")?; // ReplyProgress::Complete
//! ```
//!
//! A [`SpeechState`] says by the sound of quarters of a second whether a source speaks.
//!
//! The cases of x_cases_page have this request, and each route.
#![tactic(auto)]

mod admission;
mod bridge_connection;
mod bridge_metrics;
mod bridge_request;
mod bridge_shapes;
mod call_shapes;
mod connection_name;
mod desk_shapes;
mod desk_texts;
mod events;
mod files;
mod knowing;
mod labelling;
mod laws;
mod lease;
mod lines;
mod media_metrics;
mod metrics;
mod naming;
mod newer;
mod pending_line;
mod person;
mod query;
mod reading;
mod relaying;
mod responding;
mod routing;
mod rows;
mod services;
mod site;
mod speaking;
mod startup;
mod stats_shapes;
mod stream_metrics;
mod text_edit;
mod version;
mod zero_lines;

pub use admission::{ClientActivity, ClientStage, Placement, admit, admits_stream, keeps_up};
pub use bridge_connection::BridgeConnection;
pub use bridge_request::{BridgeRequest, ReplyProgress};
pub use connection_name::is_naming;
pub use desk_texts::DeskTexts;
pub use events::{append_event, known_lines, stream_head};
pub use files::{AssetFile, FileKind, folder_name};
pub use labelling::{Label, Labels};
pub use laws::{calls_are_guarded, edits_make_texts, lines_are_sent_at_most_once};
pub use lease::{closed_by, lease_line};
pub use lines::{MAX_CHANGE, MAX_LINE};
pub use metrics::{Family, Unit};
pub use naming::{Names, NamesOutcome, is_names_text};
pub use newer::{SeenCall, newer_call};
pub use pending_line::PendingLine;
pub use query::{AnswerForm, Query, latest_line};
pub use reading::{WordPlace, answer_lines};
pub use relaying::{Tables, page_tables};
pub use responding::BridgeReply;
pub use routing::{PageRefusal, Route, route_of};
pub use rows::{HistoryPart, RowField, RowKind, RowShape};
pub use services::{Responder, Router};
pub use site::{Assets, Site};
pub use speaking::{Quarter, SpeechState};
pub use startup::{Addresses, loopback_addresses, request_limits, token};
pub use text_edit::{TextEdit, edit_between};
