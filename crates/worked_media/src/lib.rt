//! Worked calls over the crates of single media streams and over the mixer. Each answer is proved from the contract of
//! the call alone.
#![tactic(auto)]

// Sources, and what they are asked for.
pub mod pictures;
pub mod reporting;
pub mod source_laws;
pub mod sources;
pub mod upstreams;

// Samples and mixes.
pub mod formats;
pub mod jitter_buffers;
pub mod mixed_ticks;
pub mod mixes;
pub mod renewals;
pub mod sample_laws;
pub mod samples;

// Outgoing streams.
pub mod feedback_laws;
pub mod resends;
pub mod stream_laws;
pub mod streaming;
