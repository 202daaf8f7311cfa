//! Worked calls of packets: of both codecs, and of the reassembly of frames. Each function is a single answer, which is
//! proved from the contract of the call alone: a body that answers otherwise doesn't meet that contract.
#![tactic(auto)]

// RTP packets, and sequence numbers.
pub mod classes;
pub mod distances;
pub mod reading_faults;
pub mod reading_packets;
pub mod writing_packets;

// RTCP compounds.
pub mod later_faults;
pub mod nacking;
pub mod reading_compound_faults;
pub mod reading_compounds;
pub mod writing_compounds;
pub mod writing_faults;

// Frames that a gate reassembles.
pub mod cuts;
pub mod dividing;
mod fixtures;
pub mod frames;
pub mod numbers;
